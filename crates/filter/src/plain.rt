// The plain evaluation of the fast path's logarithm and power of two: its operations, with a product
// and a sum wherever it has a `dd_fmla`.
ghost use Rattle.filter.specs.Plain as spec;

use fast_path::evaluation::MulAdd;
use fast_path::inverse::WithInverse;

const MINUS_ONE: f64 = -1.0;

// a * b + c by a product and a sum.
pub struct Plain;

impl MulAdd for Plain {
    ghost mul_add = { spec.plain_mul_add };

    fn mul_add(a: f64, b: f64, c: f64) -> f64 {
        a * b + c
    }

    #[tactic(auto, using(crate::proofs::Limits::is_minus_1))]
    fn times_minus_one(v: WithInverse) -> f64 {
        v.r * v.t + MINUS_ONE
    }
}
