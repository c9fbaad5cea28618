// a * b + c as `dd_fmla` has it, to the last bit, and nearly always without Dekker's product. The lo
// of that product is at most about 2^-52 of it. Where so small a number, with the error of the sum,
// cannot move the sum of the rounded product and c, that sum is the result; else `dd_fmla` is run.
#![tactic(auto)]

ghost use Rattle.std.specs.Prelude.{◌≡◌, not, T};
ghost use Rattle.std.specs.Float.Ieee.{is_nan};
ghost use Rattle.double_double.specs.DoubleDouble.{dd_fmla};
ghost use Rattle.fmla.specs.Fmla as spec;

use double_double::{DoubleDouble, dd_fmla};
use floats::common::is_within;

// Whether x is finite and at most 2^400 in size. For two such factors nothing in Dekker's product
// overflows.
fn is_moderate(x: f64) -> bool
    ensures { result ≡ spec.is_moderate x }
{
    is_within(x, f64::from_bits(0x58f0_0000_0000_0000))
}

// 2^-52 + 2^-61.
const RELATIVE_PART: f64 = f64::from_bits(0x3cb0_0800_0000_0000);

// 2^-900, for a product that underflows.
const ABSOLUTE_PART: f64 = f64::from_bits(0x07b0_0000_0000_0000);

// A bound on the lo of Dekker's product, from the rounded product h.
fn lo_bound(h: f64) -> f64
    ensures { result ≡ spec.lo_bound h }
{
    h.abs() * RELATIVE_PART + ABSOLUTE_PART
}

// Whether s stays as it is when e and anything from -d to d are added to it.
#[tactic(auto, unfolding(crate::specs::Fmla::stays))]
fn stays(s: f64, e: f64, d: f64) -> bool
    ensures { result ≡ spec.stays s e d }
{
    d + e + s <= s && s <= e - d + s
}

// a * b + c by double-doubles, rounded at the end.
pub fn fmla(a: f64, b: f64, c: f64) -> f64
    ensures { result ≡ dd_fmla a b c }
{
    if is_moderate(a) && is_moderate(b) {
        let h = a * b;
        let s = DoubleDouble::from_full_exact_add(h, c);
        if stays(s.hi, s.lo, lo_bound(h)) {
            return s.hi;
        }
    }
    dd_fmla(a, b, c)
}
