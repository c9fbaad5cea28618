// The fast part of the table path: the logarithm of 1 + x and a power of two, each by a table and a
// polynomial. A translation of `compoundf.rs` of pxfm 0.1.30 (NOTICE); names and the order of the
// operations are the source's.
#![tactic(auto)]

ghost use Rattle.std.specs.Prelude.{◌≡◌, T};
ghost use Rattle.std.specs.Float.Ieee.{lt};
ghost use Rattle.floats.specs.Operations.{f64};
ghost use Rattle.double_double.specs.DoubleDouble.{dd_fmla};
ghost use Rattle.special.specs.Special.{minus_one};
ghost use Rattle.fast_path.specs.Edges.{lower_edge, upper_edge};
ghost use Rattle.fast_path.specs.Fast as spec;

use crate::evaluation::{MulAdd, log2p1, power};
use crate::inverse::WithInverse;
use crate::scaling::scaled;
use floats::narrowing::narrow;
use floats::rounding::round_ties_even;
use fmla::fmla;
use std::num::f64_from_bits_with_nan;
use tables::{CompoundfExp2T, Table};

pub mod evaluation;
pub mod inverse;
pub mod scaling;

// The index of the inverse of t.
#[tactic(auto, using(crate::proofs::Index::inverse_number), unfolding(crate::specs::Fast::inverse_index))]
pub fn inverse_index(t: f64) -> u64
    requires { spec.HasInverse t }
    ensures { result ≡ spec.inverse_index t }
{
    // add 2, so that the sum always lies from 2 to 4
    f64::to_bits(t + 2.0) / 0x2000_0000_0000 - 0x2002d
}

// a * b + c as `dd_fmla` has it.
pub struct DdFmla;

impl MulAdd for DdFmla {
    ghost mul_add = { dd_fmla };

    fn mul_add(a: f64, b: f64, c: f64) -> f64 {
        fmla(a, b, c)
    }

    // r has at most nine digits, so that its products with the two parts of t are exact.
    #[tactic(auto, using(crate::proofs::MinusOne::less_one))]
    fn times_minus_one(v: WithInverse) -> f64 {
        let (r, t) = (v.r, v.t);
        // 2^26, so that the sum is rounded to a whole number of 2^-26
        let hi = t + 67108864.0 - 67108864.0;
        let lo = t - hi;
        r * lo + (r * hi - 1.0)
    }
}

// Near log2(1 + x), for any f64 above -1. The source says that for an f32 the relative error is below
// 2^-47.997; nothing here rests on that.
pub fn compoundf_log2p1_fast(x: f64) -> f64
    requires { T (lt minus_one x) }
    ensures { result ≡ spec.compoundf_log2p1_fast x }
{
    log2p1::<DdFmla>(x)
}

// The index of the nearest 32nd to r.
#[tactic(auto, using(crate::proofs::Index::power_number), unfolding(crate::specs::Fast::power_index))]
pub fn power_index(r: f64) -> u64
    requires { spec.HasPower r }
    ensures { result ≡ spec.power_index r }
{
    // 3 + 2^-6, so that the index is rounded to nearest
    f64::to_bits(3.015625 + r) / 0x4000_0000_0000 - 0x10010
}

// The pattern of a number near 2^r.
#[tactic(auto, unfolding(crate::specs::Fast::exp2_reduced))]
fn exp2_reduced(r: f64) -> u64
    requires { spec.HasPower r }
    ensures { result ≡ spec.exp2_reduced r }
{
    let i = power_index(r);
    power::<DdFmla>(i, r - CompoundfExp2T::at(i))
}

// Below, a value may be too small to be a normal f32.
const LEAST_NORMAL: f64 = f64::from_bits(0x3810_0000_0000_08e2);

// v, where it is large enough to be a normal f32, and v less err and v plus err narrow to one f32; else
// `None`, the source's -1.0.
#[tactic(auto, unfolding(crate::specs::Fast::rounding_test))]
fn rounding_test(v: f64, err: f64) -> Option<f64>
    ensures { result ≡ spec.rounding_test v err }
{
    // in case of potential underflow, we defer to the accurate path
    if v < LEAST_NORMAL {
        return None;
    }
    let lb = narrow(v - err);
    let rb = narrow(v + err);
    if lb != rb { None } else { Some(v) }
}

// `rounding_test` by the patterns w of v and e of err. Where e <= w - 40 * 2^52, err is at most 2^-40
// of v, and so below 2^13 last places of it, or 2^14 of those below a power of two. If no midpoint of
// two f32s is that near to v, both bounds narrow to one f32.
#[tactic(auto, using(crate::proofs::Midpoints::by_pattern))]
fn pattern_test(w: u64, e: u64) -> Option<f64>
    ensures { result ≡ spec.rounding_test (f64 w) (f64 e) }
{
    if w < 0x3810_0000_0000_0000 {
        None
    } else if w >= 0x3810_0000_0000_4000
        && w < 0x7fe0_0000_0000_0000
        && e <= w - 0x280_0000_0000_0000
        && (w + 0x1000_2000) % 0x2000_0000 > 0x6000
    {
        Some(f64::from_bits(w))
    } else {
        rounding_test(f64_from_bits_with_nan(w), f64_from_bits_with_nan(e))
    }
}

// Near 2^t, where the rounding test passes. The range of t is asked for here, and in `Reduction::of` and
// `decided` of other crates: a type for it would be made for one call of each.
#[tactic(auto, using(crate::proofs::Index::two_to_t), unfolding(crate::specs::Fast::exp2_fast))]
pub fn exp2_fast(t: f64) -> Option<f64>
    requires t_above { T (lt lower_edge t) }
    requires t_below { T (lt t upper_edge) }
    ensures { result ≡ spec.exp2_fast t }
{
    let k = round_ties_even(t);
    // |r| <= 1/2
    let r = t - k;
    let v = exp2_reduced(r);
    // + 0.0 makes 0 of -0, which has no cast
    let ik = (k + 0.0) as i64;
    // scale by 2^k, and the bound 0x1.1dp-41 on the error too
    pattern_test(scaled(v, ik), scaled(0x3d61_d000_0000_0000, ik))
}
