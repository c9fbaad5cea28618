// The filter in front of the slow path: where the answer is below the normal f32s or next to 1, and the
// plain value is further from every midpoint of two f32s, and from every switch of k and of the index,
// than it can be from the slow path's own, it is the answer. Elsewhere the slow path runs as written.
#![tactic(auto)]

ghost use Rattle.std.specs.Prelude.{◌≡◌, ◌*◌, ◌^◌, ◌≤◌, ◌<◌, T};
ghost use Rattle.std.specs.Float.{binary32};
ghost use Rattle.std.specs.Float.Ieee.{fits, le, lt};
ghost use Rattle.std.specs.Float.Ieee.Scale.{finite};
ghost use Rattle.floats.specs.OnBits.{absolute};
ghost use Rattle.special.specs.Special.{minus_one};
ghost use Rattle.slow_path.specs.Slow.{compoundf_accurate};
ghost use Rattle.filter.specs.Plain.{below_normal_from, below_normal_to};
ghost use Rattle.slow_filter.specs.Subnormal as spec;
ghost use Rattle.slow_filter.specs.NearOne as near;
ghost use Rattle.slow_filter.specs.PlainSlow as plain;

use fast_path::evaluation::{factor, log2p1};
use filter::is_below_normal;
use filter::midpoints::narrowed_pattern;
use filter::plain::Plain;
use filter::reduction::Reduction;
use floats::narrowing::{OFFSET_BITS, subnormal_sum};
use slow_path::compoundf_accurate;
use special::operands::{Base, Operands};
use tables::{PolyQ2, Table};

// 2^-27: further than this from a switch of k or of the index, the slow path's own t is on the same side
// of it.
const SLOW_SWITCH_GAP: f64 = f64::from_bits(0x3e40_0000_0000_0000);

// A pattern next to 1 that is further than this from every midpoint of two f32s settles the answer.
const NEAR_ONE_MARGIN: u64 = 8;

// 2^-29: below, 1 + x does not keep x.
const KEPT_FROM: f64 = f64::from_bits(0x3e20_0000_0000_0000);

// 2^-25 and 2^-16: a t of such a size is next to 1.
const SLOW_NEXT_FROM: f64 = f64::from_bits(0x3e60_0000_0000_0000);

const SLOW_NEXT_TO: f64 = f64::from_bits(0x3ef0_0000_0000_0000);

// The answer of the scaled pattern w, from 2^-151 to 2^-126, where no midpoint of two f32s is within 2^25
// of it.
#[tactic(auto, unfolding(crate::specs::Subnormal::rounded_subnormal))]
fn rounded_subnormal(w: u64) -> Option<f32>
    requires w_least { 872 * 2 ^ 52 ≤ w }
    requires w_below { w < 897 * 2 ^ 52 }
    ensures { result ≡ spec.rounded_subnormal w }
{
    let low = subnormal_sum(w - 0x200_0000);
    let high = subnormal_sum(w + 0x200_0000);
    if low == high {
        Some(f32::from_bits((low - OFFSET_BITS) as u32))
    } else {
        None
    }
}

// For t from -149.5 to -128.
#[tactic(auto, using(crate::proofs::SubnormalPower::steps), unfolding(crate::specs::PlainSlow::subnormal_power))]
fn subnormal_power(t: f64) -> Option<f32>
    requires t_most { T (le t below_normal_to) }
    requires t_least { T (le below_normal_from t) }
    ensures { result ≡ plain.subnormal_power t }
{
    rounded_subnormal(Reduction::of(t).pattern(SLOW_SWITCH_GAP)?)
}

// Near 2^z for |z| <= 2^-16.
#[tactic(auto, unfolding(crate::specs::NearOne::near_one_power))]
fn near_one_power(z: f64) -> f64
    ensures { result ≡ near.near_one_power z }
{
    let c2 = PolyQ2::at(3) + PolyQ2::at(5) * z;
    let c1 = PolyQ2::at(1) + c2 * z;
    PolyQ2::at(0) + c1 * z
}

// For |t| at most 2^-16.
#[tactic(auto, unfolding(crate::specs::NearOne::near_one_found))]
fn near_one_found(t: f64) -> Option<f32>
    requires { T (le (absolute t) plain.slow_next_to) }
    ensures { result ≡ near.near_one_found t }
{
    narrowed_pattern(f64::to_bits(near_one_power(t)), NEAR_ONE_MARGIN)
}

// The plain logarithm of 1 + x.
fn plain_log(base: Base) -> f64
    ensures { result ≡ plain.plain_log base.x }
{
    let x = base.x;
    if x.abs() >= KEPT_FROM {
        log2p1::<Plain>(x)
    } else {
        x * factor::<Plain>(x)
    }
}

// Whether the plain evaluation is near enough below the normal f32s.
fn in_reach(y: f64, t: f64) -> bool
    ensures { result ≡ plain.in_reach y t }
{
    (y != 1.0) & is_below_normal(t)
}

// And next to 1.
fn next_to_one(y: f64, t: f64) -> bool
    ensures { result ≡ plain.next_to_one y t }
{
    let size = t.abs();
    let between = (size <= SLOW_NEXT_TO) & (size >= SLOW_NEXT_FROM);
    (y != 1.0) & between
}

// What the plain evaluation finds of x and y.
#[tactic(auto, unfolding(crate::specs::PlainSlow::plain_slow, crate::specs::PlainSlow::next_to_one))]
fn plain_slow(pair: Operands) -> Option<f32>
    ensures { result ≡ plain.plain_slow pair.x pair.y }
{
    let t = plain_log(pair.base()) * pair.y;
    if in_reach(pair.y, t) {
        subnormal_power(t)
    } else if next_to_one(pair.y, t) {
        near_one_found(t)
    } else {
        None
    }
}

// (1 + x)^y for the route `slow`, as `compoundf_accurate` has it.
pub fn slow_answer(pair: Operands) -> f32
    ensures { result ≡ compoundf_accurate pair.x pair.y }
{
    plain_slow(pair).unwrap_or_else(|| compoundf_accurate(pair.base(), pair.y))
}
