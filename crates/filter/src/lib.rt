// The filter in front of the fast path: logarithm and power of two in plain f64s, and what they settle.
// Where the plain value is further from every midpoint of two f32s, and from every switch of k and of
// the index, than it can be from the fast path's own, it settles that the rounding test passes and what
// the answer is; where t is next to 0 and the value next to a midpoint, that the test fails; where t is
// clear of the edges it settles the route. Elsewhere nothing is found, and the fast path runs as
// written. How far the two can be from each other is a theorem (proofs/Logarithm.antt,
// proofs/Power.antt, proofs/Near.antt).
#![tactic(auto)]

ghost use Rattle.std.specs.Prelude.{◌≡◌, ◌*◌, ◌^◌, ◌<◌, ◌≤◌, T};
ghost use Rattle.std.specs.Float.Ieee.Scale.{finite};
ghost use Rattle.floats.specs.Operations.{◌⊗◌};
ghost use Rattle.fast_path.specs.Fast.{compoundf_log2p1_fast};
ghost use Rattle.filter.specs.Plain as spec;
ghost use Rattle.filter.specs.Right.{Right};

use crate::midpoints::{clear_of_midpoints, narrowed_pattern};
use crate::plain::Plain;
use crate::reduction::{Reduction, clear_of_index};
use fast_path::evaluation::{log2p1, power};
use floats::common::is_within;
use special::operands::Operands;

pub mod midpoints;
pub mod plain;
pub mod reduction;

// A pattern that is further than this from every midpoint of two f32s settles the answer.
const FAST_MARGIN: u64 = 0x10_8000;

// One that is at most as far as this from a midpoint, and next to 1, settles that the rounding test
// fails.
const NEARNESS: u64 = 0x800;

// 2^-14: the power of a t of at most this size is next to 1.
const FAST_NEXT_TO: f64 = f64::from_bits(0x3f10_0000_0000_0000);

// 2^-30: further than this from a switch of k or of the index, the fast path's own t is on the same side
// of it.
const FAST_SWITCH_GAP: f64 = f64::from_bits(0x3e10_0000_0000_0000);

// A t below 2^-300 in size is tiny.
const TINY_T_END: f64 = f64::from_bits(0x2d30_0000_0000_0000);

// From and to these, the power is near that of t.
const MIDDLE_FROM: f64 = -124.0;

const MIDDLE_TO: f64 = 124.0;

// At most this, the plain t says that t is at the lower edge.
const PLAIN_LOWER_EDGE: f64 = -151.0;

// From and to these, the value is below the normal f32s.
const BELOW_NORMAL_FROM: f64 = -149.5;

const BELOW_NORMAL_TO: f64 = -128.0;

// At least this, it says that t is at the upper edge.
const PLAIN_UPPER_EDGE: f64 = 129.0;

// What is found of a pair: the fast answer; that the fast path fails its tests, so that the answer is
// the slow one; that t is at the lower edge, at the upper edge, or so small that the answer is 1.
#[derive(Clone, Copy)]
pub enum Found {
    Fast(f32),
    Slow,
    Low,
    High,
    One,
}

// Slow, where the scaled pattern w is at most 2^11 from a midpoint of two f32s, and |t| is at most 2^-14.
// There the fast path's pattern is at most 64 from w, and its bound on the error is 2280 last places or
// more, so that the midpoint is between its two bounds. The range of w is asked for here, in the next
// function and in two of `midpoints`: a type for it would be made for one call, and taken apart in the
// next.
#[tactic(auto, unfolding(crate::specs::Plain::near_midpoint))]
fn near_midpoint(t: f64, w: u64) -> Option<Found>
    requires { w < 1148 * 2 ^ 52 }
    ensures { result ≡ spec.near_midpoint t w }
{
    (is_within(t, FAST_NEXT_TO) & !clear_of_midpoints(w, NEARNESS)).then_some(Found::Slow)
}

// The answer of the scaled pattern w, where no midpoint of two f32s is within 2^20 + 2^15 of it.
#[tactic(auto, unfolding(crate::specs::Plain::rounded_pattern))]
fn rounded_pattern(t: f64, w: u64) -> Option<Found>
    requires w_least { 898 * 2 ^ 52 ≤ w }
    requires w_below { w < 1148 * 2 ^ 52 }
    ensures { result ≡ spec.rounded_pattern t w }
{
    match narrowed_pattern(w, FAST_MARGIN) {
        Some(v) => Some(Found::Fast(v)),
        None => near_midpoint(t, w),
    }
}

// For t from -124 to 124 that is not tiny, in two steps: the nearest whole number, and the nearest 32nd
// to what is left.
#[tactic(auto, using(crate::proofs::Middle::two_steps), unfolding(crate::specs::Plain::middle_found))]
fn in_two_steps(t: f64) -> Option<Found>
    requires { spec.Middle t }
    ensures { result ≡ spec.middle_found t }
{
    rounded_pattern(t, Reduction::of(t).pattern(FAST_SWITCH_GAP)?)
}

// The same in one step, where the nearest 32nd is not halfway between two whole numbers and no switch of
// the index is near.
#[tactic(auto, using(crate::proofs::OneStep::at_once), unfolding(crate::specs::Plain::middle_found))]
fn middle_found(t: f64) -> Option<Found>
    requires { spec.Middle t }
    ensures { result ≡ spec.middle_found t }
{
    // 1.5 * 2^47, so that the sum is rounded to a whole number of 32nds, and its pattern ends in them
    let sum = 211106232532992.0 + t;
    let rest = t - (sum - 211106232532992.0);
    // with 16 more they are 32 * k and the index
    let n = f64::to_bits(sum) + 16;
    let i = n % 32;
    if (i > 0) & clear_of_index(rest, FAST_SWITCH_GAP) {
        let power = power::<Plain>(i, rest);
        let field = n / 32 % 0x1000 * 0x10_0000_0000_0000;
        rounded_pattern(t, power.wrapping_add(field))
    } else {
        in_two_steps(t)
    }
}

// Whether t is from -149.5 to -128, where 2^t is below the normal f32s.
#[tactic(auto, using(crate::proofs::Limits::edges))]
pub fn is_below_normal(t: f64) -> bool
    ensures { result ≡ spec.is_below_normal t }
{
    (t <= BELOW_NORMAL_TO) & (t >= BELOW_NORMAL_FROM)
}

// For t below -124.
#[tactic(auto, using(crate::proofs::Limits::edges), unfolding(crate::specs::Plain::low_found))]
fn low_found(t: f64) -> Option<Found>
    ensures { result ≡ spec.low_found t }
{
    if t <= PLAIN_LOWER_EDGE {
        Some(Found::Low)
    } else {
        is_below_normal(t).then_some(Found::Slow)
    }
}

// For t above 124.
#[tactic(auto, using(crate::proofs::Limits::edges), unfolding(crate::specs::Plain::high_found))]
fn high_found(t: f64) -> Option<Found>
    ensures { result ≡ spec.high_found t }
{
    (t >= PLAIN_UPPER_EDGE).then_some(Found::High)
}

// For |t| below 2^-300.
#[tactic(auto, unfolding(crate::specs::Plain::tiny_found))]
fn tiny_found(t: f64) -> Option<Found>
    ensures { result ≡ spec.tiny_found t }
{
    (t == 0.0).then_some(Found::One)
}

// Whether |t| is below 2^-300.
#[tactic(auto, unfolding(crate::specs::Plain::is_tiny_t))]
fn is_tiny_t(t: f64) -> bool
    ensures { result ≡ spec.is_tiny_t t }
{
    (t > -TINY_T_END) & (t < TINY_T_END)
}

// For the t of the plain logarithm.
#[tactic(auto, using(crate::proofs::Middle::ends), unfolding(crate::specs::Plain::plain_found))]
fn plain_found(t: f64) -> Option<Found>
    requires { T (finite t) }
    ensures { result ≡ spec.plain_found t }
{
    if t < MIDDLE_FROM {
        low_found(t)
    } else if t > MIDDLE_TO {
        high_found(t)
    } else if is_tiny_t(t) {
        tiny_found(t)
    } else {
        middle_found(t)
    }
}

// What is found of x and y: the definition's, and right of the fast path's own t.
#[tactic(auto, using(crate::proofs::Settled::filtered))]
pub fn filtered(pair: Operands) -> Option<Found>
    ensures found { result ≡ spec.filtered pair.x pair.y }
    ensures right { Right result (compoundf_log2p1_fast pair.x ⊗ pair.y) }
{
    let l = log2p1::<Plain>(pair.x);
    plain_found(l * pair.y)
}
