// The function that Rust and C can call, under the C calling convention: `fade_compoundf`, which packs
// the answer into one number. It has no `requires`. The functions on numbers are exported by
// `part_exports`, and the reader of batch lines by `batch_exports`: with one caller of `f_compoundf` in
// this library, the compiler puts it into `fade_compoundf`.
#![tactic(auto)]

ghost use Rattle.std.specs.Prelude.{◌≡◌};
ghost use Rattle.std.specs.Float.{binary32};
ghost use Rattle.std.specs.Float.Ieee.{of_bits};
ghost use Rattle.compound.specs.Route.{compound};
ghost use Rattle.exports.specs.Packed as spec;

use compound::{Route, f_compoundf};
use std::num::f32_to_bits_with_nan;

// (1 + x)^y for the patterns x and y of two f32: the route's number in the upper half, from 0 in the
// order rule, whole, edge, fast, slow, and the pattern of the answer in the lower half, 7fc00000 for a
// NaN.
#[unsafe(no_mangle)]
pub extern "C" fn fade_compoundf(x: u32, y: u32) -> u64
    ensures { result ≡ spec.packed (compound (of_bits binary32 x) (of_bits binary32 y)) }
{
    f_compoundf(x, y).with(packed)
}

// The route's number in the upper half, and the pattern of the value in the lower.
#[tactic(auto, unfolding(crate::specs::Packed::packed))]
fn packed(via: Route, value: f32) -> u64
    ensures { result ≡ spec.packed (record { via = via; value = value }) }
{
    via as u64 * 0x1_0000_0000 + f32_to_bits_with_nan(value) as u64
}
