// Narrowing f64 to f32. The language's `as` is defined only where it loses nothing, so narrowing is
// worked out from the bits.
ghost use Rattle.std.specs.Prelude.{◌≡◌, ◌≤◌, not, T, from_bits, is_nan, to_bits};
ghost use Rattle.std.specs.Float.{binary32, binary64};
ghost use Rattle.floats.specs.Narrowing.{narrowed, NearestF32Ends};
ghost use Rattle.floats.specs.SubnormalSum.{subnormal_sum};

// 2^-97, and its pattern.
const OFFSET: f64 = f64::from_bits(OFFSET_BITS);

pub const OFFSET_BITS: u64 = 0x39e0_0000_0000_0000;

// The nearest f32, ties to even, with subnormals, overflow to infinity and the sign of zero kept. A
// NaN gives the NaN. `std::num::nearest_f64_to_f32_with_nan` has the same values, but finds the digits by
// shifts, with branches on the size: with it whole exponents take 1.38 of the Rust's time, and they are to
// take 0.9 at most.
pub fn narrow(x: f64) -> f32
    ensures { result ≡ narrowed x }
{
    if x.is_nan() {
        f32::NAN
    } else {
        narrow_number(x)
    }
}

// The same of an x that is no NaN, with no branch: the size of x could not be foreseen. That x is no NaN
// is asked for here and in two functions of `whole`, and no type says it: it would have to be made anew
// of the result of each operation on floats.
pub fn narrow_number(x: f64) -> f32
    requires { T (not (is_nan x)) }
    ensures { result ≡ narrowed x }
{
    let n = f64::to_bits(x);
    let p = narrow_magnitude(n % 0x8000_0000_0000_0000);
    f32::from_bits((n / 0x8000_0000_0000_0000 * 0x8000_0000 + p) as u32)
}

// The pattern of the sum of 2^-97 and the f64 of the pattern m. The last place of an f64 from 2^-97 to
// 2^-96 is 2^-149, and so is that of an f32 below 2^-126: for an m below 2^-126 the sum is rounded where
// the f32 is, and its pattern less that of 2^-97 is the f32's.
#[tactic(auto, unfolding(crate::specs::SubnormalSum::subnormal_sum))]
pub fn subnormal_sum(m: u64) -> u64
    requires { m ≤ 0x7ff0_0000_0000_0000 }
    ensures { result ≡ subnormal_sum m }
{
    f64::to_bits(f64::from_bits(m) + OFFSET)
}

// The pattern of the narrowed value, for the pattern m of an f64 that is no NaN and whose sign is
// clear. Two patterns are worked out, one for values below 2^-126 and one for those from it up, and
// the right one is taken: both are whole before the test, so that the compiler makes no branch of it.
fn narrow_magnitude(m: u64) -> u64
    requires { m ≤ 0x7ff0_0000_0000_0000 }
    ensures { result ≡ to_bits binary32 (narrowed (from_bits binary64 m)) }
{
    let low = subnormal_sum(m).wrapping_sub(OFFSET_BITS);
    // Of the 52 digits 23 are kept: add half a last place less one, and one more if the last kept
    // digit is odd, and cut. A carry runs into the exponent's field, which is less by 896.
    let kept = (m + 0xfff_ffff + m / 0x2000_0000 % 2) / 0x2000_0000;
    // From 2^128 up it is the infinity.
    let high = kept.wrapping_sub(0x1_c000_0000).min(0x7f80_0000);
    if m < 0x3810_0000_0000_0000 { low } else { high }
}

// The nearest f32 to a positive fraction: from 2^128 - 2^103 up it is infinity, and below that it is
// finite. There is nothing to run: the contract is the theorem.
#[tactic(auto, using(crate::proofs::Laws::Overflow::nearest_f32_ends))]
pub fn nearest_f32_ends()
    ensures { NearestF32Ends }
{}
