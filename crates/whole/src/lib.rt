// The route `whole`, from `f_compoundf` of pxfm 0.1.30 (NOTICE): y is whole and at most 16 in size,
// and 1 + x is multiplied out in f64. x and y are two parameters, as in the source.
#![tactic(auto)]

ghost use Rattle.std.specs.Prelude.{◌≡◌, ◌%◌, ◌^◌, ◌<◌, ◌≤◌, true, not, T, if◌then◌else◌, from_bits, is_nan, nat_eq};
ghost use Rattle.std.specs.Prelude.{nat_le, to_bits};
ghost use Rattle.std.specs.Float.{binary32, binary64};
ghost use Rattle.floats.specs.Narrowing.{narrowed};
ghost use Rattle.special.specs.Special.{one};
ghost use Rattle.whole.specs.Whole as spec;

use floats::common::is_integerf;
use floats::narrowing::narrow_number;

// Whether x and y take this route, by their patterns: y is whole, at most 16 in size, and x is below
// 2^64 in size. The tests are counted, so that there is one branch on all three: joined by `&` they are
// compiled to three, and pairs of all routes take 3 % longer.
pub fn is_whole(nx: u32, ny: u32) -> bool
    ensures { result ≡ spec.is_whole (from_bits binary32 nx) (from_bits binary32 ny) }
{
    let small_y = ny % 0x8000_0000 <= 0x4180_0000;
    let small_x = nx % 0x8000_0000 < 0x5f80_0000;
    is_integerf(ny) as u32 + small_y as u32 + small_x as u32 == 3
}

// The pattern of 1.
const ONE: u64 = 0x3ff0_0000_0000_0000;

// s where n is odd, and 1 where it is even. The patterns are reckoned with: of an `if` the compiler
// makes a branch on the bits of n, which could not be foreseen.
fn turn_factor(s: f64, n: u32) -> f64
    requires { T (not (is_nan s)) }
    ensures { result ≡ (if nat_eq (n % 2) 1 then s else one) }
{
    let more = f64::to_bits(s).wrapping_sub(ONE);
    let chosen = more * (n % 2) as u64;
    f64::from_bits(ONE.wrapping_add(chosen))
}

// s to the n-th power, for n up to 16: s is squared along the bits of n. The source goes on while a
// bit is left; here the turns are counted, and those past the last bit multiply by 1. With a branch on
// the bits whole exponents take 35 % longer, and then more than nine tenths of the Rust's time.
fn whole_power(s: f64, n: u32) -> f64
    requires { T (not (is_nan s)) }
    ensures { result ≡ spec.whole_power s n }
{
    let mut square = s;
    let mut left = n;
    let mut acc = turn_factor(s, n);
    for turn in 0..4u32 {
        left = left / 2;
        square = square * square;
        acc = acc * turn_factor(square, left);
    }
    acc
}

// The answer of the route `whole`. For |x| up to 2^-29 it is 1.0 + y * x, which is always 1: the power
// of 1 + x whose exponent is 0, so that there is no branch on x; nor is there one on the sign of y.
pub fn whole(x: f32, y: f32) -> f32
    requires { spec.is_whole x y ≡ true }
    ensures { result ≡ spec.whole x y }
{
    let tiny = (f32::to_bits(x) % 0x8000_0000 <= 0x3100_0000) as u32;
    let ny = f32::to_bits(y);
    let n = y.abs() as u32;
    let acc = whole_power(x as f64 + 1.0, n * (1 - tiny));
    // acc / 1, or 1 / acc where y is below 0
    let below = ny / 0x8000_0000;
    narrow_number(turn_factor(acc, 1 - below) / turn_factor(acc, below))
}
