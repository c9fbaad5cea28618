// The functions on numbers that Rust and C can call, under the C calling convention: numbers pass as
// themselves, and a double-double as a C struct of two doubles, lo and hi. Each is one call of a
// function of this repository or of the library, and its result is fixed by its value. There are two
// where there is one for f32 and one for f64, since C has no generics, and operands are parameters, as C
// hands them. None has a `requires`.
// `fade_compoundf` is exported by `exports`.
#![tactic(auto)]

ghost use Rattle.std.specs.Prelude.{◌≡◌};
ghost use Rattle.std.specs.Float.{binary32, binary64};
ghost use Rattle.std.specs.Float.Ieee.{to_bits, of_bits};
ghost use Rattle.floats.specs.Narrowing.{narrowed, nearest_whole};
ghost use Rattle.floats.specs.OnBits.{absolute, is_integer};
ghost use Rattle.double_double.specs.DoubleDouble as spec;

use double_double::DoubleDouble;

// The pattern of an f32; 7fc00000 for a NaN.
#[unsafe(no_mangle)]
pub extern "C" fn fade_to_bits_f32(x: f32) -> u32
    ensures { result ≡ to_bits binary32 x }
{
    std::num::f32_to_bits_with_nan(x)
}

// The f32 of a pattern.
#[unsafe(no_mangle)]
pub extern "C" fn fade_from_bits_f32(n: u32) -> f32
    ensures { result ≡ of_bits binary32 n }
{
    std::num::f32_from_bits_with_nan(n)
}

// The pattern of an f64; 7ff8000000000000 for a NaN.
#[unsafe(no_mangle)]
pub extern "C" fn fade_to_bits_f64(x: f64) -> u64
    ensures { result ≡ to_bits binary64 x }
{
    std::num::f64_to_bits_with_nan(x)
}

// The f64 of a pattern.
#[unsafe(no_mangle)]
pub extern "C" fn fade_from_bits_f64(n: u64) -> f64
    ensures { result ≡ of_bits binary64 n }
{
    std::num::f64_from_bits_with_nan(n)
}

// The f64 of the same value.
#[unsafe(no_mangle)]
pub extern "C" fn fade_widen(x: f32) -> f64
    ensures { result ≡ x }
{
    std::num::f32_to_f64_with_nan(x)
}

// The nearest f32, ties to even.
#[unsafe(no_mangle)]
pub extern "C" fn fade_narrow(x: f64) -> f32
    ensures { result ≡ narrowed x }
{
    floats::narrowing::narrow(x)
}

// The nearest whole f64, ties to even.
#[unsafe(no_mangle)]
pub extern "C" fn fade_round_ties_even(x: f64) -> f64
    ensures { result ≡ nearest_whole x }
{
    floats::rounding::round_ties_even(x)
}

// Whether the f32 of the pattern n is a whole number.
#[unsafe(no_mangle)]
pub extern "C" fn fade_is_integerf(n: u32) -> bool
    ensures { result ≡ is_integer (of_bits binary32 n) }
{
    floats::common::is_integerf(n)
}

// |x| of an f32.
#[unsafe(no_mangle)]
#[tactic(auto, using(floats::proofs::Laws::Magnitude::sign_off))]
pub extern "C" fn fade_absf(x: f32) -> f32
    ensures { result ≡ absolute x }
{
    f32::abs(x)
}

// |x| of an f64.
#[unsafe(no_mangle)]
#[tactic(auto, using(floats::proofs::Laws::Magnitude::sign_off))]
pub extern "C" fn fade_abs(x: f64) -> f64
    ensures { result ≡ absolute x }
{
    f64::abs(x)
}

// a in two parts.
#[unsafe(no_mangle)]
pub extern "C" fn fade_split(a: f64) -> DoubleDouble
    ensures { result ≡ spec.split a }
{
    DoubleDouble::split(a)
}

// a * b and its error, which is exact where nothing overflows or underflows; that it is exact is
// not proved here.
#[unsafe(no_mangle)]
pub extern "C" fn fade_from_exact_mult(a: f64, b: f64) -> DoubleDouble
    ensures { result ≡ spec.from_exact_mult a b }
{
    DoubleDouble::from_exact_mult(a, b)
}

// a + b and its error, which is exact for |a| >= |b| where nothing overflows; that it is exact is
// not proved here.
#[unsafe(no_mangle)]
pub extern "C" fn fade_from_exact_add(a: f64, b: f64) -> DoubleDouble
    ensures { result ≡ spec.from_exact_add a b }
{
    DoubleDouble::from_exact_add(a, b)
}

// a + b and its error, which is exact in whichever order of size where nothing overflows; that it is
// exact is not proved here.
#[unsafe(no_mangle)]
pub extern "C" fn fade_from_full_exact_add(a: f64, b: f64) -> DoubleDouble
    ensures { result ≡ spec.from_full_exact_add a b }
{
    DoubleDouble::from_full_exact_add(a, b)
}

// The product of two double-doubles.
#[unsafe(no_mangle)]
pub extern "C" fn fade_quick_mult(a: DoubleDouble, b: DoubleDouble) -> DoubleDouble
    ensures { result ≡ spec.quick_mult a b }
{
    DoubleDouble::quick_mult(a, b)
}

// The product of a double-double and an f64.
#[unsafe(no_mangle)]
pub extern "C" fn fade_quick_mult_f64(a: DoubleDouble, b: f64) -> DoubleDouble
    ensures { result ≡ spec.quick_mult_f64 a b }
{
    DoubleDouble::quick_mult_f64(a, b)
}

// The sum of a double-double and an f64.
#[unsafe(no_mangle)]
pub extern "C" fn fade_full_add_f64(a: DoubleDouble, b: f64) -> DoubleDouble
    ensures { result ≡ spec.full_add_f64 a b }
{
    DoubleDouble::full_add_f64(a, b)
}

// a * b + c, rounded at the end.
#[unsafe(no_mangle)]
pub extern "C" fn fade_dd_fmla(a: f64, b: f64, c: f64) -> f64
    ensures { result ≡ spec.dd_fmla a b c }
{
    double_double::dd_fmla(a, b, c)
}
