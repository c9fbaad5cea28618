// Widening by the pattern.
ghost use Rattle.std.specs.Prelude.{◌≡◌, from_bits};
ghost use Rattle.std.specs.Float.{binary32};

// The f64 with the value of the f32 of the pattern n; every NaN pattern gives the NaN.
pub fn widen_bits(n: u32) -> f64
    ensures { result ≡ from_bits binary32 n }
{
    std::num::f32_to_f64_with_nan(std::num::f32_from_bits_with_nan(n))
}
