// The test for a whole number that pxfm 0.1.30 has in `common.rs` (NOTICE), worked out on bits, and the
// test for a range about 0.
ghost use Rattle.std.specs.Prelude.{◌≡◌, from_bits};
ghost use Rattle.std.specs.Float.{binary32};
ghost use Rattle.floats.specs.OnBits.{is_integer, within};

// Whether the f32 of the pattern n is a whole number. As in the source a zero does not count as
// one, and an infinity and a NaN do.
#[tactic(auto, using(crate::proofs::Laws::Integer::integer_of_bits))]
pub fn is_integerf(n: u32) -> bool
    ensures { result ≡ is_integer (from_bits binary32 n) }
{
    let x_e = n / 0x80_0000 % 256;
    // the digits below the leading one, with a one in its place, so that there are at most 23 zeros
    let lsb = u32::trailing_zeros(n % 0x80_0000 + 0x80_0000);
    x_e + lsb >= 150
}

// Whether x is from -limit to limit. A NaN is not. Both tests are made, with no branch between them.
pub fn is_within(x: f64, limit: f64) -> bool
    ensures { result ≡ within limit x }
{
    (x <= limit) & (x >= -limit)
}
