// The nearest whole value, as `round_ties_even` of pxfm 0.1.30 has it (NOTICE). The source moves the
// digits of the pattern; here the hardware's addition rounds, and the value is the same.
ghost use Rattle.std.specs.Prelude.{◌≡◌, false, T, pos};
ghost use Rattle.std.specs.Float.{fin};
ghost use Rattle.std.specs.Float.Ieee.{lt};
ghost use Rattle.floats.specs.Narrowing.{nearest_whole};
ghost use Rattle.floats.specs.OnBits.{absolute};
ghost use Rattle.floats.specs.Operations.{◌⊕◌};

// The whole f64 nearest to x, ties to even, the sign of zero kept. An infinity and a NaN stay. The
// library's `f64::round_ties_even` has the same values, but takes twice as long, and longer than the
// source's: it makes tests of floats to take the sign off and to put it back.
pub fn round_ties_even(x: f64) -> f64
    ensures { result ≡ nearest_whole x }
{
    if x.is_nan() {
        return x;
    }
    let n = f64::to_bits(x);
    let m = n % 0x8000_0000_0000_0000;
    // from 2^52 up every f64 is whole
    if m >= 0x4330_0000_0000_0000 {
        return x;
    }
    // from 2^52 to 2^53 the f64s are the whole numbers, so the sum is rounded to a whole number
    let w = f64::from_bits(m) + 4503599627370496.0 - 4503599627370496.0;
    // with the sign of x
    f64::from_bits(f64::to_bits(w) + (n - m))
}

// The same for |x| below 2^51, but that its zero is +0: the nearest whole value plus +0. The sum with
// 1.5 * 2^52 is from 2^52 to 2^53 for either sign of x, so that it is rounded to a whole number.
pub fn round_ties_even_small(x: f64) -> f64
    requires { T (lt (absolute x) (fin false 1 (pos 51))) }
    ensures { result ≡ nearest_whole x ⊕ fin false 0 (pos 0) }
{
    x + 6755399441055744.0 - 6755399441055744.0
}
