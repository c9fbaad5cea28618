// The digits of a number.
ghost use Rattle.std.specs.Prelude.{◌≡◌, ◌≤◌, ◌<◌, length};
ghost use Rattle.text.specs.Digits.{glyph as Digits·glyph, digits as Digits·digits, places as Digits·places};

// The ASCII code of a digit.
#[tactic(auto, unfolding(crate::specs::Digits::glyph))]
fn glyph(d: u32) -> u8
    requires { d < 16 }
    ensures { result ≡ Digits·glyph d }
{
    b"0123456789abcdef"[d as usize]
}

// How many decimal digits n has.
#[tactic(auto, using(crate::proofs::Numerals::places_by_log))]
pub fn places(n: u32) -> usize
    ensures { result ≡ Digits·places 9 n }
{
    n.checked_ilog10().unwrap_or(0) as usize + 1
}

// Fills `out` with the last digits of n in a base. Its places are counted, since of `iter_mut().rev()` a
// proof does not know what it wrote.
#[tactic(auto, using(crate::proofs::Put::digit_steps))]
pub fn fill_digits(n: u32, base: u32, out: &mut [u8])
    requires base_above_one { 1 < base }
    requires base_most { base ≤ 16 }
    ensures { out.new ≡ Digits·digits base (length out.old) n }
{
    let mut rest = n;
    for i in (0..out.len()).rev() {
        out[i] = glyph(rest % base);
        rest /= base;
    }
}
