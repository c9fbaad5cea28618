// Reading an input line. Each function reads what stands at the front of a text, and answers what
// that says and what follows it.
ghost use Rattle.std.specs.Prelude.{◌≡◌, ◌+◌, length, drop};
ghost use Rattle.std.specs.List.{take_while};
ghost use Rattle.text.specs.Digits.{is_decimal, digits_value};
ghost use Rattle.lines.specs.Fields.{Reads, value_if};
ghost use Rattle.lines.specs.Format.{x_key, y_key, id_digits, is_d, has_id, after_id, hex_digits, has_hex, has_x};
ghost use Rattle.lines.specs.Format.{after_x, has_y, read_line};

use crate::{LARGEST_ID, LONGEST, Pair, Refusal};
use text::from_hex;

// The D at the front, and what follows it. The digits are added up as they are found: where they are
// split off first, a line takes 4 ns more, of some 91. A u64 holds any u32 and a digit more. The library's
// `parse` takes zeros in front and a sign, and no bytes but a `str`.
#[tactic(auto, using(crate::proofs::Ids::d_steps))]
fn read_d(line: &[u8]) -> Option<(u32, &[u8])>
    ensures { let ds = take_while is_decimal line.now in
        Reads (is_d ds) (digits_value 10 ds) (drop (length ds) line.now) result }
{
    let mut n: u64 = 0;
    let mut rest = line;
    while let [digit @ b'0'..=b'9', after @ ..] = rest {
        n = n * 10 + (*digit - b'0') as u64;
        if n > LARGEST_ID as u64 {
            return None;
        }
        rest = after;
    }
    let digits = &line[..line.len() - rest.len()];
    match digits {
        [] | [b'0', _, ..] => None,
        _ => Some((n as u32, rest)),
    }
}

// `id=`, D, a space: D, and what follows these.
#[tactic(auto, using(crate::proofs::Reading::id_steps))]
fn read_id(line: &[u8]) -> Option<(u32, &[u8])>
    ensures { Reads (has_id line.now) (digits_value 10 (id_digits line.now)) (after_id line.now) result }
{
    let (id, end) = read_d(line.strip_prefix(b"id=")?)?;
    Some((id, end.strip_prefix(b" ")?))
}

// A key and H: H, and what follows these.
#[tactic(auto, using(crate::proofs::Reading::hex_steps))]
fn read_hex<'a>(line: &'a [u8], key: &[u8]) -> Option<(u32, &'a [u8])>
    ensures { Reads (has_hex key.now line.now)
        (digits_value 16 (hex_digits key.now line.now)) (drop (length key.now + 8) line.now) result }
{
    let (digits, rest) = line.strip_prefix(key)?.split_first_chunk::<8>()?;
    Some((from_hex(digits)?, rest))
}

// `x=`, H, a space: H, and what follows these.
#[tactic(auto, using(crate::proofs::Reading::x_steps))]
fn read_x(line: &[u8]) -> Option<(u32, &[u8])>
    ensures { Reads (has_x line.now) (digits_value 16 (hex_digits x_key line.now)) (after_x line.now) result }
{
    let (x, end) = read_hex(line, b"x=")?;
    Some((x, end.strip_prefix(b" ")?))
}

// Just `y=`, H: H.
#[tactic(auto, using(crate::proofs::Reading::y_steps))]
fn read_y(line: &[u8]) -> Option<u32>
    ensures { result ≡ value_if (has_y line.now) (digits_value 16 (hex_digits y_key line.now)) }
{
    let (y, rest) = read_hex(line, b"y=")?;
    if rest.is_empty() { Some(y) } else { None }
}

// What a line says, or why it is refused.
#[tactic(auto, using(crate::proofs::Reading::line_steps))]
pub fn read_line(line: &[u8]) -> Result<Pair, Refusal>
    ensures { result ≡ read_line line.now }
{
    if line.len() > LONGEST {
        return Err(Refusal::TooLong);
    }
    let (id, from_x) = read_id(line).ok_or(Refusal::NoId)?;
    let (x, from_y) = read_x(from_x).ok_or(Refusal::NoX)?;
    let y = read_y(from_y).ok_or(Refusal::NoY)?;
    Ok(Pair { id, x, y })
}
