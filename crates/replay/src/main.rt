// Replays a list of pairs. A line of standard input has two patterns of f32, eight hexadecimal digits
// each, with a space between; it is written again with the answer's pattern and its route. The list
// and what must be written are made from the Rust (oracle/README.md).
#![tactic(auto)]

ghost use Rattle.std.specs.Prelude.{◌<◌};

use std::io;
use std::io::{ErrorKind, Read};
use std::num::f32_to_bits_with_nan;

// How many lines are read at most. A loop has to end, so they are counted.
const LINES: u32 = 100_000;

// The value of a hexadecimal digit; another byte counts as 0. By hand, since the library's
// `to_digit` takes capital letters too, and `from_hex` of `text` refuses all eight for one that is
// no digit: with either, this program would print another line for such a byte than it does.
fn digit(b: u8) -> u32
    ensures { result < 16 }
{
    match b {
        b'0'..=b'9' => u32::from(b - b'0'),
        b'a'..=b'f' => u32::from(b - b'a' + 10),
        _ => 0,
    }
}

// The pattern of eight hexadecimal digits.
fn pattern_of_digits(digits: &[u8]) -> u32 {
    digits
        .iter()
        .fold(0, |n, b| n % 0x1000_0000 * 16 + digit(*b))
}

// Writes the line again, with its answer. The two patterns are those of `f_compoundf`.
fn replay(rt: &impl Print, nx: u32, ny: u32) -> io::Result<()> {
    let answer = compound::f_compoundf(nx, ny);
    let bits = f32_to_bits_with_nan(answer.value());
    let via = answer.route().word();
    println!(rt; "{nx:08x} {ny:08x} {bits:08x} {via}")
}

// Reads up to the end; a last line that is cut off is left out.
fn main(rt: HostRuntime) -> io::Result<()> {
    let mut input = rt.stdin();
    for _ in 0..LINES {
        let mut line = [0u8; 18];
        match input.read_exact(&mut line) {
            Ok(()) => replay(
                &rt,
                pattern_of_digits(&line[..8]),
                pattern_of_digits(&line[9..17]),
            )?,
            Err(e) if e.kind() == ErrorKind::UnexpectedEof => return Ok(()),
            Err(e) => return Err(e),
        }
    }
    Ok(())
}
