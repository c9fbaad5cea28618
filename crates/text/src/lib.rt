// Text: the digits of a number and their values, and text put at a place of a list of bytes. What they
// do is defined in specs/Bytes.antt and specs/Digits.antt. Nothing here knows of lines.
#![tactic(auto)]

mod digits;
mod hex;
mod write;

pub use digits::{fill_digits, places};
pub use hex::{from_hex, hex_number};
pub use write::{Decimal, Hex, Text};
