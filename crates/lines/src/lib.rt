// Input lines: what `id=D x=H y=H` says, or why a line is refused. The format is defined in
// specs/Format.antt.
#![tactic(auto)]

mod read;

ghost use Rattle.std.specs.Prelude.{◌≡◌};
ghost use Rattle.lines.specs.Format.{Format, refusal_number};

pub use read::read_line;

// The longest line, in bytes before its feed.
pub const LONGEST: usize = 30;

// The largest id.
pub const LARGEST_ID: u32 = 65535;

// What a line says: the id, and the patterns of x and y.
#[derive(Clone, Copy, Debug, PartialEq, Eq)]
pub struct Pair {
    pub id: u32,
    pub x: u32,
    pub y: u32,
}

// Why a line is refused: the first of these that holds.
#[derive(Clone, Copy, Debug, PartialEq, Eq)]
pub enum Refusal {
    TooLong = 1,
    NoId,
    NoX,
    NoY,
}

// The number of a refusal.
impl From<Refusal> for u32 {
    ghost from_gives = { λ refusal n. n ≡ refusal_number refusal };

    fn from(refusal: Refusal) -> u32 {
        refusal as u32
    }
}

// The format read both ways: every line of it is accepted, and nothing else is. There is nothing to
// run: the contract is the theorem.
pub fn both_ways()
    ensures { Format }
{}
