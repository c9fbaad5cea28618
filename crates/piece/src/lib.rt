// One piece of input: whether its lines can be counted, whether their answers have room, and the lines
// answered one after another, each counted. What a piece adds is defined in specs/Piece.antt.
#![tactic(auto)]

mod answer;
mod measure;
mod piece_replies;
mod tally;

ghost use Rattle.piece.specs.Tally.{EachTally};

pub use answer::take_piece;
pub use measure::{is_short, too_many};
use state::State;

// The most lines that are counted. Several functions ask that these are not passed, each of what it
// still has to count: a type for each would be made for one call.
pub const MOST_LINES: u32 = 0xffff_ffff;

// An answer line is at most so many bytes longer than its line, each with its line feed.
pub const ANSWER_GROWTH: usize = 5;

// What taking a piece gives: the state after it, and how many bytes were written. `Fed` of `batch` has the
// answer of a feed in the place of that number, which may be a refusal.
#[derive(Clone, Copy)]
pub struct Taken {
    pub state: State,
    pub wrote: usize,
}

// A line of each route counts in the tally of its name, and a bad one in `bad`. There is nothing to run:
// it is computed from the definition.
pub fn each_tally()
    ensures { EachTally }
{}
