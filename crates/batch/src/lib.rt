// The reader of batch lines: a state that carries an unfinished line and the totals from one piece of
// input to the next. `feed` takes a piece and writes the answer lines of the lines that it completes;
// `close` says whether the input ended with a whole line. What they do is defined in specs/Feed.antt,
// and what a series of feeds comes to in specs/Series.antt.
#![tactic(auto)]

mod pieces;

ghost use Rattle.std.specs.Prelude.{◌≡◌, MatchResult};
ghost use Rattle.batch.specs.Feed.{FeedEffect, feed_number, closed, close_number};
ghost use Rattle.batch.specs.Series.{EverySeries, Possible};
ghost use Rattle.batch.specs.Example.{Example, EachAnswer};

pub use piece::{ANSWER_GROWTH, MOST_LINES};
use piece::{Taken, is_short, take_piece, too_many};
use state::Reader;
pub use state::{OVER_LONG, State, Tail, Tallies};
pub use totals::{TOTALS, write_totals};

// Why feed takes nothing, with the numbers of the causes: it tries them in this order.
#[derive(Clone, Copy, Debug, PartialEq, Eq)]
pub enum Refused {
    Broken = 5,
    TooManyLines = 6,
    NoRoom = 7,
}

// The state after a feed, and its answer: how many bytes it wrote, or why it took nothing.
#[derive(Clone, Copy)]
pub struct Fed {
    pub state: State,
    pub verdict: Result<usize, Refused>,
}

// Why the input may not end, with the numbers of the causes: close tries them in this order.
#[derive(Clone, Copy, Debug, PartialEq, Eq)]
pub enum NotClosed {
    BrokenState = 5,
    Unfinished = 8,
}

// Takes a piece of input, and writes the answer lines of the lines whose line feed lies in it to the
// front of `out`. Where it refuses, state and output stay as they were.
pub fn feed(state: State, piece: &[u8], out: &mut [u8]) -> Fed
    ensures { FeedEffect state piece.now out.old result out.new }
{
    match try_take(state, piece, out) {
        Ok(taken) => Fed {
            state: taken.state,
            verdict: Ok(taken.wrote),
        },
        Err(refused) => Fed {
            state,
            verdict: Err(refused),
        },
    }
}

// The work: takes the piece, unless there is a cause to refuse it. State, piece and output are three
// parameters, here and in `feed`, as C hands them.
#[tactic(auto, unfolding(crate::specs::Feed::verdict, piece::specs::Piece::added, text::specs::Bytes::put))]
fn try_take(state: State, piece: &[u8], out: &mut [u8]) -> Result<Taken, Refused>
    ensures { MatchResult result
        (λ taken. FeedEffect state piece.now out.old (record { state = taken.state; verdict = Ok taken.wrote }) out.new)
        (λ refused. FeedEffect state piece.now out.old (record { state = state; verdict = Err refused }) out.new) }
{
    let reader = Reader::of(state).ok_or(Refused::Broken)?;
    if too_many(reader.lines(), piece) {
        return Err(Refused::TooManyLines);
    }
    if is_short(reader.held(), piece, out.len()) {
        return Err(Refused::NoRoom);
    }
    Ok(take_piece(reader, piece, out))
}

// The number of a feed's answer: 5 to 7 for a refusal, 0 for an accepted feed. Rust and C are handed it.
// `close_number` has the same body for another error: one function of both would need a trait with the
// equation of each.
pub fn feed_number(verdict: Result<usize, Refused>) -> u32
    ensures { result ≡ feed_number verdict }
{
    match verdict {
        Ok(_) => 0,
        Err(refused) => refused as u32,
    }
}

// Whether the input may end here. The state stays as it is.
pub fn close(state: State) -> Result<(), NotClosed>
    ensures { result ≡ closed state }
{
    if state.is_broken() {
        return Err(NotClosed::BrokenState);
    }
    if state.tail.count == 0 {
        Ok(())
    } else {
        Err(NotClosed::Unfinished)
    }
}

// The number of a close's answer: 5 or 8 for a refusal, 0 for an accepted close. Rust and C are handed
// it.
pub fn close_number(closed: Result<(), NotClosed>) -> u32
    ensures { result ≡ close_number closed }
{
    match closed {
        Ok(()) => 0,
        Err(cause) => cause as u32,
    }
}

// Demand 3: what every list of feed calls from a fresh state comes to. There is nothing to run: the
// contract is the theorem, and it speaks of calls that do what `feed` says of itself.
pub fn every_series()
    ensures always { EverySeries FeedEffect }
    ensures possible { Possible FeedEffect }
{}

// The example of document 01, all three lines; and that feed and close can come to each of their answers.
// There is nothing to run: both are computed from the definitions.
pub fn examples()
    ensures example { Example }
    ensures each_answer { EachAnswer }
{}
