// The reader of batch lines for Rust and C, under the C calling convention: numbers pass as
// themselves, a slice as a pointer and a length, a lent array as a pointer to its first byte, and the
// reader's state by value, as a C struct. `fade_feed`, `fade_close` and `fade_write_totals` are functions
// of `batch`, with the answer as numbers where that is a Result, and `fade_fresh` is `State::fresh`. None
// has a `requires`.
#![tactic(auto)]

ghost use Rattle.std.specs.Prelude.{◌≡◌, ◌++◌, length};
ghost use Rattle.text.specs.Bytes.{put};
ghost use Rattle.state.specs.Holding.{fresh};
ghost use Rattle.batch.specs.Feed.{fed, verdict, out_after, closed, close_number};
ghost use Rattle.totals.specs.Totals.{totals, end_line};
ghost use Rattle.batch_exports.specs.Handed.{handed};

use batch::{State, TOTALS};

// What a feed hands to Rust and C: the state, the number of a refusal or 0, and how many bytes were
// written.
#[repr(C)]
#[derive(Drop)]
pub struct Handed {
    pub state: State,
    pub number: u32,
    pub wrote: usize,
}

// The state before the first piece.
#[unsafe(no_mangle)]
pub extern "C" fn fade_fresh() -> State
    ensures { result ≡ fresh }
{
    State::fresh()
}

// Takes a piece of input, and writes the answer lines of the lines whose line feed lies in it to the
// front of `out`. The number is 0, or 5 to 7 where nothing was taken and nothing written. State, piece
// and output are what C hands.
#[unsafe(no_mangle)]
pub extern "C" fn fade_feed(state: State, piece: &[u8], out: &mut [u8]) -> Handed
    ensures value { result ≡ handed (fed state piece.now (length out.old)) }
    ensures out_after { out.new ≡ out_after (verdict state piece.now (length out.old)) state piece.now out.old }
{
    let fed = batch::feed(state, piece, out);
    Handed {
        state: fed.state,
        number: batch::feed_number(fed.verdict),
        wrote: fed.verdict.unwrap_or(0),
    }
}

// Whether the input may end here: 0, or 5 or 8.
#[unsafe(no_mangle)]
pub extern "C" fn fade_close(state: State) -> u32
    ensures { result ≡ close_number (closed state) }
{
    batch::close_number(batch::close(state))
}

// Writes the line of totals, and after it the line of an end's number where that is not 0, to the
// front of `out`, and answers how many bytes these are. The number is one, since C has no Option.
#[unsafe(no_mangle)]
pub extern "C" fn fade_write_totals(state: State, end: u32, out: &mut [u8; TOTALS]) -> usize
    ensures value { result ≡ length (totals state ++ end_line end) }
    ensures out_after { out.new ≡ put out.old 0 (totals state ++ end_line end) }
{
    batch::write_totals(state, end, out)
}
