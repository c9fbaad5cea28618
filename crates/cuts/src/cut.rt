// The batch whole, cut in two at every place, and byte by byte. A close and a refusal stand by their
// numbers, as in `Wanted`.
ghost use Rattle.std.specs.Prelude.{◌≤◌, length};

use crate::compare::{Differs, Wanted};
use crate::expected::{Batch, feeds, split_lines};
use crate::report::Seen;
use crate::single::Given;
use crate::{MARK, ROOM};
use batch::State;

// Feeds the batch whole.
pub(crate) fn check_whole(batch: &Batch) -> Seen {
    let given = Given::new(State::fresh(), batch.input, ROOM);
    let after = batch.state_at(batch.input.len());
    let mut seen = Seen::default();
    seen.feed(given, Wanted::taken(after, batch.answers));
    seen
}

// Feeds a piece to an output that is a byte short, and then to one that is just long enough.
fn again_differs(short: Given, enough: Given, wanted: Wanted) -> Result<(), Differs> {
    let mut out = [MARK; ROOM];
    short.differs(&mut out, Wanted::refused(short.state, 7))?;
    enough.differs(&mut out, wanted)
}

impl Seen {
    // Feeds a piece that must be taken to outputs of every kind. Where it has no answers, the one
    // that is just long enough is empty.
    fn check_outputs(&mut self, state: State, piece: &[u8], wanted: Wanted) {
        let len = wanted.text.len();
        let enough = Given::new(state, piece, len);
        self.feed(Given::new(state, piece, ROOM), wanted);
        self.feed(enough, wanted);
        let Some(less) = len.checked_sub(1) else {
            return;
        };
        self.refused(Given::new(state, piece, 0), 7);
        let short = Given::new(state, piece, less);
        self.note_feed(again_differs(short, enough, wanted));
    }

    // Feeds the bytes from one place to another. The state before them is the one expected there: that
    // the bytes before them leave it has been checked in every field.
    fn check_piece(&mut self, batch: &Batch, from: usize, to: usize)
        requires { (from ≤ to) × (to ≤ length batch.now.input.now) }
    {
        let state = batch.state_at(from);
        let after = batch.state_at(to);
        let piece = &batch.input[from..to];
        let (_, rest) = split_lines(batch.answers, state.lines);
        let (text, _) = split_lines(rest, feeds(piece));
        self.check_outputs(state, piece, Wanted::taken(after, text));
    }

    // Closes where a line may be unfinished, which is 8: a number, as in `Wanted`.
    fn check_end(&mut self, state: State) {
        let number = if state.tail.count == 0 { 0 } else { 8 };
        self.closed(state, number);
    }
}

// Cuts at every place, before the first byte and after the last too, and closes there. The places are
// counted, since they are what is checked.
pub(crate) fn check_places(batch: &Batch) -> Seen {
    let mut seen = Seen::default();
    let end = batch.input.len();
    for place in 0..=end {
        seen.place = place;
        seen.check_piece(batch, 0, place);
        seen.check_end(batch.state_at(place));
        seen.check_piece(batch, place, end);
    }
    seen
}

// Feeds byte by byte, by place too.
pub(crate) fn check_bytes(batch: &Batch) -> Seen {
    let mut seen = Seen::default();
    for place in 0..batch.input.len() {
        seen.place = place;
        seen.check_piece(batch, place, place + 1);
    }
    seen
}
