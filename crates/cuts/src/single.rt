// One check: a feed or a close, compared and counted.
use crate::compare::{Differs, Wanted, close_differs};
use crate::report::Seen;
use crate::{MARK, ROOM};
use batch::State;

// What a feed is given, as C hands it too: a state, a piece, and how many bytes its output has, ROOM at most.
#[derive(Clone, Copy)]
pub(crate) struct Given<'a> {
    pub state: State,
    piece: &'a [u8],
    space: usize,
}

impl<'a> Given<'a> {
    pub(crate) fn new(state: State, piece: &'a [u8], space: usize) -> Given<'a> {
        Given {
            state,
            piece,
            space,
        }
    }

    // Feeds the piece to the first `space` bytes of an output, or to all of it where it has fewer: so
    // no check has to prove that its space is at most ROOM.
    pub(crate) fn differs(&self, out: &mut [u8], wanted: Wanted) -> Result<(), Differs> {
        let space = self.space.min(out.len());
        let fed = batch::feed(self.state, self.piece, &mut out[..space]);
        wanted.differs(&fed, out)
    }
}

impl Seen {
    // Feeds a piece to a fresh output.
    pub(crate) fn feed(&mut self, given: Given, wanted: Wanted) {
        let mut out = [MARK; ROOM];
        self.note_feed(given.differs(&mut out, wanted));
    }

    // Feeds a piece that must be refused, with this number: a number, as in `Wanted`.
    pub(crate) fn refused(&mut self, given: Given, number: u32) {
        self.feed(given, Wanted::refused(given.state, number));
    }

    // Closes a state, which must have this number: a number, as in `Wanted`.
    pub(crate) fn closed(&mut self, state: State, number: u32) {
        self.note_close(close_differs(state, number));
    }
}
