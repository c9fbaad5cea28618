// States made by hand. A close and a refusal stand by their numbers, as in `Wanted`.
ghost use Rattle.std.specs.Prelude.{◌<◌};

use crate::ROOM;
use crate::compare::Wanted;
use crate::report::Seen;
use crate::single::Given;
use batch::{MOST_LINES, OVER_LONG, State, Tail, Tallies};
use lines::LONGEST;

// The last place of a tail.
const LAST: usize = LONGEST - 1;

// The count of a tail that is full.
const FULL: u32 = LONGEST as u32;

// The bytes of the shortest over-long line.
const LONG: usize = OVER_LONG as usize;

// A tail whose bytes are zero but for one.
fn tail_with(count: u32, place: usize, byte: u8) -> Tail
    requires { place < LONGEST }
{
    let mut bytes = [0u8; LONGEST];
    bytes[place] = byte;
    Tail { bytes, count }
}

// A tail of zeros.
fn zeros(count: u32) -> Tail {
    Tail {
        bytes: [0u8; LONGEST],
        count,
    }
}

// Six tallies: of rule, whole, edge, fast, slow and bad.
fn tallies([rule, whole, edge, fast, slow, bad]: [u32; 6]) -> Tallies {
    Tallies {
        rule,
        whole,
        edge,
        fast,
        slow,
        bad,
    }
}

// A state whose lines are all bad.
fn all_bad(tail: Tail, lines: u32) -> State {
    State {
        tail,
        lines,
        tallies: tallies([0, 0, 0, 0, 0, lines]),
    }
}

impl Seen {
    // Feeds and closes a broken state: 5 comes before all else.
    fn check_state(&mut self, state: State) {
        let feeds: [(&[u8], usize); 5] = [
            (b"id=7 x=3f000000 y=40000000\n", ROOM),
            (b"\n", ROOM),
            (b"\n", 5),
            (b"\n", 0),
            (b"", ROOM),
        ];
        for (piece, space) in feeds {
            self.refused(Given::new(state, piece, space), 5);
        }
        self.closed(state, 5);
    }

    // Tails that no feed leaves, without lines and with as many as there can be: a count past the
    // over-long mark, a line feed, a byte past the count, a byte at the mark.
    fn check_tails(&mut self) {
        let tails = [
            zeros(OVER_LONG + 1),
            zeros(u32::MAX),
            tail_with(5, 2, b'\n'),
            tail_with(FULL, LAST, b'\n'),
            tail_with(0, LAST, b'\n'),
            tail_with(3, 3, 1),
            tail_with(0, 0, b'i'),
            tail_with(FULL - 1, LAST, 255),
            tail_with(OVER_LONG, 0, b'i'),
            tail_with(OVER_LONG, LAST, 1),
        ];
        for tail in tails {
            self.check_state(all_bad(tail, 0));
            self.check_state(all_bad(tail, MOST_LINES));
        }
    }

    // Tallies that do not add up to the lines, with an empty tail and with an over-long line: one
    // too many in each place, one too few, none; and twice tallies that come to the lines where 32
    // bits hold the sum.
    fn check_sums(&mut self) {
        let most = MOST_LINES;
        let sums = [
            (0, [1, 0, 0, 0, 0, 0]),
            (0, [0, 1, 0, 0, 0, 0]),
            (0, [0, 0, 1, 0, 0, 0]),
            (0, [0, 0, 0, 1, 0, 0]),
            (0, [0, 0, 0, 0, 1, 0]),
            (0, [0, 0, 0, 0, 0, 1]),
            (7, [1, 1, 1, 1, 1, 1]),
            (most, [0, 0, 0, 0, 0, 0]),
            (0, [most, 1, 0, 0, 0, 0]),
            (most, [most, most, 1, 0, 0, 0]),
        ];
        for (lines, counts) in sums {
            for count in [0, OVER_LONG] {
                let state = State {
                    tail: zeros(count),
                    lines,
                    tallies: tallies(counts),
                };
                self.check_state(state);
            }
        }
    }

    // A state with as many lines as there can be: no line feed is taken, and bytes of a line are
    // held.
    fn check_full(&mut self) {
        let state = State {
            tail: zeros(0),
            lines: MOST_LINES,
            tallies: tallies([1, 2, 3, 4, 5, MOST_LINES - 15]),
        };
        let refused: [(&[u8], usize); 3] = [(b"\n", ROOM), (b"\n", 0), (b"i\n\n", ROOM)];
        for (piece, space) in refused {
            self.refused(Given::new(state, piece, space), 6);
        }
        let held: [(&[u8], usize, Tail); 3] = [
            (b"", 0, zeros(0)),
            (b"0", 0, tail_with(1, 0, b'0')),
            (&[b'0'; LONG], ROOM, zeros(OVER_LONG)),
        ];
        for (piece, space, tail) in held {
            let after = State { tail, ..state };
            self.feed(Given::new(state, piece, space), Wanted::taken(after, b""));
        }
    }

    // A state with room for one line more: an empty line is taken where the output has room, and
    // two are not.
    fn check_last(&mut self) {
        let state = all_bad(zeros(0), MOST_LINES - 1);
        let full = all_bad(zeros(0), MOST_LINES);
        for space in [ROOM, 6] {
            let given = Given::new(state, b"\n", space);
            self.feed(given, Wanted::taken(full, b"bad=2\n"));
        }
        let refused: [(&[u8], usize, u32); 4] = [
            (b"\n", 5, 7),
            (b"\n", 0, 7),
            (b"\n\n", ROOM, 6),
            (b"\n\n", 0, 6),
        ];
        for (piece, space, number) in refused {
            self.refused(Given::new(state, piece, space), number);
        }
    }
}

// Broken states. This and `check_most` are two functions, since they make other checks: with these as a
// parameter they are no shorter.
pub(crate) fn check_broken() -> Seen {
    let mut seen = Seen::default();
    seen.check_tails();
    seen.check_sums();
    seen
}

// States at the most lines. See `check_broken` for why these are two.
pub(crate) fn check_most() -> Seen {
    let mut seen = Seen::default();
    seen.check_full();
    seen.check_last();
    seen
}

// Closes: at the start and after whole lines, in a line, in an over-long line.
pub(crate) fn check_closes() -> Seen {
    let closes = [
        (State::fresh(), 0),
        (all_bad(zeros(0), MOST_LINES), 0),
        (all_bad(tail_with(1, 0, b'i'), 0), 8),
        (all_bad(zeros(FULL), 3), 8),
        (all_bad(zeros(OVER_LONG), 3), 8),
    ];
    let mut seen = Seen::default();
    for (state, number) in closes {
        seen.closed(state, number);
    }
    seen
}
