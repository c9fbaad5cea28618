// Counting the checks, and telling of those that were wrong.
use crate::compare::Differs;
use std::fmt;

// How many wrong checks of a group are told of.
const TOLD: usize = 5;

// A wrong check: its place, how many checks its group made before it, and what differs.
#[derive(Clone, Copy, Debug)]
pub(crate) struct Wrong {
    place: usize,
    checks: u64,
    what: Differs,
}

impl fmt::Display for Wrong {
    fn fmt<W: fmt::Write>(&self, f: &mut fmt::Formatter<W>) -> fmt::Result {
        let Wrong {
            place,
            checks,
            what,
        } = *self;
        write!(f, "wrong: at place {place}, after checks {checks}, {what}")
    }
}

// How many checks of feed and of close a group made, how many were wrong, at which place of the batch
// it is, and the first wrong checks.
#[derive(Clone, Copy, Debug, Default)]
pub(crate) struct Seen {
    pub place: usize,
    feeds: u32,
    closes: u32,
    wrong: u32,
    told: [Option<Wrong>; TOLD],
}

impl Seen {
    // Notes what a check found.
    fn note(&mut self, found: Result<(), Differs>) {
        let Err(what) = found else {
            return;
        };
        let place = self.place;
        let checks = u64::from(self.feeds) + u64::from(self.closes);
        let n = self.wrong as usize;
        if n < TOLD {
            self.told[n] = Some(Wrong {
                place,
                checks,
                what,
            });
        }
        self.wrong = self.wrong.saturating_add(1);
    }

    // Counts a check of feed, and notes what it found. The next counts in another field, which would be
    // a parameter otherwise.
    pub(crate) fn note_feed(&mut self, found: Result<(), Differs>) {
        self.note(found);
        self.feeds = self.feeds.saturating_add(1);
    }

    // Counts a check of close, and notes what it found.
    pub(crate) fn note_close(&mut self, found: Result<(), Differs>) {
        self.note(found);
        self.closes = self.closes.saturating_add(1);
    }
}

impl fmt::Display for Seen {
    fn fmt<W: fmt::Write>(&self, f: &mut fmt::Formatter<W>) -> fmt::Result {
        let (feeds, closes, wrong) = (self.feeds, self.closes, self.wrong);
        write!(
            f,
            "checks of feed {feeds}, of close {closes}, wrong {wrong}"
        )
    }
}

// Tells of the first wrong checks of a group, and prints its line. What cannot be printed is missed in the
// file stdout; the lines after it are printed all the same.
pub(crate) fn print_group(rt: &impl Print, name: &str, seen: &Seen) {
    for wrong in seen.told.iter().flatten() {
        let _ = println!(rt; "{wrong}");
    }
    let _ = println!(rt; "{name}: {seen}");
}
