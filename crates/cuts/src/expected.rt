// The state that the reader must hold, told from the bytes that it has been fed and from their
// answers as text.
ghost use Rattle.std.specs.Prelude.{◌≤◌, length};

use batch::{OVER_LONG, State, Tail, Tallies};
use lines::LONGEST;
use std::iter::once;

// The batch: its bytes, and the answers that feeding it whole wrote.
#[derive(Clone, Copy)]
pub(crate) struct Batch<'a> {
    pub input: &'a [u8],
    pub answers: &'a [u8],
}

// A number as a u32, the largest where it is larger.
fn counted(n: usize) -> u32 {
    u32::try_from(n).unwrap_or(u32::MAX)
}

// How many line feeds there are.
pub(crate) fn feeds(s: &[u8]) -> u32 {
    counted(s.iter().filter(|b| **b == b'\n').count())
}

// The first n lines, and what follows them. Where there are fewer, nothing follows.
pub(crate) fn split_lines(s: &[u8], n: u32) -> (&[u8], &[u8]) {
    let ends = s
        .iter()
        .enumerate()
        .filter(|(_, b)| **b == b'\n')
        .map(|(i, _)| i + 1);
    let place = once(0).chain(ends).nth(n as usize);
    s.split_at(place.unwrap_or(s.len()))
}

// The tail that holds an unfinished line.
fn held(line: &[u8]) -> Tail {
    let mut bytes = [0u8; LONGEST];
    if line.len() > LONGEST {
        return Tail {
            bytes,
            count: OVER_LONG,
        };
    }
    bytes[..line.len()].copy_from_slice(line);
    Tail {
        bytes,
        count: line.len() as u32,
    }
}

// How many lines have this letter as the fourth from their end.
fn endings(answers: &[u8], letter: u8) -> u32 {
    counted(
        answers
            .windows(5)
            .filter(|end| matches!(end, [b, _, _, _, b'\n'] if *b == letter))
            .count(),
    )
}

// The tallies of answer lines, which end in via=rule, via=whole, via=edge, via=fast, via=slow or are
// bad=N.
fn tallied(answers: &[u8]) -> Tallies {
    Tallies {
        rule: endings(answers, b'r'),
        whole: endings(answers, b'h'),
        edge: endings(answers, b'e'),
        fast: endings(answers, b'f'),
        slow: endings(answers, b's'),
        bad: endings(answers, b'a'),
    }
}

impl Batch<'_> {
    // The state after the first bytes of the batch.
    pub(crate) fn state_at(&self, place: usize) -> State
        requires { place ≤ length self.now.input.now }
    {
        let first = &self.input[..place];
        let lines = feeds(first);
        let (_, line) = split_lines(first, lines);
        let (answers, _) = split_lines(self.answers, lines);
        State {
            tail: held(line),
            lines,
            tallies: tallied(answers),
        }
    }
}
