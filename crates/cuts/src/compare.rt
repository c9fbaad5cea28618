// What a feed or a close came to, beside what is expected.
use crate::MARK;
use batch::{Fed, State};
use std::fmt;

// What differs first: a feed's answer, its output, its state; a close's answer.
#[derive(Clone, Copy, Debug, PartialEq, Eq)]
pub(crate) enum Differs {
    Answer,
    Output,
    State,
    Closed,
}

impl fmt::Display for Differs {
    fn fmt<W: fmt::Write>(&self, f: &mut fmt::Formatter<W>) -> fmt::Result {
        match self {
            Differs::Answer => write!(f, "feed's answer"),
            Differs::Output => write!(f, "feed's output"),
            Differs::State => write!(f, "feed's state"),
            Differs::Closed => write!(f, "close's answer"),
        }
    }
}

// What a feed must come to: its number, the state after it, and the text that it writes. A number
// and no case of the reader's own enum: the numbers themselves are held to the paper, and an enum
// would leave them unchecked.
#[derive(Clone, Copy)]
pub(crate) struct Wanted<'a> {
    number: u32,
    state: State,
    pub text: &'a [u8],
}

// Whether an output has a text at its front, and its other bytes are as they were before the feed.
fn is_written(out: &[u8], text: &[u8]) -> bool {
    match out.strip_prefix(text) {
        Some(rest) => rest.iter().all(|b| *b == MARK),
        None => false,
    }
}

impl<'a> Wanted<'a> {
    // A piece is taken: the state after it, and the text that is written.
    pub(crate) fn taken(state: State, text: &'a [u8]) -> Wanted<'a> {
        Wanted {
            number: 0,
            state,
            text,
        }
    }

    // A piece is refused: the state, which stays, and the number of the refusal.
    pub(crate) fn refused(state: State, number: u32) -> Wanted<'a> {
        Wanted {
            number,
            state,
            text: b"",
        }
    }

    // What a feed's answer, its output and its state differ in.
    pub(crate) fn differs(&self, fed: &Fed, out: &[u8]) -> Result<(), Differs> {
        let verdict = fed.verdict;
        if batch::feed_number(verdict) != self.number || verdict.unwrap_or(0) != self.text.len() {
            return Err(Differs::Answer);
        }
        if !is_written(out, self.text) {
            return Err(Differs::Output);
        }
        if fed.state != self.state {
            return Err(Differs::State);
        }
        Ok(())
    }
}

// What a close's answer differs in from the number expected: a number, as in `Wanted`. A struct of it and
// the state would be made for this call.
pub(crate) fn close_differs(state: State, number: u32) -> Result<(), Differs> {
    if batch::close_number(batch::close(state)) == number {
        Ok(())
    } else {
        Err(Differs::Closed)
    }
}
