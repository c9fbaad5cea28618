// The replies to the lines that end in a piece, one after another.
ghost use Rattle.std.specs.Prelude.{◌≡◌, [], ◌++◌};
ghost use Rattle.std.specs.Iterator.{item_count};
ghost use Rattle.scan.specs.Complete.{lines_from, rest_from};
ghost use Rattle.state.specs.Holding.{as_held};
ghost use Rattle.replies.specs.Reply.{reply_of, reply_to};
ghost use Rattle.piece.specs.Piece.{replies};
ghost use Rattle.piece.specs.PieceReplies.{to_come, to_hold, unfinished, NextReply};

use lines::Refusal;
use replies::{Reply, reply_to};
use scan::Lines;
use state::{Held, Piece};

// The replies that are still to come: the one to the first line, which carries on the line that is
// held, and those to the complete lines after it. After the last of them what is held, and what is left
// of the piece, make the new unfinished line.
#[derive(Drop)]
pub(crate) struct PieceReplies<'a> {
    first: Option<Reply>,
    rest: &'a [u8],
    held: Held,
}

impl<'a> PieceReplies<'a> {
    // Those to the lines of a piece that comes after the line that is held.
    pub fn of(held: Held, piece: &'a [u8]) -> PieceReplies<'a>
        ensures replies { to_come result ≡ replies (lines_from held piece.entry.now) }
        ensures rest { to_hold result ≡ as_held (rest_from held piece.entry.now) }
    {
        let mut unread = Piece {
            bytes: piece,
            at: 0,
        };
        let line = unread.carry(held);
        match unread.rest().split_first() {
            Some((_, others)) => PieceReplies {
                first: Some(reply_to_held(&line)),
                rest: others,
                held: Held::empty(),
            },
            None => PieceReplies {
                first: None,
                rest: &[],
                held: line,
            },
        }
    }

    // The unfinished line, after the last reply.
    pub fn unfinished(&self) -> Held
        ensures { result ≡ unfinished self.now }
    {
        self.held.extended(self.rest)
    }
}

impl<'a> Iterator for PieceReplies<'a> {
    type Item = Reply;

    ghost next_gives = { NextReply };

    ghost remaining = { item_count to_come };

    // Inlined into both of its callers: by a call a line takes 21 instructions more, of some 700.
    #[inline(always)]
    fn next(&mut self) -> Option<Reply> {
        if let Some(reply) = self.first.take() {
            return Some(reply);
        }
        let mut lines = Lines { rest: self.rest };
        let line = lines.next()?;
        self.rest = lines.rest;
        Some(reply_to(line))
    }
}

// What the line that is held is answered with.
#[tactic(auto, using(replies::proofs::Lengths::over_long_lem))]
fn reply_to_held(held: &Held) -> Reply
    ensures { reply_of result ≡ reply_to held.now }
{
    match held.line() {
        Some(line) => reply_to(line),
        None => Err(Refusal::TooLong),
    }
}
