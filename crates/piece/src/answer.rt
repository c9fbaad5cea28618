// Answering the lines of a piece.
ghost use Rattle.std.specs.Prelude.{◌≡◌, ◌+◌, ◌≤◌, length};
ghost use Rattle.text.specs.Bytes.{put};
ghost use Rattle.scan.specs.Complete.{line_feeds};
ghost use Rattle.piece.specs.Piece.{answer_lines, added, state_after_piece, most_lines};

use crate::Taken;
use crate::piece_replies::PieceReplies;
use crate::tally::count_reply;
use replies::AnswerLine;
use state::{Reader, State};
use text::Text;

// Takes a piece whose answer lines have room. Piece and output are those of `feed`, as C hands them.
pub fn take_piece(reader: Reader, piece: &[u8], out: &mut [u8]) -> Taken
    requires countable { reader.lines + line_feeds piece.now ≤ most_lines }
    requires room { length (answer_lines (added reader piece.now)) ≤ length out.old }
    ensures value { result ≡ record {
      state = state_after_piece reader piece.now;
      wrote = length (answer_lines (added reader piece.now));
    } }
    ensures out_after { out.new ≡ put out.old 0 (answer_lines (added reader piece.now)) }
{
    let mut tallies = reader.tallies();
    let mut at = 0;
    // A `for` over `&mut replies` would leave nothing known of what `replies` has left.
    let mut replies = PieceReplies::of(reader.held(), piece);
    while let Some(reply) = replies.next() {
        at = AnswerLine(reply).put(out, at);
        tallies = count_reply(tallies, reply);
    }
    Taken {
        state: State {
            tail: replies.unfinished().into(),
            lines: tallies.total() as u32,
            tallies,
        },
        wrote: at,
    }
}
