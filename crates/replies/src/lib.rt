// Replies: what an input line is answered with, and its answer line, `id=D r=H via=W` or `bad=N`. The
// answer line is defined in specs/Reply.antt.
#![tactic(auto)]

mod write;

ghost use Rattle.std.specs.Prelude.{◌≡◌};
ghost use Rattle.replies.specs.Reply.{reply_to, reply_of};

use compound::{Answer, f_compoundf};
use lines::{Pair, Refusal, read_line};
pub use write::{AnswerLine, HasNumber, reply_length};

// An id, and the answer for its x and y.
#[derive(Clone, Copy)]
pub struct Answered {
    pub id: u32,
    pub answer: Answer,
}

// What a line is answered with, or why it is refused.
pub type Reply = Result<Answered, Refusal>;

// What the line is answered with.
#[tactic(auto, unfolding(crate::specs::Reply::reply_to, crate::specs::Reply::reply_to_read))]
pub fn reply_to(line: &[u8]) -> Reply
    ensures { reply_of result ≡ reply_to line.now }
{
    let Pair { id, x, y } = read_line(line)?;
    let answer = f_compoundf(x, y);
    Ok(Answered { id, answer })
}
