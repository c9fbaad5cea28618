// Writing an answer line.
ghost use Rattle.std.specs.Prelude.{◌≡◌, ℕ, length};
ghost use Rattle.lines.specs.Format.{refusal_number};
ghost use Rattle.replies.specs.Reply.{ending, reply_said, answer_line};

use crate::Answered;
use compound::Route;
use lines::Refusal;
use std::num::f32_to_bits_with_nan;
use text::{Decimal, Hex, Text, places};

// The end of an answer line. There is a text for each route, so that the compiler knows its length: the
// text of `Route::word` is copied by a call, and a line then takes 6 ns more, of some 95. That the words
// are the same is proved: both are those of one definition.
#[derive(Clone, Copy)]
struct Ending(Route);

impl Text for Ending {
    ghost bytes = { λ e. ending e.0 };

    #[tactic(auto, unfolding(compound::specs::Answer::word, crate::specs::Reply::ending))]
    fn put(self, out: &mut [u8], at: usize) -> usize {
        match self.0 {
            Route::Rule => " via=rule\n".put(out, at),
            Route::Whole => " via=whole\n".put(out, at),
            Route::Edge => " via=edge\n".put(out, at),
            Route::Fast => " via=fast\n".put(out, at),
            Route::Slow => " via=slow\n".put(out, at),
        }
    }
}

// What has the number of a refusal: one of the four, or any number by itself.
pub trait HasNumber: Copy {
    ghost number: { Self → ℕ };

    fn number(self) -> u32
        ensures { result ≡ number self };
}

impl HasNumber for Refusal {
    ghost number = { refusal_number };

    fn number(self) -> u32 {
        self.into()
    }
}

impl HasNumber for u32 {
    ghost number = { λ n. n };

    fn number(self) -> u32 {
        self
    }
}

// The length of a reply's answer line, with its feed, whatever the number of the refusal is.
#[tactic(auto, using(crate::proofs::Lengths::length_steps))]
pub fn reply_length<R: HasNumber>(reply: Result<Answered, R>) -> usize
    ensures { result ≡ length (answer_line (reply_said R.number reply)) }
{
    match reply {
        Ok(Answered { id, answer }) => 20 + places(id) + answer.route().word().len(),
        Err(refusal) => 5 + places(refusal.number()),
    }
}

// A reply's answer line, whatever the number of the refusal is.
#[derive(Clone, Copy)]
pub struct AnswerLine<R>(pub Result<Answered, R>);

impl<R: HasNumber> Text for AnswerLine<R> {
    ghost bytes = { λ l. answer_line (reply_said R.number l.0) };

    #[tactic(auto, using(crate::proofs::Patterns::answer_pattern_lem), unfolding(crate::specs::Reply::answer_line))]
    fn put(self, out: &mut [u8], at: usize) -> usize {
        match self.0 {
            Ok(Answered { id, answer }) => {
                // The pattern of a NaN is 7fc00000.
                let pattern = f32_to_bits_with_nan(answer.value());
                let end = Ending(answer.route());
                (("id=", Decimal(id)), (" r=", Hex(pattern)), end).put(out, at)
            }
            Err(refusal) => ("bad=", Decimal(refusal.number()), "\n").put(out, at),
        }
    }
}
