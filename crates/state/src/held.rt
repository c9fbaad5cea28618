// The unfinished line, held in a tail.
ghost use Rattle.std.specs.Prelude.{◌≡◌, ◌<◌, ◌≤◌, [], ◌++◌, length, MatchOption};
ghost use Rattle.lines.specs.Format.{longest};
ghost use Rattle.state.specs.Holding.{tail_of, held_line, as_held, Sound};

use crate::{OVER_LONG, Tail};
use lines::LONGEST;
use std::marker::Model;

// A tail that holds a line. In a clause it is that line, or what stands for an over-long one.
#[derive(Clone, Copy)]
pub struct Held {
    tail: Tail,
}

impl Model for Held {
    ghost use Rattle.std.specs.Prelude.{ℕ, List};
    ghost use Rattle.std.proofs.Common.{sym, ap};
    ghost use Rattle.state.specs.Holding.{tail_of, held_line, Sound};

    ghost Value = { List ℕ };

    ghost view = { λ h. held_line h.tail };

    ghost invariant = { λ h. Sound h.tail };

    ghost inverse = { λ l. record { tail = tail_of l } };

    ghost inverse_ok = { λ h s. ap (λ t. record { tail = t }) (sym s) };
}

impl Held {
    // The line that a tail holds.
    pub fn of(tail: Tail) -> Held
        requires { Sound tail }
        ensures { result ≡ held_line tail }
    {
        Held { tail }
    }

    // No bytes.
    pub fn empty() -> Held
        ensures { result ≡ [] }
    {
        Held {
            tail: Tail {
                bytes: [0; LONGEST],
                count: 0,
            },
        }
    }

    // The same line with a part more.
    pub fn extended(self, part: &[u8]) -> Held
        ensures { result ≡ as_held (self ++ part.now) }
    {
        let mut held = self;
        held.extend(part);
        held
    }

    // Puts a part more to the line. By a call, since the compiler would else copy the tail in parts that overlap,
    // and each copy of these waits for the one before. The part goes into a tail of this function's own, which
    // the compiler knows to be apart from it.
    #[inline(never)]
    fn extend(&mut self, part: &[u8])
        ensures { self.new ≡ as_held (self.old ++ part.now) }
    {
        let mut tail = self.tail;
        let start = tail.count as usize;
        let end = start + part.len();
        if end > LONGEST {
            self.tail = Tail {
                bytes: [0; LONGEST],
                count: OVER_LONG,
            };
        } else {
            tail.bytes[start..end].copy_from_slice(part);
            tail.count = end as u32;
            self.tail = tail;
        }
    }

    // Its bytes, and none where it is over-long.
    pub fn line(&self) -> Option<&[u8]>
        ensures { MatchOption result (longest < length self.now)
            (λ line. (line.now ≡ self.now) × (length self.now ≤ longest)) }
    {
        let tail = &self.tail;
        tail.bytes.get(..tail.count as usize)
    }

    // How many bytes it has, or one more than the longest line.
    pub fn len(&self) -> usize
        ensures { result ≡ length self.now }
    {
        self.tail.count as usize
    }
}

impl From<Held> for Tail {
    ghost from_gives = { λ held tail. tail ≡ tail_of held };

    fn from(held: Held) -> Tail {
        held.tail
    }
}
