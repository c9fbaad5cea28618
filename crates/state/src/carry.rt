// Carrying on the line that is held.
ghost use Rattle.std.specs.Prelude.{◌≡◌, ◌≤◌, length, drop};
ghost use Rattle.state.specs.Carry.{carry_on, carry_end};

use crate::Held;
use scan::line_end;

// A piece, and the position up to which it has been read. That it is a struct of these two is a rule of
// the project.
#[derive(Clone, Copy)]
pub struct Piece<'a> {
    pub bytes: &'a [u8],
    pub at: usize,
}

impl<'a> Piece<'a> {
    // The bytes that have not been read.
    pub fn rest(&self) -> &'a [u8]
        requires { self.now.at ≤ length self.now.bytes.now }
        ensures { result.now ≡ drop self.now.at self.now.bytes.now }
    {
        &self.bytes[self.at..]
    }

    // The line that is held, carried on by the bytes of the piece from its position up to the next line
    // feed, or up to the end. The position goes there.
    #[tactic(auto, using(scan::proofs::Cutting::line_end_within), unfolding(crate::specs::Carry::carry_on))]
    pub fn carry(&mut self, held: Held) -> Held
        requires { self.old.at ≤ length self.old.bytes.now }
        ensures held { result ≡ carry_on held self.old.bytes.now self.old.at }
        ensures at { self.new.at ≡ carry_end self.old.bytes.now self.old.at }
        ensures bytes { self.new.bytes ≡ self.old.bytes }
    {
        let rest = self.rest();
        let end = line_end(rest);
        self.at += end;
        held.extended(&rest[..end])
    }
}
