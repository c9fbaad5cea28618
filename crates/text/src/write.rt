// Text put at a place of a list of bytes.
ghost use Rattle.std.specs.Prelude.{◌≡◌, ◌++◌, ◌+◌, ◌≤◌, ℕ, List, [], length};
ghost use Rattle.std.specs.List.{flat_map};
ghost use Rattle.text.specs.Bytes.{put, if_some};
ghost use Rattle.text.specs.Digits.{decimal, hex};

use crate::digits::{fill_digits, places};

// A text that can be put at a place of a list of bytes. A tuple is its parts, one after another. It is not
// `Display` and `write!`: by these an answer line alone takes 92 ns, as long as a line of a batch takes
// now with all that it needs, and the bar, half of the Rust's time or 105 ns, would be missed.
pub trait Text {
    // Its bytes.
    ghost bytes: { Self → List ℕ };

    // Puts it at the place `at`, and answers the place after it. A writer with both in it would be made
    // and taken apart by each caller, which has the list lent.
    fn put(self, out: &mut [u8], at: usize) -> usize
        requires { at + length (bytes self) ≤ length out.old }
        ensures value { result ≡ at + length (bytes self) }
        ensures out_after { out.new ≡ put out.old at (bytes self) };
}

// Bytes as they are.
impl Text for &[u8] {
    ghost bytes = { λ s. s.now };

    #[tactic(auto, using(crate::proofs::Put::put_part))]
    fn put(self, out: &mut [u8], at: usize) -> usize {
        let end = at + self.len();
        out[at..end].copy_from_slice(self);
        end
    }
}

impl Text for &str {
    ghost bytes = { λ s. s.now };

    fn put(self, out: &mut [u8], at: usize) -> usize {
        self.as_bytes().put(out, at)
    }
}

// A number, in decimal. This and `Hex` differ in the base and in how many digits there are: one function of
// both would have five parameters for three lines.
#[derive(Clone, Copy)]
pub struct Decimal(pub u32);

impl Text for Decimal {
    ghost bytes = { λ d. decimal d.0 };

    #[tactic(auto, using(crate::proofs::Put::decimal_put, crate::proofs::Numerals::length_decimal))]
    fn put(self, out: &mut [u8], at: usize) -> usize {
        let end = at + places(self.0);
        fill_digits(self.0, 10, &mut out[at..end]);
        end
    }
}

// A pattern, as eight hexadecimal digits.
#[derive(Clone, Copy)]
pub struct Hex(pub u32);

impl Text for Hex {
    ghost bytes = { λ h. hex h.0 };

    #[tactic(auto, using(crate::proofs::Put::hex_put, crate::proofs::Numerals::length_hex))]
    fn put(self, out: &mut [u8], at: usize) -> usize {
        let end = at + 8;
        fill_digits(self.0, 16, &mut out[at..end]);
        end
    }
}

impl<A: Text, B: Text> Text for (A, B) {
    ghost bytes = { λ t. A.bytes t.0 ++ B.bytes t.1 };

    // Inlined, so that the length of a text in it is known to the compiler: it is not copied by a call then.
    #[inline(always)]
    #[tactic(auto, using(crate::proofs::Put::pair_put))]
    fn put(self, out: &mut [u8], at: usize) -> usize {
        let (a, b) = self;
        let middle = a.put(out, at);
        b.put(out, middle)
    }
}

impl<A: Text, B: Text, C: Text> Text for (A, B, C) {
    ghost bytes = { λ t. A.bytes t.0 ++ B.bytes t.1 ++ C.bytes t.2 };

    fn put(self, out: &mut [u8], at: usize) -> usize {
        let (a, b, c) = self;
        ((a, b), c).put(out, at)
    }
}

// Texts one after another.
impl<T: Text + Copy, const N: usize> Text for [T; N] {
    ghost bytes = { flat_map T.bytes };

    fn put(self, out: &mut [u8], at: usize) -> usize {
        let mut end = at;
        for text in self {
            end = text.put(out, end);
        }
        end
    }
}

// Nothing, where there is none.
impl<T: Text> Text for Option<T> {
    ghost bytes = { if_some T.bytes };

    #[tactic(auto, using(crate::proofs::Put::put_nothing), unfolding(crate::specs::Bytes::if_some))]
    fn put(self, out: &mut [u8], at: usize) -> usize {
        match self {
            Some(part) => part.put(out, at),
            None => at,
        }
    }
}
