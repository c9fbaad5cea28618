// Looking for line feeds: how many there are, where a line ends, and the complete lines one by one. What
// a complete line is, and what is left after the last line feed, is defined in specs/Complete.antt.
#![tactic(auto)]

mod lines;

ghost use Rattle.std.specs.Prelude.{◌≡◌, ◌+◌, ◌*◌, ◌≤◌, length, drop, eqb};
ghost use Rattle.std.specs.List.{list_any};
ghost use Rattle.scan.specs.Complete.{line_feed, line_feeds, line_end};

pub use lines::Lines;

// How many line feeds there are. They are added up without a branch on any byte, so that the compiler
// can look at several at once.
#[tactic(auto, unfolding(crate::specs::Complete::line_feeds))]
pub fn line_feeds(s: &[u8]) -> usize
    ensures { result ≡ line_feeds s.now }
{
    s.iter().map(|b| usize::from(*b == b'\n')).sum()
}

// Whether one of eight bytes is a line feed. All eight are looked at and no branch is taken on any of
// them, so that the compiler can test them at once.
fn has_line_feed(eight: &[u8; 8]) -> bool
    ensures { result ≡ list_any (λ b. eqb b line_feed) eight.now }
{
    eight.iter().fold(false, |found, b| found | (*b == b'\n'))
}

// A place no later than the first line feed, in steps of eight bytes.
fn near_line_feed(s: &[u8]) -> usize
    ensures { (result ≤ length s.now) × (line_end s.now ≡ result + line_end (drop result s.now)) }
{
    let (eights, _) = s.as_chunks::<8>();
    8 * eights
        .iter()
        .position(has_line_feed)
        .unwrap_or(eights.len())
}

// How many bytes stand before the first line feed, or how many there are where there is none.
#[tactic(auto, using(crate::proofs::Eights::place_or_len), unfolding(crate::specs::Complete::line_end))]
fn first_line_feed(s: &[u8]) -> usize
    ensures { result ≡ line_end s.now }
{
    s.iter().position(|b| *b == b'\n').unwrap_or(s.len())
}

// The place of the first line feed, or the length where there is none.
#[tactic(auto, using(crate::proofs::Cutting::line_end_within))]
pub fn line_end(s: &[u8]) -> usize
    ensures { result ≡ line_end s.now }
{
    let near = near_line_feed(s);
    near + first_line_feed(&s[near..])
}
