// The line of totals that is printed after the answer lines, and the line of the end's number. They are
// defined in specs/Totals.antt.
#![tactic(auto)]

ghost use Rattle.std.specs.Prelude.{◌≡◌, ◌++◌, codes, length};
ghost use Rattle.text.specs.Bytes.{put};
ghost use Rattle.totals.specs.Totals.{labelled, totals, end_line};

use state::State;
use text::{Decimal, Text};

// Room for the totals and the end's line: 42 bytes of labels, four of `end=`, two line feeds, and eight
// numbers of at most ten digits.
pub const TOTALS: usize = 48 + 8 * 10;

// The line of an end's number. A type of its own, so that its labels are known to the compiler where it stands in an
// Option.
#[derive(Clone, Copy)]
struct EndLine(u32);

impl Text for EndLine {
    ghost bytes = { λ e. labelled (codes "end=", e.0) ++ codes "\n" };

    fn put(self, out: &mut [u8], at: usize) -> usize {
        ("end=", Decimal(self.0), "\n").put(out, at)
    }
}

// Writes the totals, and the line of the end's number if there is one, to the front of `out`, and
// answers how many bytes these are. A number of 0 says that there is none: C, which hands a number, has
// no Option, and `End` of `fade` has the number 0 for it too, so that an Option would be made of a 0
// here and taken apart again. State, number and output are three parameters, as C hands them. The labels are a
// tuple and no list: over a list each is copied by a call, and the totals take twice as long.
#[tactic(auto, using(crate::proofs::Room::totals_steps), unfolding(crate::specs::Totals::totals))]
pub fn write_totals(state: State, end: u32, out: &mut [u8; TOTALS]) -> usize
    ensures value { result ≡ length (totals state ++ end_line end) }
    ensures out_after { out.new ≡ put out.old 0 (totals state ++ end_line end) }
{
    let t = state.tallies;
    let end_line = (end != 0).then_some(EndLine(end));
    let from_bad = ((" bad=", Decimal(t.bad)), "\n", end_line);
    let from_fast = (
        (" fast=", Decimal(t.fast)),
        (" slow=", Decimal(t.slow)),
        from_bad,
    );
    let from_whole = (
        (" whole=", Decimal(t.whole)),
        (" edge=", Decimal(t.edge)),
        from_fast,
    );
    let all = (
        ("lines=", Decimal(state.lines)),
        (" rule=", Decimal(t.rule)),
        from_whole,
    );
    all.put(out, 0)
}
