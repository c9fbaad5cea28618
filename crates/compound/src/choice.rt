// The choice of the route past the special operands and the whole exponents: by t = y * log2(1 + x).
// A translation of the second half of `f_compoundf` in `compoundf.rs` of pxfm 0.1.30 (NOTICE).
ghost use Rattle.std.specs.Prelude.{◌≡◌, false, not, T, negsuc};
ghost use Rattle.std.specs.Float.{binary32, fin};
ghost use Rattle.std.specs.Float.Ieee.{is_nan, le, lt, of_bits};
ghost use Rattle.floats.specs.OnBits.{absolute};
ghost use Rattle.special.specs.Operands.{Tabled};
ghost use Rattle.compound.specs.Answer.{outcome};
ghost use Rattle.fast_path.specs.Edges.{lower_edge, upper_edge};
ghost use Rattle.fast_path.specs.Fast.{exp2_fast};
ghost use Rattle.compound.specs.Route as spec;

use crate::Answer;
use fast_path::{compoundf_log2p1_fast, exp2_fast};
use filter::{Found, filtered};
use floats::narrowing::narrow;
use slow_filter::slow_answer;
use slow_path::compoundf_accurate;
use special::operands::Operands;

// The routes `fast` and `slow`: whichever the tests in `exp2_fast` say. The range of t is that of
// `exp2_fast`.
#[tactic(auto, unfolding(crate::specs::Answer::outcome, crate::specs::Route::decided))]
fn decided(pair: Operands, t: f64) -> Answer
    requires t_above { T (lt lower_edge t) }
    requires t_below { T (lt t upper_edge) }
    ensures { outcome result ≡ spec.decided pair.x pair.y (exp2_fast t) }
{
    match exp2_fast(t) {
        Some(v) => Answer::Fast(narrow(v)),
        None => Answer::Slow(compoundf_accurate(pair.base(), pair.y)),
    }
}

// Up to LOWER_EDGE t gives +0, and from UPPER_EDGE on +infinity. A pattern of t, shifted left once, of at
// most EDGE_OF_ONE gives 1: the source compares it with the constant as it stands, unshifted.
const LOWER_EDGE: f64 = -150.0;

const UPPER_EDGE: f64 = 128.0;

const EDGE_OF_ONE: u64 = 0x3e67_1547_6ba9_7f14;

// The answer from t, near y * log2(1 + x): the route `edge`, or what `decided` says.
fn from_logarithm(pair: Operands, t: f64) -> Answer
    requires { T (not (is_nan t)) }
    ensures { outcome result ≡ spec.from_logarithm pair.x pair.y t }
{
    if t <= LOWER_EDGE {
        return Answer::Edge(0.0);
    }
    if t >= UPPER_EDGE {
        return Answer::Edge(f32::INFINITY);
    }
    if f64::to_bits(t) % 0x8000_0000_0000_0000 * 2 <= EDGE_OF_ONE {
        return Answer::Edge(1.0);
    }
    decided(pair, t)
}

// The answer past the routes `rule` and `whole`, as the source has it. Its t is no NaN, for any pair.
#[tactic(auto, using(filter::proofs::Settled::t_number), unfolding(crate::specs::Route::table_path))]
fn as_written(pair: Operands) -> Answer
    ensures { outcome result ≡ spec.table_path pair.x pair.y }
{
    let l = compoundf_log2p1_fast(pair.x);
    from_logarithm(pair, l * pair.y)
}

// Whether |x| is at most 2^-54, so that 1 + x is 1, for the f32 x of the pattern nx.
fn is_absorbed(nx: u32) -> bool
    ensures { result ≡ le (absolute (of_bits binary32 nx)) (fin false 1 (negsuc 53)) }
{
    nx % 0x8000_0000 <= 0x2480_0000
}

// What `as_written` answers for the f32s of the patterns nx and ny: by the filter where it settles the
// answer. An x that is absorbed is told first, since the processor then need not wait for a logarithm to
// know the way. nx and ny are those of `f_compoundf`. Each case of `Found` has an arm, since each makes
// another answer of it: a closure or a table would say the cases once more.
pub(crate) fn table_path(nx: u32, ny: u32) -> Answer
    requires { Tabled (of_bits binary32 nx) (of_bits binary32 ny) }
    ensures { outcome result ≡ spec.table_path (of_bits binary32 nx) (of_bits binary32 ny) }
{
    if is_absorbed(nx) {
        return Answer::Edge(1.0);
    }
    let pair = Operands::widened(nx, ny);
    match filtered(pair) {
        Some(Found::Fast(v)) => Answer::Fast(v),
        Some(Found::Slow) => Answer::Slow(slow_answer(pair)),
        Some(Found::Low) => Answer::Edge(0.0),
        Some(Found::High) => Answer::Edge(f32::INFINITY),
        Some(Found::One) => Answer::Edge(1.0),
        None => as_written(pair),
    }
}
