// The special operands: a translation of `as_compoundf_special` of pxfm 0.1.30 (NOTICE), and the test
// for them that `f_compoundf` makes. x and y are two parameters, as in the source.
#![tactic(auto)]

ghost use Rattle.std.specs.Prelude.{◌≡◌, ◌<◌, ◌≤◌};
ghost use Rattle.std.specs.Float.{binary32};
ghost use Rattle.std.specs.Float.Ieee.{of_bits};
ghost use Rattle.special.specs.Special.{is_rule, special};
ghost use Rattle.special.specs.Rank as spec;

pub mod operands;

// Where a magnitude stands, by its pattern m: 0 for a zero, 1 below the limit, 2 at it, 3 above it. The
// tests are counted, since the processor could not foresee a branch on them.
#[tactic(auto, unfolding(crate::specs::Rank::rank))]
fn rank(m: u32, limit: u32) -> u32
    requires { 0 < limit }
    ensures value { result ≡ spec.rank m limit }
    ensures bound { result ≤ 3 }
{
    (m > 0) as u32 + (m >= limit) as u32 + (m > limit) as u32
}

const NAN: f32 = f32::NAN;

const INF: f32 = f32::INFINITY;

// The answer of the special table, for the patterns of x and y. There are eight classes of x, by the
// sign and the rank: +0, above 0 and finite, +infinity, NaN; -0, between -1 and 0, -1, below -1 or NaN.
// For each of them the arms have the eight classes of y: +0, above 0 and finite, +infinity, NaN; -0,
// below 0 and finite, -infinity, NaN. Where no row of the table fits it is a NaN, but `f_compoundf`
// does not ask then. Document 01 asks for a match over numbered classes; with an arm for each pair it is
// one lookup.
pub fn as_compoundf_special(nx: u32, ny: u32) -> f32
    ensures { result ≡ special (of_bits binary32 nx) (of_bits binary32 ny) }
{
    let sx = nx / 0x8000_0000;
    let sy = ny / 0x8000_0000;
    let x = sx * 4 + rank(nx % 0x8000_0000, 0x7f80_0000 - sx * 0x4000_0000);
    let y = sy * 4 + rank(ny % 0x8000_0000, 0x7f80_0000);
    match x * 8 + y {
        0 => 1.0,
        1 => 1.0,
        2 => 1.0,
        3 => NAN,
        4 => 1.0,
        5 => 1.0,
        6 => 1.0,
        7 => NAN,
        8 => 1.0,
        9 => NAN,
        10 => INF,
        11 => NAN,
        12 => 1.0,
        13 => NAN,
        14 => 0.0,
        15 => NAN,
        16 => 1.0,
        17 => INF,
        18 => INF,
        19 => NAN,
        20 => 1.0,
        21 => 0.0,
        22 => 0.0,
        23 => NAN,
        24 => NAN,
        25 => NAN,
        26 => NAN,
        27 => NAN,
        28 => NAN,
        29 => NAN,
        30 => NAN,
        31 => NAN,
        32 => 1.0,
        33 => 1.0,
        34 => 1.0,
        35 => NAN,
        36 => 1.0,
        37 => 1.0,
        38 => 1.0,
        39 => NAN,
        40 => 1.0,
        41 => NAN,
        42 => 0.0,
        43 => NAN,
        44 => 1.0,
        45 => NAN,
        46 => INF,
        47 => NAN,
        48 => 1.0,
        49 => 0.0,
        50 => 0.0,
        51 => NAN,
        52 => 1.0,
        53 => INF,
        54 => INF,
        55 => NAN,
        56 => NAN,
        57 => NAN,
        58 => NAN,
        59 => NAN,
        60 => NAN,
        61 => NAN,
        62 => NAN,
        _ => NAN,
    }
}

// Whether x and y take the route `rule`, as `f_compoundf` has it: x <= -1 or a negative NaN, or one
// of the two a zero, an infinity or a NaN.
#[tactic(auto, using(crate::proofs::Rule::rule_of_patterns))]
pub fn is_rule(nx: u32, ny: u32) -> bool
    ensures { result ≡ is_rule (of_bits binary32 nx) (of_bits binary32 ny) }
{
    let ax = nx % 0x8000_0000;
    let ay = ny % 0x8000_0000;
    (nx >= 0xbf80_0000) | (ax == 0) | (ax >= 0x7f80_0000) | (ay == 0) | (ay >= 0x7f80_0000)
}
