// The slow part of the table path, in double-doubles. A translation of `compoundf.rs` of pxfm 0.1.30
// (NOTICE); names and the order of the operations are the source's.
#![tactic(auto)]

ghost use Rattle.std.specs.Prelude.{◌≡◌, ◌<◌};
ghost use Rattle.floats.specs.Narrowing.{nearest_whole};
ghost use Rattle.slow_path.specs.Slow as spec;

use double_double::DoubleDouble;
use fast_path::DdFmla;
use fast_path::evaluation::MulAdd;
use fast_path::inverse::WithInverse;
use fast_path::scaling::{biased, exponent, scaled};
use floats::narrowing::narrow;
use floats::rounding::round_ties_even;
use fmla::fmla;
use special::operands::Base;
use std::num::{f64_from_bits_with_nan, f64_to_bits_with_nan};
use tables::{
    CompoundfExp2T, CompoundfExp2U, Log2p1CompoundfLog2Inv, Log2p1Log2Poly, Log2p1Scale, PairTable,
    PolyQ2, Table,
};

// v with t, the sum of its hi and a coefficient's, and with the coefficient's lo added to its own.
#[tactic(auto, unfolding(crate::specs::Slow::with_term))]
fn with_term(v: DoubleDouble, t: DoubleDouble, lo: f64) -> DoubleDouble
    ensures { result ≡ spec.with_term v t lo }
{
    DoubleDouble {
        lo: v.lo + (t.lo + lo),
        hi: t.hi,
    }
}

// The coefficient in entries i and i + 1 added to v, and the sum times z.
#[tactic(auto, unfolding(crate::specs::Slow::next_log2))]
fn next_log2(v: DoubleDouble, z: DoubleDouble, i: u64) -> DoubleDouble
    requires { i < 17 }
    ensures { result ≡ spec.next_log2 v z i }
{
    let t = DoubleDouble::from_exact_add(v.hi, Log2p1Log2Poly::at(i));
    DoubleDouble::quick_mult(with_term(v, t, Log2p1Log2Poly::at(i + 1)), z)
}

// The higher coefficients of `log2_poly2`. As in the source each turn drops h, so that only the last
// one counts.
#[tactic(auto, unfolding(crate::specs::Slow::higher))]
fn higher(z: f64) -> f64
    ensures { result ≡ spec.higher z }
{
    let mut h = Log2p1Log2Poly::at(17);
    for i in 7u64..=12 {
        h = fmla(z, z, Log2p1Log2Poly::at(4 + i));
    }
    h
}

// Near log2(1 + z).
#[tactic(auto, unfolding(crate::specs::Slow::log2_poly2))]
fn log2_poly2(z: DoubleDouble) -> DoubleDouble
    ensures { result ≡ spec.log2_poly2 z }
{
    let h = higher(z.hi);
    let v = DoubleDouble::quick_mult_f64(z, h);
    let t = DoubleDouble::from_exact_add(v.hi, Log2p1Log2Poly::at(10));
    let sum = DoubleDouble {
        lo: v.lo + t.lo,
        hi: t.hi,
    };
    let mut v = DoubleDouble::quick_mult(sum, z);
    for i in [8u64, 6, 4, 2, 0] {
        v = next_log2(v, z, i);
    }
    v
}

// 2^-53.
const LEAST_KEPT: f64 = f64::from_bits(0x3ca0_0000_0000_0000);

// 1 + x. The source narrows x before it takes |x|, which changes nothing.
#[tactic(auto, unfolding(crate::specs::Slow::one_plus))]
fn one_plus(base: Base) -> DoubleDouble
    ensures { result ≡ spec.one_plus base.x }
{
    let x = base.x;
    if 1.0 >= x {
        // then 1.0 >= |x| since x > -1
        if x.abs() >= LEAST_KEPT {
            DoubleDouble::from_exact_add(1.0, x)
        } else {
            DoubleDouble { lo: x, hi: 1.0 }
        }
    } else {
        DoubleDouble::from_exact_add(x, 1.0)
    }
}

// e + a + b.
#[tactic(auto, unfolding(crate::specs::Slow::sum_of_logs))]
fn sum_of_logs(e: f64, a: DoubleDouble, b: DoubleDouble) -> DoubleDouble
    ensures { result ≡ spec.sum_of_logs e a b }
{
    let s = DoubleDouble::from_exact_add(e, a.hi);
    let s_lo = s.lo + a.lo;
    let sum = DoubleDouble::from_exact_add(s.hi, b.hi);
    DoubleDouble {
        lo: sum.lo + (s_lo + b.lo),
        hi: sum.hi,
    }
}

// e + log2(t + lo).
#[tactic(auto, unfolding(crate::specs::Slow::log2_reduced, crate::specs::Slow::times_inverse))]
fn log2_reduced(e: f64, t: WithInverse, lo: f64) -> DoubleDouble
    ensures { result ≡ spec.log2_reduced e (record { lo = lo; hi = t.t }) }
{
    // r * (t + lo) - 1
    let z = DoubleDouble::from_exact_add(DdFmla::times_minus_one(t), t.r * lo);
    let log_p = log2_poly2(z);
    sum_of_logs(e, Log2p1CompoundfLog2Inv::at(t.index), log_p)
}

// Near log2(1 + x). The source says that the relative error is below 2^-91.123; `higher` does not bear
// that out, and nothing here rests on it.
#[tactic(auto, unfolding(crate::specs::Slow::compoundf_log2p1_accurate))]
fn compoundf_log2p1_accurate(base: Base) -> DoubleDouble
    ensures { result ≡ spec.compoundf_log2p1_accurate base.x }
{
    let v = one_plus(base);
    let bits = f64_to_bits_with_nan(v.hi);
    // 2^-e
    let scale = Log2p1Scale::at(biased(bits) + 29 - 1023);
    let t = WithInverse::of(v.hi * scale);
    log2_reduced(exponent(bits), t, v.lo * scale)
}

// q times z, and added to the coefficient in entries i and i + 1.
#[tactic(auto, unfolding(crate::specs::Slow::next_exp2))]
fn next_exp2(q: DoubleDouble, z: DoubleDouble, i: u64) -> DoubleDouble
    requires { i < 11 }
    ensures { result ≡ spec.next_exp2 q z i }
{
    let m = DoubleDouble::quick_mult(q, z);
    let t = DoubleDouble::from_exact_add(PolyQ2::at(i), m.hi);
    with_term(m, t, PolyQ2::at(i + 1))
}

// The terms of `compoundf_exp2_poly2` of degree 4 and above, divided by z^4.
#[tactic(auto, unfolding(crate::specs::Slow::highest_exp2))]
fn highest_exp2(z: f64) -> DoubleDouble
    ensures { result ≡ spec.highest_exp2 z }
{
    let h2 = z * z;
    let c7 = fmla(PolyQ2::at(11), z, PolyQ2::at(10));
    let c5 = fmla(PolyQ2::at(9), z, PolyQ2::at(8));
    let c5 = fmla(c7, h2, c5);
    let z_vqh = c5 * z;
    DoubleDouble::from_exact_add(PolyQ2::at(7), z_vqh)
}

// Near 2^z.
#[tactic(auto, unfolding(crate::specs::Slow::compoundf_exp2_poly2))]
fn compoundf_exp2_poly2(z: DoubleDouble) -> DoubleDouble
    ensures { result ≡ spec.compoundf_exp2_poly2 z }
{
    let mut q = highest_exp2(z.hi);
    for i in [5u64, 3, 1] {
        q = next_exp2(q, z, i);
    }
    let q = DoubleDouble::quick_mult(q, z);
    let t = DoubleDouble::from_exact_add(PolyQ2::at(0), q.hi);
    DoubleDouble {
        lo: q.lo + t.lo,
        hi: t.hi,
    }
}

// The index of the nearest 32nd to r; one below 0 is 0, and one above 32 is 32.
#[tactic(auto, unfolding(crate::specs::Slow::clamped_index, fast_path::specs::Fast::power_index))]
fn clamped_index(r: f64) -> u64
    ensures { result ≡ spec.clamped_index r }
{
    let place = f64_to_bits_with_nan(3.015625 + r) / 0x4000_0000_0000;
    place.saturating_sub(0x10010).min(32)
}

// The whole number k; past 1000 or -1000 it is that end, and a NaN is 0.
#[tactic(auto, unfolding(crate::specs::Slow::clamped_k))]
fn clamped_k(k: f64) -> i64
    requires { nearest_whole k ≡ k }
    ensures { result ≡ spec.clamped_k k }
{
    if k.is_nan() {
        0
    } else {
        // + 0.0 makes 0 of -0, which has no cast. The library's saturating cast, which has one for every
        // value, is put together from the digits, and 7 % of the slow path's time longer.
        (k.clamp(-1000.0, 1000.0) + 0.0) as i64
    }
}

// The pattern of the rounding test.
#[tactic(auto, unfolding(crate::specs::Slow::test_pattern))]
fn test_pattern(q: DoubleDouble, err: f64, k: i64) -> u64
    ensures { result ≡ spec.test_pattern q err k }
{
    let w = f64_to_bits_with_nan(q.hi);
    // whether the last 28 bits are -1, 0 or 1
    if w.wrapping_add(1) % 0x1000_0000 <= 2 {
        scaled(f64_to_bits_with_nan(q.hi + (q.lo + err)), k)
    } else {
        w
    }
}

// Whether w has 28 zeros at its end and q.lo was lost in v.
#[tactic(auto, unfolding(crate::specs::Slow::is_lost))]
fn is_lost(q: DoubleDouble, w: u64, v: u64) -> bool
    ensures { result ≡ spec.is_lost q w v }
{
    w % 0x1000_0000 == 0 && f64_from_bits_with_nan(v) == q.hi && q.lo != 0.0
}

// v moved by one, up where lo is above 0, else down.
#[tactic(auto, unfolding(crate::specs::Slow::one_towards))]
fn one_towards(v: u64, lo: f64) -> u64
    ensures { result ≡ spec.one_towards v lo }
{
    if lo > 0.0 {
        v.wrapping_add(1)
    } else {
        v.wrapping_sub(1)
    }
}

// The pattern of q.hi + q.lo, and where q.lo was lost, one towards it.
#[tactic(auto, unfolding(crate::specs::Slow::rounded_to_odd))]
fn rounded_to_odd(q: DoubleDouble, w: u64) -> u64
    ensures { result ≡ spec.rounded_to_odd q w }
{
    let v = f64_to_bits_with_nan(q.hi + q.lo);
    if is_lost(q, w, v) {
        one_towards(v, q.lo)
    } else {
        v
    }
}

// q.hi + q.lo, rounded once, times 2^k.
#[tactic(auto, unfolding(crate::specs::Slow::scaled_to_f32))]
fn scaled_to_f32(q: DoubleDouble, err: f64, k: i64) -> f32
    ensures { result ≡ spec.scaled_to_f32 q err k }
{
    let w = test_pattern(q, err, k);
    let v = rounded_to_odd(q, w);
    narrow(f64_from_bits_with_nan(scaled(v, k)))
}

// 2^(v.hi + v.lo), by the power of index i and the polynomial.
#[tactic(auto, unfolding(crate::specs::Slow::exp2_product))]
fn exp2_product(v: DoubleDouble, i: u64) -> DoubleDouble
    requires { i < 33 }
    ensures { result ≡ spec.exp2_product v i }
{
    let rest = DoubleDouble::from_exact_add(v.hi - CompoundfExp2T::at(i), v.lo);
    let p = compoundf_exp2_poly2(rest);
    let q = DoubleDouble::quick_mult(CompoundfExp2U::at(i), p);
    DoubleDouble::from_exact_add(q.hi, q.lo)
}

// The source's ERR, and up to which h the smaller one holds: 2^-9.
const ERR: f64 = f64::from_bits(0x3abb_1000_0000_0000);

const SMALL_ERR: f64 = f64::from_bits(0x3a2d_8000_0000_0000);

const SMALL: f64 = f64::from_bits(0x3f60_0000_0000_0000);

// The bound on the error of `exp2_product`, h being its exponent, k the nearest whole value to that and
// i the index.
#[tactic(auto, unfolding(crate::specs::Slow::err_of, crate::specs::Slow::is_small))]
fn err_of(k: f64, i: u64, h: f64) -> f64
    ensures { result ≡ spec.err_of (spec.is_small k i h) }
{
    if k == 0.0 && i == 16 && h <= SMALL {
        SMALL_ERR
    } else {
        ERR
    }
}

// 2^(t.hi + t.lo) for a whole k, where it is not so near 1 that it rounds to 1.
#[tactic(auto, using(crate::proofs::Clamped::clamped_index_below), unfolding(crate::specs::Slow::exp2_away))]
fn exp2_away(t: DoubleDouble, k: f64) -> f32
    requires { nearest_whole k ≡ k }
    ensures { result ≡ spec.exp2_away t k }
{
    let v = DoubleDouble::from_exact_add(t.hi - k, t.lo);
    let i = clamped_index(v.hi);
    let q = exp2_product(v, i);
    scaled_to_f32(q, err_of(k, i, t.hi), clamped_k(k))
}

// 2^h rounds to 1 up to this |h|.
const ROUNDS_TO_ONE: f64 = f64::from_bits(0x3e67_1547_6af0_d4c8);

// Whether 2^h rounds to 1, k being the nearest whole value to h.
#[tactic(auto, using(crate::proofs::Steps::sizes), unfolding(crate::specs::Slow::is_near_one))]
fn is_near_one(k: f64, h: f64) -> bool
    ensures { result ≡ spec.is_near_one k h }
{
    k == 0.0 && h.abs() <= ROUNDS_TO_ONE
}

// 2^(t.hi + t.lo), rounded to f32.
#[tactic(auto, unfolding(crate::specs::Slow::exp2_accurate))]
fn exp2_accurate(t: DoubleDouble) -> f32
    ensures { result ≡ spec.exp2_accurate t }
{
    let k = round_ties_even(t.hi);
    if is_near_one(k, t.hi) {
        narrow(1.0 + t.hi * 0.5)
    } else {
        exp2_away(t, k)
    }
}

// (1 + x)^y for the route `slow`, y being the f64 of an f32.
#[tactic(auto, using(crate::proofs::Steps::narrowings), unfolding(crate::specs::Slow::compoundf_accurate))]
pub fn compoundf_accurate(base: Base, y: f64) -> f32
    ensures { result ≡ spec.compoundf_accurate base.x y }
{
    if y == 1.0 {
        1.0 + narrow(base.x)
    } else {
        let l = compoundf_log2p1_accurate(base);
        exp2_accurate(DoubleDouble::quick_mult_f64(l, y))
    }
}
