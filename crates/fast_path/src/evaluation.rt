// The polynomials of the logarithm and of the power of two, over any way to work out a * b + c.
ghost use Rattle.std.specs.Prelude.{◌≡◌, ◌<◌, T, to_bits, Float};
ghost use Rattle.std.specs.Float.{binary64};
ghost use Rattle.std.specs.Float.Ieee.{lt};
ghost use Rattle.floats.specs.Operations.{◌⊗◌};
ghost use Rattle.tables.specs.Tables.{pair_entry, compoundf_exp2_u};
ghost use Rattle.special.specs.Special.{minus_one};
ghost use Rattle.fast_path.specs.Fast as spec;

use crate::inverse::WithInverse;
use crate::scaling::{exponent, reduced};
use std::num::f64_to_bits_with_nan;
use tables::{CompoundfExp2U, Log2p1CompoundfLog2Inv, PairTable, PolyP, PolyQ, Table};

// A way to work out a * b + c. The three are parameters, as in the source.
pub trait MulAdd {
    ghost mul_add: { Float → Float → Float → Float };

    fn mul_add(a: f64, b: f64, c: f64) -> f64
        ensures { result ≡ mul_add a b c };

    // r * t - 1 for the inverse r of t.
    fn times_minus_one(v: WithInverse) -> f64
        ensures { result ≡ mul_add v.r v.t minus_one };
}

// What z is multiplied by near log2(1 + z), for |z| <= 1/64.
#[tactic(auto, unfolding(crate::specs::Fast::factor))]
pub fn factor<M: MulAdd>(z: f64) -> f64
    ensures { result ≡ spec.factor M.mul_add z }
{
    let z2 = z * z;
    let c5 = M::mul_add(PolyP::at(6), z, PolyP::at(5));
    let c3 = M::mul_add(PolyP::at(4), z, PolyP::at(3));
    let c1 = M::mul_add(PolyP::at(2), z, PolyP::at(1));
    let z4 = z2 * z2;
    let c5 = M::mul_add(PolyP::at(7), z2, c5);
    let c1 = M::mul_add(c3, z2, c1);
    M::mul_add(c5, z4, c1)
}

// Near log2(1 + x). That x is above -1 is asked for here and in `compoundf_log2p1_fast`: a `Base` would
// ask that it is a finite f32's too.
#[tactic(auto, using(crate::proofs::OnePlus::one_plus), unfolding(crate::specs::Fast::log2p1))]
pub fn log2p1<M: MulAdd>(x: f64) -> f64
    requires { T (lt minus_one x) }
    ensures { result ≡ spec.log2p1 M.mul_add x }
{
    let u = 1.0 + x;
    let v = f64::to_bits(u);
    // u = 2^e * t with 1/sqrt(2) < t < sqrt(2), thus log2(u) = e + log2(t)
    let t = WithInverse::of(f64::from_bits(reduced(v)));
    let z = M::times_minus_one(t);
    // log2(t) is -log2(r) + log2(r * t)
    let p = z * factor::<M>(z);
    let log2_inv = Log2p1CompoundfLog2Inv::at(t.index);
    exponent(v) + (log2_inv.hi + p)
}

// Near 2^z for |z| <= 2^-6.
#[tactic(auto, unfolding(crate::specs::Fast::expf_poly))]
pub fn expf_poly<M: MulAdd>(z: f64) -> f64
    ensures { result ≡ spec.expf_poly M.mul_add z }
{
    let z2 = z * z;
    let c3 = M::mul_add(PolyQ::at(4), z, PolyQ::at(3));
    let c0 = M::mul_add(PolyQ::at(1), z, PolyQ::at(0));
    let c2 = M::mul_add(c3, z, PolyQ::at(2));
    M::mul_add(c2, z2, c0)
}

// The pattern of the power of index i times a number near 2^rest.
pub fn power<M: MulAdd>(i: u64, rest: f64) -> u64
    requires { i < 33 }
    ensures { result ≡ to_bits binary64 ((pair_entry compoundf_exp2_u i).hi ⊗ spec.expf_poly M.mul_add rest) }
{
    let q = expf_poly::<M>(rest);
    f64_to_bits_with_nan(CompoundfExp2U::at(i).hi * q)
}
