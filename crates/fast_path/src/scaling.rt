// The exponent's field of a pattern: k added to it, wrapping, and what it says of a number.
ghost use Rattle.std.specs.Prelude.{◌≡◌, ◌*◌, ◌^◌, ◌<◌, neg_ℤ};
ghost use Rattle.std.specs.Float.{binary64};
ghost use Rattle.std.specs.Float.Ieee.{of_int};
ghost use Rattle.fast_path.specs.Scaling as spec;

// v + k * 2^52, wrapping: the pattern v with its number times 2^k, where that is a normal number.
#[tactic(auto, unfolding(crate::specs::Scaling::scaled))]
pub fn scaled(v: u64, k: i64) -> u64
    ensures { result ≡ spec.scaled v k }
{
    v.wrapping_add(k.cast_unsigned().wrapping_mul(0x10_0000_0000_0000))
}

// The exponent's field of v, one more where the digits are those of sqrt(2) or above.
#[tactic(auto, unfolding(crate::specs::Scaling::biased))]
pub fn biased(v: u64) -> u64
    ensures { result ≡ spec.biased v }
{
    let e = v / 0x10_0000_0000_0000;
    if v % 0x10_0000_0000_0000 >= 0x6_a09e_667f_3bcd {
        e + 1
    } else {
        e
    }
}

// The source's e, as an f64, for the pattern v.
#[tactic(auto, using(crate::proofs::Field::field), unfolding(crate::specs::Scaling::exponent_of))]
pub fn exponent(v: u64) -> f64
    requires { v < 2 ^ 63 }
    ensures { result ≡ of_int binary64 (spec.exponent_of v) }
{
    (biased(v) as i64 - 0x3ff) as f64
}

// The pattern v without its e: the number between 1/sqrt(2) and sqrt(2) that has the same digits.
#[tactic(auto, using(crate::proofs::Index::reduced))]
pub fn reduced(v: u64) -> u64
    requires { v < 2 ^ 63 }
    ensures { result ≡ spec.scaled v (neg_ℤ (spec.exponent_of v)) }
{
    v + 0x3ff0_0000_0000_0000 - biased(v) * 0x10_0000_0000_0000
}
