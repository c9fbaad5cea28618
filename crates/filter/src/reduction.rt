// t as a whole number, a number of 32nds, and what is left.
ghost use Rattle.std.specs.Prelude.{◌≡◌, ◌<◌, false, cond, T};
ghost use Rattle.std.specs.Float.Ieee.{eq, lt, to_signed};
ghost use Rattle.floats.specs.Narrowing.{nearest_whole};
ghost use Rattle.special.specs.Special.{zero};
ghost use Rattle.fast_path.specs.Edges.{lower_edge, upper_edge};
ghost use Rattle.fast_path.specs.Scaling.{scaled};
ghost use Rattle.fast_path.specs.Fast.{power_index};
ghost use Rattle.filter.specs.Plain as spec;
ghost use Rattle.std.specs.declared.option.Option.TheVariants.{Some, None};

use crate::plain::Plain;
use fast_path::evaluation::power;
use fast_path::power_index;
use fast_path::scaling::scaled;
use floats::common::is_within;
use floats::rounding::round_ties_even_small;
use tables::{CompoundfExp2T, Table};

// The nearest whole number k to t; what is left of t over it; the index of the nearest 32nd to that; and
// what is left over both.
#[derive(Clone, Copy)]
pub struct Reduction {
    pub k: i64,
    pub part: f64,
    pub index: u64,
    pub rest: f64,
    ghost index_below: { index < 33 },
}

impl Reduction {
    // Of a t from -150 to 128 that is not 0. No type says so: it would be made for this one call.
    #[tactic(auto, using(crate::proofs::NotZero::reduction), unfolding(crate::specs::Plain::rest_of))]
    pub fn of(t: f64) -> Reduction
        requires t_above { T (lt lower_edge t) }
        requires t_below { T (lt t upper_edge) }
        requires not_zero { eq t zero ≡ false }
        ensures k { result.k ≡ to_signed 63 (nearest_whole t) }
        ensures part { result.part ≡ spec.part_of t }
        ensures index { result.index ≡ power_index (spec.part_of t) }
        ensures rest { result.rest ≡ spec.rest_of t }
    {
        let k = round_ties_even_small(t);
        let part = t - k;
        let index = power_index(part);
        Reduction {
            k: k as i64,
            part,
            index,
            rest: part - CompoundfExp2T::at(index),
        }
    }

    // Whether k and the index stay the same within `gap` of t: k switches at a half, and the index at a
    // 64th.
    fn is_clear(self, gap: f64) -> bool
        ensures { result ≡ spec.clear_of_switches gap self.part self.rest }
    {
        is_within(self.part, 0.5 - gap) & clear_of_index(self.rest, gap)
    }

    // The plain pattern of 2 to the power of what is left of t over k.
    fn plain_power(self) -> u64
        ensures { result ≡ spec.power_at self.index self.rest }
    {
        power::<Plain>(self.index, self.rest)
    }

    // The plain pattern of 2^t, where k and the index stay the same within `gap` of t.
    pub fn pattern(self, gap: f64) -> Option<u64>
        ensures { result ≡ cond (spec.clear_of_switches gap self.part self.rest)
            (Some (scaled (spec.power_at self.index self.rest) self.k)) None }
    {
        if self.is_clear(gap) {
            Some(scaled(self.plain_power(), self.k))
        } else {
            None
        }
    }
}

// Whether no switch of the index is within `gap`.
pub fn clear_of_index(rest: f64, gap: f64) -> bool
    ensures { result ≡ spec.clear_of_index gap rest }
{
    is_within(rest, 0.015625 - gap)
}
