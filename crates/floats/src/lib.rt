// Floats by their bits: widening, narrowing, the nearest whole value, and tests for a whole number and
// for a range about 0. Every public function but `narrow_number`, `subnormal_sum` and `round_ties_even_small`
// is total and has no `requires`: each is fixed by its value at every pattern, a NaN's included.
#![tactic(auto)]

pub mod common;
pub mod narrowing;
pub mod patterns;
pub mod rounding;
