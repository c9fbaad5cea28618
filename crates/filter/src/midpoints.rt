// What an f64's pattern says of the f32 that it is rounded to. Of its digits an f32 drops 29, and at a
// midpoint of two f32s these are 2^28.
ghost use Rattle.std.specs.Prelude.{◌≡◌, ◌*◌, ◌^◌, ◌<◌, ◌≤◌};
ghost use Rattle.filter.specs.Midpoints as spec;

// Whether every midpoint of two f32s is further than `margin` from the pattern w.
pub fn clear_of_midpoints(w: u64, margin: u64) -> bool
    requires w_below { w < 1148 * 2 ^ 52 }
    requires margin_below { margin < 2 ^ 28 }
    ensures { result ≡ spec.clear_of_midpoints margin w }
{
    (w + (0x1000_0000 + margin)) % 0x2000_0000 > 2 * margin
}

// The f32 that the pattern w is rounded to, where every midpoint of two f32s is further than that. The
// exponents' fields differ by 896 * 2^23. `narrow_number` is not called: it looks for ties, subnormals
// and an overflow, and there are none here.
#[tactic(auto, using(crate::proofs::Accepted::left_number), unfolding(crate::specs::Midpoints::narrowed_pattern))]
pub fn narrowed_pattern(w: u64, margin: u64) -> Option<f32>
    requires w_least { 898 * 2 ^ 52 ≤ w }
    requires w_below { w < 1148 * 2 ^ 52 }
    requires margin_below { margin < 2 ^ 28 }
    ensures { result ≡ spec.narrowed_pattern margin w }
{
    if clear_of_midpoints(w, margin) {
        let n = (w + 0x1000_0000) / 0x2000_0000 - 0x1_c000_0000;
        Some(f32::from_bits(n as u32))
    } else {
        None
    }
}
