// Double-doubles: a pair of f64, lo and hi, and the operations on it that the compound function
// uses. A translation of the non-fma branch of `double_double.rs` and of `dd_fmla` in `common.rs`
// of pxfm 0.1.30 (NOTICE); names and the order of the operations are the source's. Each contract
// says that the result is the definition's in specs/DoubleDouble.antt, at every pair of f64.
// `quick_mult` and `quick_mult_f64` differ in their operations, and so do the two exact adds. The
// operands a, b and c are parameters, here and in `fmla`, as the source has them.
#![tactic(auto)]

ghost use Rattle.std.specs.Prelude.{◌≡◌};
ghost use Rattle.double_double.specs.DoubleDouble as spec;

// The number is hi + lo. Laid out as in C, so that exported functions can take and return one.
#[repr(C)]
#[derive(Clone, Copy)]
pub struct DoubleDouble {
    pub lo: f64,
    pub hi: f64,
}

impl DoubleDouble {
    // a in two parts: hi is a rounded to 26 binary digits and lo the rest, where nothing overflows;
    // that is not proved here.
    pub fn split(a: f64) -> DoubleDouble
        ensures { result ≡ spec.split a }
    {
        // 2^27 + 1
        let t1 = 134217729.0 * a;
        let t2 = a - t1;
        let r_hi = t1 + t2;
        let r_lo = a - r_hi;
        DoubleDouble { lo: r_lo, hi: r_hi }
    }

    // a * b and its error, which is exact where nothing overflows or underflows; that it is exact is
    // not proved here.
    #[tactic(auto, unfolding(crate::specs::DoubleDouble::from_exact_mult))]
    pub fn from_exact_mult(a: f64, b: f64) -> DoubleDouble
        ensures { result ≡ spec.from_exact_mult a b }
    {
        let asz = DoubleDouble::split(a);
        let bs = DoubleDouble::split(b);
        let r_hi = a * b;
        let t1 = asz.hi * bs.hi - r_hi;
        let t2 = asz.hi * bs.lo + t1;
        let t3 = asz.lo * bs.hi + t2;
        let r_lo = asz.lo * bs.lo + t3;
        DoubleDouble { lo: r_lo, hi: r_hi }
    }

    // a + b and its error, which is exact for |a| >= |b| where nothing overflows; that it is exact is
    // not proved here.
    #[tactic(auto, unfolding(crate::specs::DoubleDouble::from_exact_add))]
    pub fn from_exact_add(a: f64, b: f64) -> DoubleDouble
        ensures { result ≡ spec.from_exact_add a b }
    {
        let r_hi = a + b;
        let t = r_hi - a;
        let r_lo = b - t;
        DoubleDouble { lo: r_lo, hi: r_hi }
    }

    // a + b and its error, which is exact in whichever order of size where nothing overflows; that it
    // is exact is not proved here.
    #[tactic(auto, unfolding(crate::specs::DoubleDouble::from_full_exact_add))]
    pub fn from_full_exact_add(a: f64, b: f64) -> DoubleDouble
        ensures { result ≡ spec.from_full_exact_add a b }
    {
        let r_hi = a + b;
        let t1 = r_hi - a;
        let t2 = r_hi - t1;
        let t3 = b - t1;
        let t4 = a - t2;
        let r_lo = t3 + t4;
        DoubleDouble { lo: r_lo, hi: r_hi }
    }

    // The product of two double-doubles, without the product of the two lo.
    #[tactic(auto, unfolding(crate::specs::DoubleDouble::quick_mult))]
    pub fn quick_mult(a: DoubleDouble, b: DoubleDouble) -> DoubleDouble
        ensures { result ≡ spec.quick_mult a b }
    {
        let c = DoubleDouble::from_exact_mult(a.hi, b.hi);
        let tl1 = a.hi * b.lo;
        let tl2 = a.lo * b.hi;
        let cl2 = tl1 + tl2;
        let cl3 = c.lo + cl2;
        DoubleDouble { lo: cl3, hi: c.hi }
    }

    // The product of a double-double and an f64.
    #[tactic(auto, unfolding(crate::specs::DoubleDouble::quick_mult_f64))]
    pub fn quick_mult_f64(a: DoubleDouble, b: f64) -> DoubleDouble
        ensures { result ≡ spec.quick_mult_f64 a b }
    {
        let c = DoubleDouble::from_exact_mult(a.hi, b);
        let cl2 = a.lo * b;
        let cl3 = c.lo + cl2;
        DoubleDouble { lo: cl3, hi: c.hi }
    }

    // The sum of a double-double and an f64, in whichever order of size.
    #[tactic(auto, unfolding(crate::specs::DoubleDouble::full_add_f64))]
    pub fn full_add_f64(a: DoubleDouble, b: f64) -> DoubleDouble
        ensures { result ≡ spec.full_add_f64 a b }
    {
        let t = DoubleDouble::from_full_exact_add(a.hi, b);
        let l = a.lo + t.lo;
        DoubleDouble { lo: l, hi: t.hi }
    }
}

// a * b + c by double-doubles, rounded at the end: what the source runs where there is no fma.
#[tactic(auto, unfolding(crate::specs::DoubleDouble::dd_fmla))]
pub fn dd_fmla(a: f64, b: f64, c: f64) -> f64
    ensures { result ≡ spec.dd_fmla a b c }
{
    let ddx2 = DoubleDouble::from_exact_mult(a, b);
    let zv = DoubleDouble::full_add_f64(ddx2, c);
    zv.lo + zv.hi
}
