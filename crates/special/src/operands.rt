// The operands past the route `rule`, as f64s.
ghost use Rattle.std.specs.Prelude.{◌≡◌};
ghost use Rattle.std.specs.Float.{binary32};
ghost use Rattle.std.specs.Float.Ieee.{of_bits};
ghost use Rattle.special.specs.Operands.{IsBase, Tabled};

use floats::patterns::widen_bits;

// x alone: the f64 of a finite f32 above -1.
#[derive(Clone, Copy)]
pub struct Base {
    pub x: f64,
    ghost is_base: { IsBase x },
}

// x and y: the f64s of two finite f32s, x above -1.
#[derive(Clone, Copy)]
pub struct Operands {
    pub x: f64,
    pub y: f64,
    ghost tabled: { Tabled x y },
}

impl Operands {
    // Those of the patterns nx and ny, which are two parameters up to here, as in the source.
    pub fn widened(nx: u32, ny: u32) -> Self
        requires { Tabled (of_bits binary32 nx) (of_bits binary32 ny) }
        ensures x { result.x ≡ of_bits binary32 nx }
        ensures y { result.y ≡ of_bits binary32 ny }
    {
        Operands {
            x: widen_bits(nx),
            y: widen_bits(ny),
        }
    }

    // x alone.
    pub fn base(self) -> Base
        ensures { result.x ≡ self.x }
    {
        Base { x: self.x }
    }
}
