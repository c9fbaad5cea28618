// A number that has an inverse in the table, with that inverse.
ghost use Rattle.std.specs.Prelude.{◌≡◌};
ghost use Rattle.tables.specs.Tables.{entry, log2p1_compoundf_inv};
ghost use Rattle.fast_path.specs.Fast.{HasInverse, inverse_index};

use crate::inverse_index;
use tables::{Log2p1CompoundfInv, Table};

// t; the index of its inverse; and the inverse r, near 1 / t, which has at most nine digits.
#[derive(Clone, Copy)]
pub struct WithInverse {
    pub t: f64,
    pub index: u64,
    pub r: f64,
    ghost has_inverse: { HasInverse t },
    ghost index_is: { index ≡ inverse_index t },
    ghost r_is: { r ≡ entry log2p1_compoundf_inv (inverse_index t) },
}

impl WithInverse {
    // t with the inverse that it has.
    pub fn of(t: f64) -> WithInverse
        requires { HasInverse t }
        ensures { result.t ≡ t }
    {
        let index = inverse_index(t);
        WithInverse {
            t,
            index,
            r: Log2p1CompoundfInv::at(index),
        }
    }
}
