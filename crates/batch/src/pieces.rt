// A whole input, fed in pieces: a caller of `feed` whose contract follows from demand 3. Nothing here
// needs it; it is proved to show that demand 3 is enough for a caller.
ghost use Rattle.batch.specs.Series.{InPieces};

use crate::{Fed, State, feed};

// Feeds an input from a fresh state, in pieces of at most `size` bytes (0 counts as 1), and writes the
// answer lines one after another to the front of `out`. It ends with the first piece that is refused.
// What was taken is as if it had been fed whole, wherever it was cut. The place `at` is counted, since how
// many bytes were written is what it answers.
pub(crate) fn feed_in_pieces(input: &[u8], size: usize, out: &mut [u8]) -> Fed
    ensures { InPieces input.now out.old result out.new }
{
    let mut state = State::fresh();
    let mut at = 0;
    for piece in input.chunks(size.max(1)) {
        let fed = feed(state, piece, &mut out[at..]);
        let Ok(wrote) = fed.verdict else {
            return fed;
        };
        state = fed.state;
        at += wrote;
    }
    Fed {
        state,
        verdict: Ok(at),
    }
}
