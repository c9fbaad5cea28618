// Reading and writing with patience. Where a signal interrupts a read or a write, the same is tried
// again; where a pipe that does not block has nothing to read yet, or no room, it is tried again after a
// pause. Any other failure ends the run.
ghost use Rattle.std.specs.Prelude.{◌≡◌, ℕ, IfErr, OnOk, take};
ghost use Rattle.std.specs.Io.{ReadsAtMost};
ghost use Rattle.std.specs.Io.KnownBytes.{Appends, ReadConsumes};
ghost use Rattle.fade.specs.Stream.{settled, GivenUp, ReadAgain, WriteAgain};

use std::io::{ErrorKind, Read, Write};
use std::rt::Clock;
use std::time::Duration;
use std::{io, thread};

// The most tries of one read or write: none comes to so many. A loop has to end, so they are counted.
const MOST_TRIES: u64 = 0xffff_ffff_ffff_ffff;

// Why a read or a write was given up.
#[derive(Clone, Copy)]
pub(crate) enum NotDone {
    Failed(io::Error),
    OutOfTries,
}

// How long a pause is, in milliseconds.
const PAUSE: u64 = 5;

// What a read or a write answered, or nothing where the same is to be tried again. Before that a pipe
// that is not ready gets a pause.
fn settled(rt: &impl Clock, answer: io::Result<usize>) -> Option<io::Result<usize>>
    ensures { result ≡ settled answer }
{
    let Err(error) = answer else {
        return Some(answer);
    };
    match error.kind() {
        ErrorKind::Interrupted => None,
        ErrorKind::WouldBlock => {
            thread::sleep(rt, Duration::from_millis(PAUSE));
            None
        }
        _ => Some(answer),
    }
}

// Reads what comes, once something has come.
pub(crate) fn read_some<R: Read>(
    rt: &impl Clock,
    input: &mut R,
    piece: &mut [u8],
) -> Result<usize, NotDone>
    ensures bound { ReadsAtMost result piece.new }
    ensures bytes { ReadConsumes (R.remaining input.old) (R.remaining input.new) result piece.new }
    ensures given_up { IfErr result (GivenUp ReadAgain) }
{
    for _tries in 0..MOST_TRIES {
        if let Some(answer) = settled(rt, input.read(piece)) {
            return answer.map_err(NotDone::Failed);
        }
    }
    Err(NotDone::OutOfTries)
}

// Writes a whole text, or fails and has written a front of it.
pub(crate) fn write_whole<W: Write>(
    rt: &impl Clock,
    output: &mut W,
    text: &[u8],
) -> Result<(), NotDone>
    ensures front { (k : ℕ) × Appends (W.contents output.old) (W.contents output.new) (take k text.now) }
    ensures whole { OnOk result (Appends (W.contents output.old) (W.contents output.new) text.now) }
    ensures given_up { IfErr result (GivenUp WriteAgain) }
{
    let mut rest = text;
    for _tries in 0..MOST_TRIES {
        if rest.is_empty() {
            return Ok(());
        }
        match settled(rt, output.write(rest)) {
            None => {}
            Some(Ok(0)) => return Err(NotDone::Failed(io::Error::from(ErrorKind::WriteZero))),
            Some(Ok(n)) => rest = &rest[n..],
            Some(Err(error)) => return Err(NotDone::Failed(error)),
        }
    }
    Err(NotDone::OutOfTries)
}
