// Checks `feed` and `close` on a small batch that it reads from standard input. The batch is fed
// whole, and the answers are printed: the file stdout, made from the Rust, holds them to the Rust's.
// Then the batch is fed cut in two at every place, with outputs that are long, just long enough, a
// byte short and empty, and then byte by byte; then come states made by hand. The answers expected of
// a part are those that the whole feed printed, and the states expected are told from the bytes of
// the batch and from these answers as text. A group of checks prints how many it made and how many
// were wrong, and of the first wrong ones what differs.
#![tactic(auto)]

mod compare;
mod cut;
mod expected;
mod made;
mod report;
mod single;

ghost use Rattle.std.specs.Prelude.{◌≤◌, length};

use crate::cut::{check_bytes, check_places, check_whole};
use crate::expected::Batch;
use crate::made::{check_broken, check_closes, check_most};
use crate::report::print_group;
use batch::State;
use std::io::Read;

// The most bytes of the batch, and the bytes of a long output.
pub const ROOM: usize = 2048;

// What stands in an output before a feed.
pub const MARK: u8 = 0xaa;

// Reads until the array is full, the input ends or a read fails, and answers how many bytes it put at
// the front. Nothing is counted here but what was read: the library's `read_to_end` needs a heap.
fn read_full(input: &mut impl Read, buf: &mut [u8]) -> usize
    ensures { result ≤ length buf.new }
{
    let mut done = 0;
    while done < buf.len() {
        let got = input.read(&mut buf[done..]).unwrap_or(0);
        if got == 0 {
            break;
        }
        done += got;
    }
    done
}

// Reads the batch, prints its answers, makes the checks and prints what they found. Where something cannot
// be printed, what comes after it is checked and printed all the same.
fn main(rt: HostRuntime) {
    let mut bytes = [0u8; ROOM];
    let mut out = [MARK; ROOM];
    let n = read_full(&mut rt.stdin(), &mut bytes);
    let input = &bytes[..n];
    let fed = batch::feed(State::fresh(), input, &mut out);
    let answers = out.get(..fed.verdict.unwrap_or(0)).unwrap_or(&out[..]);
    let _ = rt.write_all(answers);
    let batch = Batch { input, answers };
    print_group(&rt, "whole", &check_whole(&batch));
    print_group(&rt, "cut in two", &check_places(&batch));
    print_group(&rt, "byte by byte", &check_bytes(&batch));
    print_group(&rt, "broken states", &check_broken());
    print_group(&rt, "most lines", &check_most());
    print_group(&rt, "close", &check_closes());
}
