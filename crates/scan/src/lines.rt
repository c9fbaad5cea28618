// The complete lines of some bytes, one after another.
ghost use Rattle.std.specs.Iterator.{item_count};
ghost use Rattle.scan.specs.Complete.{lines, NextLine};

use crate::line_end;

// The complete lines that are still to come, each without its feed. After the last of them `rest` is
// what follows the last line feed: the unfinished tail.
#[derive(Drop)]
pub struct Lines<'a> {
    pub rest: &'a [u8],
}

impl<'a> Iterator for Lines<'a> {
    type Item = &'a [u8];

    ghost next_gives = { λ s r t. NextLine s.rest.now r t.rest.now };

    ghost remaining = { item_count (λ s. lines s.rest.now) };

    fn next(&mut self) -> Option<&'a [u8]> {
        let (line, after) = self.rest.split_at(line_end(self.rest));
        let (_, rest) = after.split_first()?;
        self.rest = rest;
        Some(line)
    }
}
