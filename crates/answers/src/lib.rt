// What is proved of every answer of `compound`: when it is a NaN, its sign, and for whole exponents
// how near it is to the exact (1+x)^y. The claims are in specs/Claims.antt. And what no pair comes to
// on its way: specs/Reached.antt.
#![tactic(auto)]

ghost use Rattle.answers.specs.Claims.{Claims};
ghost use Rattle.answers.specs.Reached.{Reached};
ghost use Rattle.answers.specs.Unstarred.{UnstarredPairs};
ghost use Rattle.answers.specs.Witnesses.{Witnesses};

// The claims, for the pair of patterns nx and ny, and that t is a number, no index is cut and no
// k is. There is nothing to run: the contract is the theorem, and whoever calls this has it for their
// pair. The two patterns are those of `f_compoundf`.
pub fn every_answer(nx: u32, ny: u32)
    ensures claims { Claims nx ny }
    ensures reached { Reached nx ny }
{}

// No claim is empty: each condition holds at pairs that are named, and fails at others. And the rows
// of document 01's table that have no star. There is nothing to run: all of it is computed.
pub fn conditions_can_hold()
    ensures witnesses { Witnesses }
    ensures unstarred { UnstarredPairs }
{}
