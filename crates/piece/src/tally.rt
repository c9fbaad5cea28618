// Counting a reply.
ghost use Rattle.std.specs.Prelude.{◌≡◌, ◌<◌, ◌∷◌, []};
ghost use Rattle.replies.specs.Reply.{reply_of};
ghost use Rattle.state.specs.Holding.{total};
ghost use Rattle.piece.specs.Tally.{tallies_with};
ghost use Rattle.piece.specs.Piece.{most_lines};

use compound::Route;
use replies::Reply;
use state::Tallies;

// The tallies with one line more.
#[tactic(auto, unfolding(state::specs::Holding::total, crate::specs::Tally::tallies_with))]
pub(crate) fn count_reply(t: Tallies, reply: Reply) -> Tallies
    requires { total t < most_lines }
    ensures { result ≡ tallies_with t (reply_of reply ∷ []) }
{
    let mut next = t;
    match reply.map(|answered| answered.answer.route()) {
        Ok(Route::Rule) => next.rule += 1,
        Ok(Route::Whole) => next.whole += 1,
        Ok(Route::Edge) => next.edge += 1,
        Ok(Route::Fast) => next.fast += 1,
        Ok(Route::Slow) => next.slow += 1,
        Err(_) => next.bad += 1,
    }
    next
}
