// The ranks of a node: base rules, then chain rules.
ghost use Rattle.std.specs.Prelude.{◌≡◌, map, length};
ghost use Rattle.grammar.specs.Views.{rule_of};
ghost use Rattle.row.specs.Ranked.{RanksAre};
ghost use Rattle.row.specs.Views.{kept_of, applied};

use crate::bases::forget;
use crate::kids::{KidRow, Step};
use crate::rounds::run_rounds;
use crate::work::Work;

impl<'r, 'k, K: KidRow> Step<'r, 'k, K> {
    // For each nonterminal the least cost and the fewest chain rules, into a work place for each nonterminal.
    pub fn ranks_into(&self, work: &mut [Option<Work<K::Cost>>])
        ensures { RanksAre K.Cost.Cost.model (map rule_of self.now.rules.now) (length work.old) (applied K.KidRow.costs self.now.kids) (map kept_of work.new) }
    {
        forget(work);
        self.take_bases(work);
        run_rounds(self.rules, work);
    }
}
