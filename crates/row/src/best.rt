// What is best of a node, and its row.
ghost use Rattle.std.specs.Prelude.{map, length};
ghost use Rattle.grammar.specs.Views.{rule_of};
ghost use Rattle.row.specs.Ranked.{BestAre, RowIs};
ghost use Rattle.row.specs.Views.{kept_of, applied};

use crate::kids::{KidRow, Step};
use crate::least::lower_to_least;
use crate::work::Work;

impl<'r, 'k, K: KidRow> Step<'r, 'k, K> {
    // For each nonterminal the least cost, the fewest chain rules and the rule chosen, into a work place for each nonterminal.
    pub fn best_into(&self, work: &mut [Option<Work<K::Cost>>])
        ensures { BestAre K.Cost.Cost.model (map rule_of self.now.rules.now) (length work.old) (applied K.KidRow.costs self.now.kids) (map kept_of work.new) }
    {
        self.ranks_into(work);
        self.choose_rules(work);
    }

    // The row: for each nonterminal the rule chosen and the cost above the least.
    pub fn row_into(&self, work: &mut [Option<Work<K::Cost>>])
        ensures { RowIs K.Cost.Cost.model (map rule_of self.now.rules.now) (length work.old) (applied K.KidRow.costs self.now.kids) (map kept_of work.new) }
    {
        self.best_into(work);
        lower_to_least(work);
    }
}
