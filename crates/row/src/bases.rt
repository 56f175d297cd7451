// The base rules, one after another.
ghost use Rattle.std.specs.Prelude.{◌≡◌, map, length, replicate, None};
ghost use Rattle.grammar.specs.Views.{rule_of};
ghost use Rattle.row.specs.Kept.{pass, base_gives};
ghost use Rattle.row.specs.Views.{kept_of, applied};

use crate::kids::{KidRow, Step};
use crate::work::{Work, keep_better};
use cost::Cost;
use grammar::parts::RuleNumber;

// Nothing is known of any nonterminal.
pub(crate) fn forget<C: Cost>(work: &mut [Option<Work<C>>])
    ensures { work.new ≡ replicate (length work.old) None }
{
    work.fill(None);
}

impl<'r, 'k, K: KidRow> Step<'r, 'k, K> {
    // Of each nonterminal's base rules the first that attains the least cost is kept.
    pub(crate) fn take_bases(&self, work: &mut [Option<Work<K::Cost>>])
        ensures { map kept_of work.new ≡ pass K.Cost.Cost.model (base_gives K.Cost.Cost.model (applied K.KidRow.costs self.now.kids)) (map kept_of work.old) 1 (map rule_of self.now.rules.now) }
    {
        for (i, rule) in self.rules.iter().enumerate() {
            if let Some(cost) = self.base_cost(rule) {
                let new = Work {
                    cost,
                    chains: 0,
                    rule: RuleNumber(i + 1),
                };
                keep_better(work, rule.left.0, new);
            }
        }
    }
}
