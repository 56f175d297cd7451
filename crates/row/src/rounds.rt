// The chain rules, in rounds.
ghost use Rattle.std.specs.Prelude.{◌≡◌, ◌-◌, false, map, length};
ghost use Rattle.grammar.specs.Views.{form_of, rule_of};
ghost use Rattle.row.specs.Kept.{over_source, round_of, times};
ghost use Rattle.row.specs.Views.{kept_of};

use crate::work::{Work, keep_better, place};
use cost::Cost;
use grammar::parts::{Form, Rule, RuleNumber};

// What a rule gives over its source: none where it is no chain rule, or its source has no cost yet.
pub(crate) fn chain_rank<C: Cost>(rule: &Rule<C>, work: &[Option<Work<C>>]) -> Option<(C, usize)>
    ensures { result ≡ over_source C.Cost.model (map kept_of work.now) rule.now.cost (form_of rule.now.form) }
{
    match rule.form {
        Form::Chain { source } => place(work, source.0).map(|x| (
            x.cost.sum(rule.cost),
            x.chains.saturating_add(1),
        )),
        _ => None,
    }
}

// One round over the chain rules. Answers whether it has changed anything.
pub(crate) fn round<C: Cost>(rules: &[Rule<C>], work: &mut [Option<Work<C>>]) -> bool
    ensures made { map kept_of work.new ≡ round_of C.Cost.model (map rule_of rules.now) (map kept_of work.old) }
    ensures told { result ≡ false → work.new ≡ work.old }
{
    let mut changed = false;
    for (i, rule) in rules.iter().enumerate() {
        if let Some(rank) = chain_rank(rule, work) {
            let new = Work {
                cost: rank.0,
                chains: rank.1,
                rule: RuleNumber(i + 1),
            };
            changed |= keep_better(work, rule.left.0, new);
        }
    }
    changed
}

// Rounds until one changes nothing: a run without a repeated nonterminal has fewer rules than there are nonterminals.
pub(crate) fn run_rounds<C: Cost>(rules: &[Rule<C>], work: &mut [Option<Work<C>>])
    ensures { map kept_of work.new ≡ times (round_of C.Cost.model (map rule_of rules.now)) (length work.old - 1) (map kept_of work.old) }
{
    'rounds: for _ in 1..work.len() {
        if !round(rules, work) {
            break 'rounds;
        }
    }
}
