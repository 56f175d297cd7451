//! What rows are kept as: entries that each follow another one, and ends of rows. Both are keys of a table.

#![tactic(auto)]

ghost use Rattle.std.specs.Prelude.{◌≡◌};
ghost use Rattle.entries.specs.Keys.{entry_key, end_key, link_scatter, same_choice, choice_scatter, no_entry, no_end};
ghost use Rattle.entries.specs.Laws.{entry_laws};
ghost use Rattle.std.proofs.Common.{rules};

use cost::Cost;
use grammar::parts::RuleNumber;
use table::Key;

/// What stands in a row for a nonterminal that has a cover: the rule chosen, and the cost above the least.
#[derive(Clone, Copy)]
pub struct Choice<C> {
    pub rule: RuleNumber,
    pub cost: C,
}

/// An entry of a row: the place of the entry before it, none for the first, and what stands here.
#[derive(Clone, Copy)]
pub struct Entry<C> {
    pub before: Option<u32>,
    pub choice: Option<Choice<C>>,
}

/// The place of a row's last entry, none for a row without entries.
#[derive(Clone, Copy)]
pub struct RowEnd(pub Option<u32>);

impl<C> Entry<C> {
    /// An entry to fill memory with.
    pub fn unused() -> Entry<C>
        ensures { result ≡ no_entry }
    {
        Entry {
            before: None,
            choice: None,
        }
    }
}

impl RowEnd {
    /// An end to fill memory with.
    pub fn unused() -> RowEnd
        ensures { result ≡ no_end }
    {
        RowEnd(None)
    }
}

// The scatter number of a place, which may be none.
fn link_scatter(link: Option<u32>) -> u32
    ensures { result ≡ link_scatter link }
{
    link.map_or(0, |place| place.wrapping_add(1))
}

// Whether the same stands at two places of rows.
fn same_choice<C: Cost>(a: &Option<Choice<C>>, b: &Option<Choice<C>>) -> bool
    ensures { result ≡ same_choice C.Cost.model a.now b.now }
{
    // One match: an equality on `Choice` would have to state and prove laws of its own.
    match (a, b) {
        (None, None) => true,
        (Some(x), Some(y)) => x.rule.0 == y.rule.0 && x.cost.compare(&y.cost).is_eq(),
        _ => false,
    }
}

// The scatter number of what stands at a place of a row.
fn choice_scatter<C: Cost>(choice: &Option<Choice<C>>) -> u32
    ensures { result ≡ choice_scatter C.Cost.model choice.now }
{
    choice.map_or(0, |x| {
        ((x.rule.0 % 65_536) as u32)
            .wrapping_mul(3_266_489_917)
            .wrapping_add(x.cost.weight())
    })
}

/// Entries are the same where the same entry is before them and the same stands there.
impl<C: Cost> Key for Entry<C> {
    ghost model = { entry_key C.Cost.model };

    ghost laws = { entry_laws C.Cost.laws };

    fn same(&self, other: &Entry<C>) -> bool {
        self.before == other.before && same_choice(&self.choice, &other.choice)
    }

    fn scatter(&self) -> u32 {
        link_scatter(self.before)
            .wrapping_mul(2_246_822_519)
            .wrapping_add(choice_scatter(&self.choice))
    }
}

/// Equal places are the same end.
impl Key for RowEnd {
    ghost model = { end_key };

    ghost laws = { Prim.search rules };

    fn same(&self, other: &RowEnd) -> bool {
        self.0 == other.0
    }

    fn scatter(&self) -> u32 {
        link_scatter(self.0)
    }
}
