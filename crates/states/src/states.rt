// The states of an automaton.
ghost use Rattle.std.specs.Prelude.{◌≡◌, ◌≤◌, List, [], map, length};
ghost use Rattle.grammar.specs.Lists.{Lists, Sealed};
ghost use Rattle.grammar.specs.Views.{rule_of};
ghost use Rattle.covers.specs.Trees.{count, Tree};
ghost use Rattle.covers.specs.Ranks.{choice as chosen_rule};
ghost use Rattle.covers.specs.Held.{In, label as label_among, key as key_among, rows_held, keys_held};
ghost use Rattle.label.specs.Views.{rule_number};
ghost use Rattle.table.specs.Chains.{room_for};
ghost use Rattle.rows.specs.Meaning.{rows_in};
ghost use Rattle.states.specs.Keys.{key_of};
ghost use Rattle.states.specs.Placing.{label_answer};
ghost use Rattle.states.specs.Meaning.{Knows, Gives, SameLimits};
ghost use Rattle.states.specs.Room.{Next};

use crate::known::known_label;
use crate::placing::{keep_row, work_out};
use crate::transition::Transition;
use applied::Applied;
use cost::Cost;
use entries::{Entry, RowEnd};
use grammar::parts::{NonterminalNumber, Rule, RuleNumber};
use label::NoRoom;
use nodes::Label;
use row::Work;
use rows::Rows;
use table::{Key, Slot, Table};

/// The rows and keys of the nodes accepted since the last clear, in lent memory, and the label that each key leads to.
#[derive(Drop)]
pub struct States<'a, C: Cost>
where
    Entry<C>: Key,
{
    transitions: Table<'a, Transition>,
    rows: Rows<'a, C>,
    work: &'a mut [Option<Work<C>>],
    most_keys: usize,
    most_rows: usize,
}

/// How many nonterminals there are, and how many keys and rows there may be.
#[derive(Clone, Copy)]
pub struct Sizes {
    pub nonterminals: usize,
    pub keys: usize,
    pub rows: usize,
}

impl<'a, C: Cost> States<'a, C> {
    /// No rows and no keys. A row takes as many row places and work places as there are nonterminals.
    pub fn new(
        transitions: &'a mut [Slot<Transition>],
        entries: &'a mut [Slot<Entry<C>>],
        ends: &'a mut [Slot<RowEnd>],
        work: &'a mut [Option<Work<C>>],
        sizes: Sizes,
    ) -> States<'a, C>
        ensures knows { (G : Lists C) → Sealed C.Cost.model G → count G ≡ sizes.nonterminals → sizes.nonterminals ≤ length work.old → sizes.keys ≤ room_for (length transitions.old) → sizes.rows ≤ rows_in (room_for (length ends.old)) (room_for (length entries.old)) sizes.nonterminals → Knows C.Cost.model G result [] }
        ensures keys { result.most_keys ≡ sizes.keys }
        ensures rows { result.most_rows ≡ sizes.rows }
    {
        let places = work.len().min(sizes.nonterminals);
        let (work, _) = work.split_at_mut(places);
        States {
            transitions: Table::new(transitions),
            rows: Rows::new(entries, ends, sizes.nonterminals),
            work,
            most_keys: sizes.keys,
            most_rows: sizes.rows,
        }
    }

    /// The label of a node with this key, after which the node counts as accepted. A key that is held leads to its label by one
    /// search; the row of a new one is worked out, and found or kept. Where there is no room, only the work places change.
    pub fn label_for(&mut self, rules: &[Rule<C>], key: Applied<Label>) -> Result<Label, NoRoom>
        ensures gives { (G : Lists C) (ts : List Tree) (t : Tree) → Knows C.Cost.model G self.old ts → G.rules ≡ map rule_of rules.now → Next ts t → key_of key ≡ key_among C.Cost.model G ts t → Gives C.Cost.model G self.old self.new ts t (label_answer result) }
        ensures limits { SameLimits self.old self.new }
    {
        if let Some(label) = known_label(&self.transitions, key) {
            return Ok(label);
        }
        if self.transitions.count() >= self.most_keys {
            return Err(NoRoom::Keys);
        }
        let work = &mut *self.work;
        work_out(rules, &self.rows, key, work);
        let label = keep_row(&mut self.rows, work, self.most_rows)?;
        let _ = self.transitions.put(Transition { key, label });
        Ok(label)
    }

    /// Forgets all rows and keys.
    pub fn clear(&mut self)
        ensures knows { (G : Lists C) (ts : List Tree) → Knows C.Cost.model G self.old ts → Knows C.Cost.model G self.new [] }
        ensures limits { SameLimits self.old self.new }
    {
        self.transitions.clear();
        self.rows.clear();
    }

    /// How many different rows are held.
    pub fn row_count(&self) -> usize
        ensures { (G : Lists C) (ts : List Tree) → Knows C.Cost.model G self.now ts → result ≡ length (rows_held C.Cost.model G ts) }
    {
        self.rows.count()
    }

    /// How many different keys are held.
    pub fn key_count(&self) -> usize
        ensures { (G : Lists C) (ts : List Tree) → Knows C.Cost.model G self.now ts → result ≡ length (keys_held C.Cost.model G ts) }
    {
        self.transitions.count()
    }

    /// The rule chosen for a nonterminal at the nodes of a label, or none where they have no cover from there.
    pub fn choice(&self, label: Label, nonterminal: NonterminalNumber) -> Option<RuleNumber>
        ensures { (G : Lists C) (ts : List Tree) (t : Tree) → Knows C.Cost.model G self.now ts → In t ts → label.0 ≡ label_among C.Cost.model G ts t → rule_number result ≡ chosen_rule C.Cost.model G t nonterminal.0 }
    {
        self.rows
            .entry(label.0, nonterminal.0)
            .map(|choice| choice.rule)
    }
}
