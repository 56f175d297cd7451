//! An owner of two tables of different keys, one of them generic over a cost, with a lent slice beside them.

#![tactic(auto)]

ghost use Rattle.std.specs.Prelude.{◌≡◌, ℕ, List, [], is_some};
ghost use Rattle.cost.specs.Model.{Model};
ghost use Rattle.table.specs.Keys.{place_of, put_keys};
ghost use Rattle.table_tests.specs.declared.NodeKey.{NodeKey as NodeKeyOf};
ghost use Rattle.table_tests.specs.Keys.{node_key, entry_key};
ghost use Rattle.table_tests.specs.Entering.{enter_answer, entered_labels, entered_nodes, Entered};
ghost use Rattle.std.proofs.Common.{rules};
ghost use Rattle.table_tests.specs.Entries.{entry_laws};

use cost::Cost;
use table::{Key, Refusal, Slot, Table};

/// A node's operator and the labels of its kids.
#[derive(Clone, Copy, PartialEq, Eq)]
pub enum NodeKey {
    Leaf(u32),
    Unary(u32, u32),
    Binary(u32, u32, u32),
}

impl Key for NodeKey {
    ghost model = { node_key };

    ghost laws = { Prim.search rules };

    fn same(&self, other: &NodeKey) -> bool {
        *self == *other
    }

    fn scatter(&self) -> u32 {
        match *self {
            NodeKey::Leaf(o) => o,
            NodeKey::Unary(o, a) => o.wrapping_add(a.wrapping_mul(64)),
            NodeKey::Binary(o, a, c) => o
                .wrapping_add(a.wrapping_mul(64))
                .wrapping_add(c.wrapping_mul(262_144)),
        }
    }
}

/// A cost, after another entry.
#[derive(Clone, Copy)]
pub struct Entry<C> {
    pub before: u32,
    pub cost: C,
}

impl<C: Cost> Key for Entry<C> {
    ghost model = { entry_key C.Cost.model };

    ghost laws = { entry_laws C.Cost.model C.Cost.laws };

    fn same(&self, other: &Entry<C>) -> bool {
        self.before == other.before && self.cost.compare(&other.cost).is_eq()
    }

    fn scatter(&self) -> u32 {
        self.before
            .wrapping_add(self.cost.weight().wrapping_mul(31))
    }
}

/// Two tables by value, and a lent slice with a label for each node key.
#[derive(Drop)]
pub struct Owner<'a, C: Cost>
where
    Entry<C>: Key,
{
    nodes: Table<'a, NodeKey>,
    entries: Table<'a, Entry<C>>,
    labels: &'a mut [usize],
}

impl<'a, C: Cost> Owner<'a, C> {
    ghost use Rattle.table.specs.Tables.{room_of};
    ghost use Rattle.table_tests.specs.Owner.{nodes_of, entries_of, entry_answer};

    pub fn new(
        nodes: &'a mut [Slot<NodeKey>],
        entries: &'a mut [Slot<Entry<C>>],
        labels: &'a mut [usize],
    ) -> Owner<'a, C>
        ensures nodes { nodes_of result ≡ [] }
        ensures entries { entries_of result ≡ [] }
    {
        Owner {
            nodes: Table::new(nodes),
            entries: Table::new(entries),
            labels,
        }
    }

    pub fn enter(&mut self, key: NodeKey, entry: Entry<C>) -> Result<usize, Refusal>
        ensures answer { result ≡ enter_answer (entry_answer C.Cost.model self.old entry) (room_of self.old.nodes) (nodes_of self.old) key }
        ensures nodes { nodes_of self.new ≡ entered_nodes (entry_answer C.Cost.model self.old entry) (room_of self.old.nodes) (nodes_of self.old) key }
        ensures entries { entries_of self.new ≡ put_keys (entry_key C.Cost.model) (room_of self.old.entries) (entries_of self.old) entry }
        ensures labels { self.new.labels.now ≡ entered_labels (entry_answer C.Cost.model self.old entry) result self.old.labels.now }
        ensures room { room_of self.new.nodes ≡ room_of self.old.nodes }
    {
        let label = self.entries.put(entry)?;
        let place = self.nodes.put(key)?;
        // Bounds test: the contract of `get_mut` does not say what the slice holds once the label is written.
        if place < self.labels.len() {
            self.labels[place] = label;
        }
        Ok(place)
    }

    pub fn find(&self, key: &NodeKey) -> Option<usize>
        ensures { result ≡ place_of node_key (nodes_of self.now) key.now }
    {
        self.nodes.find(key)
    }

    pub fn clear(&mut self)
        ensures nodes { nodes_of self.new ≡ [] }
        ensures entries { entries_of self.new ≡ [] }
    {
        self.nodes.clear();
        self.entries.clear();
    }
}

/// Anything that keeps node keys, whatever the cost that it works in.
pub trait Store: Sized {
    type Cost: Cost;

    // The list of node keys that the store means.
    ghost keys: { Self → List NodeKeyOf };

    // How many node keys there is room for.
    ghost places: { Self → ℕ };

    fn enter(&mut self, key: NodeKey, cost: Self::Cost) -> Result<usize, Refusal>
        ensures entered { Entered (places self.old) (keys self.old) key result (keys self.new) }
        ensures places_kept { places self.new ≡ places self.old };

    fn find(&self, key: &NodeKey) -> Option<usize>
        ensures { result ≡ place_of node_key (keys self.now) key.now };
}

impl<'a, C: Cost> Store for Owner<'a, C> {
    ghost use Rattle.table.specs.Tables.{room_of};
    ghost use Rattle.table_tests.specs.Owner.{nodes_of};

    type Cost = C;

    ghost keys = { λ o. nodes_of o };

    ghost places = { λ o. room_of o.nodes };

    fn enter(&mut self, key: NodeKey, cost: C) -> Result<usize, Refusal> {
        Owner::enter(self, key, Entry { before: 0, cost })
    }

    fn find(&self, key: &NodeKey) -> Option<usize> {
        Owner::find(self, key)
    }
}

/// A store by value, built once and then driven through `&mut`.
#[derive(Drop)]
pub struct Session<L> {
    store: L,
    refused: u32,
}

impl<L: Store> Session<L> {
    pub fn new(store: L) -> Session<L>
        ensures { result.store ≡ store }
    {
        Session { store, refused: 0 }
    }

    /// Whether the key has a place now.
    pub fn keep(&mut self, key: NodeKey, cost: L::Cost) -> bool
        ensures { result ≡ is_some (place_of node_key (L.Store.keys self.new.store) key) }
    {
        match self.store.enter(key, cost) {
            Ok(_) => true,
            Err(_) => {
                self.refused = self.refused.saturating_add(1);
                self.store.find(&key).is_some()
            }
        }
    }
}

/// The first key of a table has place 0: a caller that built its table by public calls owes nothing.
pub fn first_place(slots: &mut [Slot<u32>], key: u32) -> usize
    ensures { result ≡ 0 }
{
    if slots.is_empty() {
        return 0;
    }
    let mut table = Table::new(slots);
    match table.put(key) {
        Ok(place) => place,
        Err(_) => unreachable(),
    }
}

#[cfg(test)]
mod tests {
    use super::*;
    use cost::{Cost as _, Count};

    #[test]
    fn places_in_order(rt: HostRuntime) {
        let mut slots = [Slot::new(0u32); 3];
        let mut table = Table::new(&mut slots);
        assert!(rt; table.find(&7) == None);
        assert!(rt; table.put(7) == Ok(0));
        assert!(rt; table.put(4) == Ok(1));
        assert!(rt; table.put(7) == Ok(0));
        assert!(rt; table.put(9) == Ok(2));
        assert!(rt; table.put(8) == Err(Refusal::Full));
        assert!(rt; table.put(4) == Ok(1));
        assert!(rt; table.key_at(2).copied() == Some(9));
        assert!(rt; table.key_at(3).is_none());
        assert!(rt; table.count() == 3 && table.room() == 3);
        table.clear();
        assert!(rt; table.count() == 0);
        assert!(rt; table.find(&4) == None);
        assert!(rt; Refusal::Full.number() == 35);
    }

    #[test]
    fn driven_through_a_session(rt: HostRuntime) {
        let mut nodes = [Slot::new(NodeKey::Leaf(0)); 2];
        let filler = Entry {
            before: 0,
            cost: Count { value: 0 },
        };
        let mut entries = [Slot::new(filler); 2];
        let mut labels = [0usize; 2];
        let owner = Owner::new(&mut nodes, &mut entries, &mut labels);
        let mut session = Session::new(owner);
        assert!(rt; session.keep(NodeKey::Unary(1, 2), Count { value: 3 }));
        assert!(rt; session.keep(NodeKey::Binary(1, 2, 3), Count { value: 3 }));
        assert!(rt; session.keep(NodeKey::Unary(1, 2), Count { value: 4 }));
        assert!(rt; !session.keep(NodeKey::Leaf(1), Count { value: 3 }));
        assert!(rt; session.refused == 1);
    }
}
