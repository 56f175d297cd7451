// The row of a label, as the row of a kid.
ghost use Rattle.row.specs.Views.{costs_of};
ghost use Rattle.rows.specs.Kids.{row_of};

use crate::walks::choice_back;
use cost::Cost;
use entries::{Entry, RowEnd};
use row::KidRow;
use table::Slot;

/// The row of a label, by its costs above the least: the entries that are held, and the end of the row among them.
#[derive(Drop)]
pub struct HeldRow<'a, C> {
    pub(crate) entries: &'a [Slot<Entry<C>>],
    pub(crate) end: Option<RowEnd>,
    pub(crate) width: usize,
}

impl<'a, C: Cost> KidRow for HeldRow<'a, C> {
    type Cost = C;

    ghost costs = { λ k. costs_of (row_of k) };

    fn cost_at(&self, n: usize) -> Option<C> {
        let end = self.end?;
        choice_back(self.entries, end.0, n, self.width).map(|choice| choice.cost)
    }
}
