// What the tables of an automaton hold.
ghost use Rattle.std.specs.Prelude.{◌≡◌, map};
ghost use Rattle.nodes.specs.Views.{label_of};
ghost use Rattle.table.specs.Tables.{keys_of};
ghost use Rattle.states.specs.Keys.{key_of, lead_of};
ghost use Rattle.states.specs.Leading.{led};

use crate::transition::Transition;
use applied::Applied;
use nodes::Label;
use table::Table;

// The label that a key leads to, or none where the key is not held.
pub(crate) fn known_label(transitions: &Table<Transition>, key: Applied<Label>) -> Option<Label>
    ensures { label_of result ≡ led (map lead_of (keys_of transitions.now)) (key_of key) }
{
    let sought = Transition {
        key,
        label: Label(0),
    };
    let place = transitions.find(&sought)?;
    transitions.key_at(place).map(|found| found.label)
}
