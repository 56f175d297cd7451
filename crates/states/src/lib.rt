//! The states of an automaton: the rows and keys of accepted nodes, and the label of each key.

#![tactic(auto)]

mod known;
mod placing;
mod states;
mod transition;

pub use states::{Sizes, States};
pub use transition::Transition;
