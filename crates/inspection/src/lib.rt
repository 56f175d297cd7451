// What `inspect` prints of a machine file: a line for each operator, nonterminal and rule and their counts, or a fault.

#![tactic(auto)]

mod inspecting;
mod lines;
mod names;
mod rules;

pub use inspecting::{fault_text, grammar_text, inspect_text, unreadable_text};
