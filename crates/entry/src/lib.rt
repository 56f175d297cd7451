// The lines of a machine file: what each says, or why it is refused.

#![tactic(auto)]

pub mod header;
pub mod kind;
pub mod lines;

pub use header::{Header, Labelling, Make, header_of};
pub use kind::{Kind, kind_of};
pub use lines::{Entry, entry_of};
