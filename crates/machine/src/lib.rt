// Reading machine files: each line is taken into a draft, or the first fault is answered.

#![tactic(auto)]

mod asked;
pub mod drafting;
mod drafts;
pub mod file;
pub mod lines;
pub mod machine;
mod places;

pub use drafts::Drafts;
pub use file::{read, read_into};
pub use machine::{Machine, ReadError};
pub use places::in_file;
