//! The rows held, kept shared in two tables over lent memory.

#![tactic(auto)]

mod held;
mod kid;
mod walks;

pub use held::Rows;
pub use kid::HeldRow;
