// The fields of a line, each with its place, read as names, numbers, kids and items.

#![tactic(auto)]

mod cut;
pub mod fault;
mod forms;
pub mod line_reader;
pub mod parts;
mod placed;
mod reading;

pub use fault::{FieldFault, FieldRefusal};
pub use line_reader::LineReader;
pub use parts::{Field, Form, Part, Placed};
