// The row of a node, worked out from its operator and its kids' rows in lent work places.

#![tactic(auto)]

mod bases;
mod best;
mod choice;
mod kids;
mod least;
mod ranks;
mod rounds;
mod work;

pub use kids::{KidRow, Step};
pub use least::lower_to_least;
pub use work::Work;
