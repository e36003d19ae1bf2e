// A roll: up to twelve keys in rising order, each with a number.
mod entries;
mod entry;
mod kind;
mod methods;
mod operation;
mod state;

pub use entry::{Entry, Former};
pub use operation::{FIND, MARK, RollOperation};
pub use state::Roll;
