// A tally: a number from 0 to the largest that is shown, added to and taken from.
mod kind;
mod methods;
mod operation;
mod state;

pub use operation::{ADD, SHOW, TAKE, TallyOperation};
pub use state::Tally;
