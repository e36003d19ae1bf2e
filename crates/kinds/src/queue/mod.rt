// A queue: up to twelve entries, which join at the back and leave at the front.
mod entries;
mod kind;
mod methods;
mod operation;
mod state;

pub use operation::{EndMove, FRONT, NEXT, PUT, QueueOperation};
pub use state::Queue;
