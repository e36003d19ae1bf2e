// The state of a tally.
use crate::number::Number;

// A number that is shown, added to and taken from.
#[derive(Clone, Copy)]
pub struct Tally {
    pub(super) number: Number,
}
