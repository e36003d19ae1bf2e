// The state of a queue.
ghost use Rattle.std.specs.Prelude.{◌≡◌, true};
ghost use Rattle.kinds.specs.QueueRows.{is_queue};

use crate::short_list::ShortList;

// A row that is a queue's: up to twelve entries, from the front, none above the largest number.
// Not one generic type with `Roll`, which proves, but is no plainer: `Clone` has to be written by
// hand there, and each definition that names it be given the ghost members of `Item` and `PartialEq`.
#[derive(Clone, Copy)]
pub struct Queue {
    pub(super) row: ShortList<u32>,
    ghost sound: { is_queue row ≡ true },
}
