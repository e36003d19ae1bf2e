// The state of a roll.
ghost use Rattle.std.specs.Prelude.{◌≡◌, true};
ghost use Rattle.kinds.specs.RollRows.{is_roll};

use super::entry::Entry;
use crate::short_list::ShortList;

// A row that is a roll's: up to twelve keys, rising, each once, and no number above the largest.
// For why it is no generic type see `Queue`.
#[derive(Clone, Copy)]
pub struct Roll {
    pub(super) row: ShortList<Entry>,
    ghost sound: { is_roll row ≡ true },
}
