// Lists of up to twelve items as plain data: how queues and rolls lie in a row.
mod item;
mod methods;

pub(crate) use item::Item;

// How many items there can be.
pub const PLACES: usize = 12;

// A count, and the items in the first places; the places past them are blank. Any count and any
// places make a value: `is_sound` says which are a state's. An array with a count beside it, since
// nothing may allocate, and since a row has to be plain data that can be copied and be no state's.
#[derive(Clone, Copy)]
pub struct ShortList<T> {
    pub count: usize,
    pub places: [T; PLACES],
}
