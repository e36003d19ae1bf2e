// What a victim policy sees of a transaction.

// Its number, its begin ordinal, and how many changes all versions hold that it owns.
#[derive(Clone, Copy, PartialEq, Eq, Debug)]
pub struct Facts {
    pub number: u32,
    pub ordinal: u32,
    pub changes: u32,
}
