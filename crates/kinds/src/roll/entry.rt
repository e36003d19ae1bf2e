// What a roll holds.

// A key with its number.
#[derive(Clone, Copy, PartialEq, Eq, Debug)]
pub struct Entry {
    pub key: u32,
    pub number: u32,
}

// What undoes a mark: a key with the number that it had, if it was present.
#[derive(Clone, Copy, Debug, PartialEq, Eq)]
pub struct Former {
    pub key: u32,
    pub number: Option<u32>,
}
