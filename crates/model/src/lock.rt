// What a lock is for, and what a transaction waits for.

// What a lock lets its holder do.
#[derive(Clone, Copy, PartialEq, Eq, Debug)]
pub enum Mode {
    Read,
    Write,
}

// The object and the mode that a transaction waits for.
#[derive(Clone, Copy, PartialEq, Eq, Debug)]
pub struct Wait {
    pub object: u32,
    pub mode: Mode,
}
