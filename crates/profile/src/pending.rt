// What is noted and not yet closed: a table of records in the order noted.
use crate::table::Table;

// One noted record: so many requests of one size class.
#[derive(Clone, Copy, Default)]
pub(crate) struct Record {
    pub(crate) class: u8,
    pub(crate) count: u16,
}

#[derive(Drop)]
pub(crate) struct Pending {
    pub(crate) records: Table<Record, 512>,
    // the sum of the counts
    pub(crate) total: u32,
}
