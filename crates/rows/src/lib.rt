#![tactic(auto)]
// Bit rows: what a store of eight rows of bits means, as a trait, and the tests that every store makes.
mod common;
mod lent;
mod refusal;
mod room;
mod row;
mod store;

pub use common::{
    check_bounds, check_position, check_put, check_words, known_row, room_if, row_index, zero_front,
};
pub use lent::{Footprint, LentRows, granted_room};
pub use refusal::RowsRefusal;
pub use room::Room;
pub use row::RowIndex;
pub use store::BitRows;
