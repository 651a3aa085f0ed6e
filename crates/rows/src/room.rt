// The room of each row of a store: R is the most puts that it takes, and W the most bits.
#[derive(Clone, Copy, Debug, PartialEq, Eq)]
pub struct Room {
    // R
    pub puts: u32,
    // W
    pub bits: u32,
}
