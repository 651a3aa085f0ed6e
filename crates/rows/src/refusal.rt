// Why a store of bit rows refuses, and the number of each case.
ghost use Rattle.std.specs.Prelude.{◌≡◌};
ghost use Rattle.rows.specs.Refusals.{rows_refusal_number};

#[derive(Clone, Copy, Debug, PartialEq, Eq)]
pub enum RowsRefusal {
    // room for no put or for more than 512, for no bit or for more than 33,554,432
    RoomOutOfBounds = 21,
    // fewer words than a store of this room uses
    TooFewWords = 22,
    // a row above 7
    NoSuchRow = 23,
    // a put of no bit
    EmptyPut = 24,
    // the row has taken as many puts as it has room for
    PutsFull = 25,
    // the row would become longer than it has room for
    RowTooLong = 26,
    // a position past the row's end
    PastEnd = 27,
}

impl RowsRefusal {
    pub fn number(self) -> u32
        ensures { result ≡ rows_refusal_number self }
    {
        self as u32
    }
}
