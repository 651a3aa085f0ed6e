// A store of eight bit rows, by what it means.
ghost use Rattle.std.specs.Prelude.{◌≡◌, ℕ, Bool, false, List, length, is_ok};
ghost use Rattle.rows.specs.declared.room.Room.{Room};
ghost use Rattle.rows.specs.Meaning.{Row, Within, cleared, put_answer, after_put, left_by, length_answer, zeros_answer};

use crate::refusal::RowsRefusal;
use crate::room::Room;

pub trait BitRows {
    // The meaning: the rows, and the room of each.
    ghost rows: { Self → List Row };

    ghost limits: { Self → Room };

    // Proofs, as `laid` below is. They are no laws, which stand below the functions: a clause can name a proof and no law.
    ghost eight: { (s : Self) → length (rows s) ≡ 8 };

    ghost within: { (s : Self) → Within (limits s) (rows s) };

    // For promises on words alone: the words that are lent, and the name under which the lender knows them; how words
    // lie for a room and rows, and that these do; and what a put that is taken makes of the words, given the room, the
    // rows, the words, the row, the bit and the count, and what a clear makes of them.
    ghost lent: { Self → List ℕ };

    ghost place: { Self → ℕ };

    ghost layout: { Room → List Row → List ℕ → Type 0 };

    ghost laid: { (s : Self) → layout (limits s) (rows s) (lent s) };

    ghost wrote: { Room → List Row → List ℕ → ℕ → Bool → ℕ → List ℕ };

    ghost wiped: { Room → List ℕ → List ℕ };

    fn room(&self) -> Room
        ensures { result ≡ limits self.now };

    // Empties every row.
    fn clear(&mut self)
        ensures rows { rows self.new ≡ cleared }
        ensures limits { limits self.new ≡ limits self.old }
        ensures words { lent self.new ≡ wiped (limits self.old) (lent self.old) }
        ensures place { place self.new ≡ place self.old };

    // Appends `count` copies of a bit to a row.
    fn put(&mut self, row: u32, bit: bool, count: u32) -> Result<(), RowsRefusal>
        ensures answer { result ≡ put_answer (limits self.old) (rows self.old) row count }
        ensures rows { rows self.new ≡ after_put (limits self.old) (rows self.old) row bit count }
        ensures limits { limits self.new ≡ limits self.old }
        ensures words { lent self.new ≡ left_by (put_answer (limits self.old) (rows self.old) row count) (wrote (limits self.old) (rows self.old) (lent self.old) row bit count) (lent self.old) }
        ensures place { place self.new ≡ place self.old }
        ensures refused { is_ok result ≡ false → self.new ≡ self.old };

    // How many bits a row has.
    fn length(&self, row: u32) -> Result<u32, RowsRefusal>
        ensures { result ≡ length_answer (rows self.now) row };

    // How many of a row's first `position` bits are 0.
    fn zeros(&self, row: u32, position: u32) -> Result<u32, RowsRefusal>
        ensures { result ≡ zeros_answer (rows self.now) row position };
}
