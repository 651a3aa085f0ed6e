// A store over lent words that keeps its puts: row r has the words R * r to R * r + R - 1, and its put t, from 0, fills
// word t of these with e * 2^32 + z, where e is the row's length after the put and z its number of 0 bits then.
ghost use Rattle.std.specs.Prelude.{◌≡◌, ◌+◌, ◌-◌, ◌*◌, ◌<◌, ◌≤◌, min, ◌∷◌, length, take, replicate, if◌then◌else◌, Ok, nat_le, slice_index, slice_set, refl};
ghost use Rattle.rows.specs.Meaning.{row_at, cleared, FitBy, with_put, zeros_in, granted};
ghost use Rattle.run_rows.specs.RunWords.{RunsLaid, end_of, zeros_of, last_word, run_used, run_wrote, run_wiped};
ghost use Rattle.run_rows.specs.RunTable.{Sound, rows_of, filled_of};
ghost use Rattle.run_rows.specs.RunChains.{run_eight, run_within};
ghost use Rattle.run_rows.specs.RunLaid.{run_words_lie};

use crate::mark::Mark;
use rows::{
    BitRows, Footprint, LentRows, Room, RowIndex, RowsRefusal, check_position, check_put,
    granted_room, row_index, zero_front,
};

// What a store keeps beside its words: its room, and the puts of each row.
#[derive(Drop)]
struct Table {
    room: Room,
    taken: [u16; 8],
}

#[derive(Drop)]
pub struct RunRows<'a> {
    words: &'a mut [u64],
    table: Table,
    ghost good: { Sound table.room words.now table.taken },
}

// The mark of a put of `count` copies of a bit, after the put with the mark `last`.
fn next_mark(last: Mark, bit: bool, count: u32) -> Mark
    requires short { last.end + count ≤ 33554432 }
    requires low { last.zeros ≤ last.end }
    ensures end { result.end ≡ last.end + count }
    ensures zeros { result.zeros ≡ last.zeros + (if bit then 0 else count) }
{
    let zeros = if bit { 0 } else { count };
    Mark {
        end: last.end + count,
        zeros: last.zeros + zeros,
    }
}

// The zeros before a position that lies in the put with the mark `next`, after the put with the mark `before`.
fn zeros_by(before: Mark, next: Mark, position: u32) -> u32
    requires past { before.end ≤ position }
    requires up { before.zeros ≤ next.zeros }
    ensures { result ≡ before.zeros + min (position - before.end) (next.zeros - before.zeros) }
{
    before.zeros + (position - before.end).min(next.zeros - before.zeros)
}

// The mark of the last of some words, or zeros where there is none.
fn last_mark(words: &[u64]) -> Mark
    ensures end { result.end ≡ end_of (last_word 0 words.now) }
    ensures zeros { result.zeros ≡ zeros_of (last_word 0 words.now) }
{
    Mark::from(words.last().copied().unwrap_or(0))
}

impl Table {
    // A table of no put, with the words in use set to 0.
    fn over(room: Room, words: &mut [u64]) -> Table
        requires few { room.puts ≤ 512 }
        requires narrow { room.bits ≤ 33554432 }
        requires enough { run_used room ≤ length words.old }
        ensures good { Sound result.room words.new result.taken }
        ensures rows { rows_of result words.new ≡ cleared }
        ensures words { words.new ≡ run_wiped room words.old }
        ensures room { result.room ≡ room }
    {
        let mut table = Table {
            room,
            taken: [0; 8],
        };
        table.empty(words);
        table
    }

    // The words of a row's puts.
    fn filled<'a>(&self, words: &'a [u64], row: RowIndex) -> &'a [u64]
        requires { Sound self.now.room words.now self.now.taken }
        ensures { result.now ≡ filled_of self.now words.now row.index }
    {
        let start = self.room.puts as usize * row.index;
        &words[start..start + usize::from(self.taken[row.index])]
    }

    // One put more of a row, with this word.
    fn append(&mut self, words: &mut [u64], row: RowIndex, word: u64)
        requires few { slice_index self.old.taken row.index < 512 }
        requires inside { self.old.room.puts * row.index + slice_index self.old.taken row.index < length words.old }
        ensures words { words.new ≡ slice_set words.old (self.old.room.puts * row.index + slice_index self.old.taken row.index) word }
        ensures taken { self.new.taken ≡ slice_set self.old.taken row.index (slice_index self.old.taken row.index + 1) }
        ensures room { self.new.room ≡ self.old.room }
    {
        let taken = self.taken[row.index];
        words[self.room.puts as usize * row.index + usize::from(taken)] = word;
        self.taken[row.index] = taken + 1;
    }

    // Sets the words in use to 0, and the puts of every row too.
    fn empty(&mut self, words: &mut [u64])
        requires { run_used self.old.room ≤ length words.old }
        ensures words { words.new ≡ run_wiped self.old.room words.old }
        ensures taken { self.new.taken ≡ replicate 8 0 }
        ensures room { self.new.room ≡ self.old.room }
    {
        zero_front(words, RunRows::words_used(self.room));
        self.taken = [0; 8];
    }
}

impl RunRows<'_> {
    ghost use Rattle.run_rows.specs.RunStore.{store_rows, store_words};

    // The mark of a row's last put, or zeros where there is none.
    fn last(&self, row: RowIndex) -> Mark
        ensures end { result.end ≡ end_of (last_word 0 (store_words self.now row.index)) }
        ensures zeros { result.zeros ≡ zeros_of (last_word 0 (store_words self.now row.index)) }
    {
        last_mark(self.table.filled(self.words, row))
    }

    // How many puts of a row end at `position` or before.
    fn ended(&self, row: RowIndex, position: u32) -> usize
        ensures within { result ≤ slice_index self.now.table.taken row.index }
        ensures before { end_of (slice_index (0 ∷ store_words self.now row.index) result) ≤ position }
        ensures after { result < slice_index self.now.table.taken row.index → position < end_of (slice_index (store_words self.now row.index) result) }
    {
        self.table
            .filled(self.words, row)
            .partition_point(|word| Mark::from(*word).end <= position)
    }

    fn row_length(&self, row: RowIndex) -> u32
        ensures { result ≡ length (row_at (store_rows self.now) row.index).bits }
    {
        self.last(row).end
    }

    fn row_puts(&self, row: RowIndex) -> u32
        ensures { result ≡ (row_at (store_rows self.now) row.index).puts }
    {
        u32::from(self.table.taken[row.index])
    }

    fn row_zeros(&self, row: RowIndex, position: u32) -> u32
        requires { position ≤ length (row_at (store_rows self.now) row.index).bits }
        ensures { result ≡ zeros_in (take position (row_at (store_rows self.now) row.index).bits) }
    {
        let (ended, rest) = self
            .table
            .filled(self.words, row)
            .split_at(self.ended(row, position));
        let before = last_mark(ended);
        match rest.first() {
            Some(next) => zeros_by(before, Mark::from(*next), position),
            None => before.zeros,
        }
    }

    // One put that there is room for. A bit and a count, as `put` takes them: a struct of both would be made for this alone.
    fn push(&mut self, row: RowIndex, bit: bool, count: u32)
        requires { FitBy self.old.table.room (row_at (store_rows self.old) row.index).puts (length (row_at (store_rows self.old) row.index).bits) count (Ok tt) }
        ensures rows { store_rows self.new ≡ with_put (store_rows self.old) row.index bit count }
        ensures limits { self.new.table.room ≡ self.old.table.room }
        ensures words { self.new.words.now ≡ run_wrote self.old.table.room (store_rows self.old) self.old.words.now row.index bit count }
        ensures place { self.new.words.ghost_name ≡ self.old.words.ghost_name }
    {
        let mark = next_mark(self.last(row), bit, count);
        self.table.append(self.words, row, u64::from(mark));
    }
}

impl Footprint for RunRows<'_> {
    ghost uses = { run_used };

    ghost none = { refl };

    // The clause is the trait's, written out: the prover does not take it over for a function without `self`.
    fn words_used(room: Room) -> usize
        ensures { result ≡ run_used room }
    {
        8 * room.puts as usize
    }
}

// `put` and `zeros` make their tests in each store: what comes after them requires that they passed, and no public call, so
// none of a trait, has a `requires`. `length` is two lines, and a body in the trait would need one more public call for it.
impl BitRows for RunRows<'_> {
    ghost rows = { λ s. rows_of s.table s.words.now };

    ghost limits = { λ s. s.table.room };

    ghost eight = { λ s. run_eight s.table.room s.words.now s.table.taken s.good.eight };

    ghost within = { λ s. run_within s.table.room s.words.now s.table.taken s.good.few s.good.narrow s.good.ok };

    ghost lent = { λ s. s.words.now };

    ghost place = { λ s. s.words.ghost_name };

    ghost layout = { RunsLaid };

    ghost laid = { λ s. run_words_lie s.table.room s.words.now s.table.taken s.good.enough s.good.eight s.good.ok };

    ghost wrote = { run_wrote };

    ghost wiped = { run_wiped };

    fn room(&self) -> Room {
        self.table.room
    }

    fn clear(&mut self) {
        self.table.empty(self.words);
    }

    fn put(&mut self, row: u32, bit: bool, count: u32) -> Result<(), RowsRefusal> {
        let row = row_index(row)?;
        let puts = self.row_puts(row);
        check_put(self.table.room, puts, self.row_length(row), count)?;
        self.push(row, bit, count);
        Ok(())
    }

    fn length(&self, row: u32) -> Result<u32, RowsRefusal> {
        let row = row_index(row)?;
        Ok(self.row_length(row))
    }

    fn zeros(&self, row: u32, position: u32) -> Result<u32, RowsRefusal> {
        let row = row_index(row)?;
        check_position(self.row_length(row), position)?;
        Ok(self.row_zeros(row, position))
    }
}

impl<'a> LentRows<'a> for RunRows<'a> {
    fn new(room: Room, words: &'a mut [u64]) -> RunRows<'a> {
        let room = granted_room::<Self>(room, words);
        let table = Table::over(room, words);
        RunRows { words, table }
    }

    fn into_words(self) -> &'a mut [u64] {
        self.words
    }
}
