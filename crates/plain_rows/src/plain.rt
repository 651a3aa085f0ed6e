// A store over lent words that keeps its bits. L is the room's bits / 64 rounded up. Row r has the 2 * L words from
// 2 * L * r on: L of bits, in which bit p has the value 2^(p % 64) in word p / 64, and then L of counts, of which count m
// is the number of 0 bits before position 64 * m once the row is at least 64 * m long.
ghost use Rattle.std.specs.Prelude.{◌≡◌, ℕ, ◌+◌, ◌-◌, ◌*◌, ◌/◌, ◌%◌, ◌^◌, ◌<◌, ◌≤◌, ◌++◌, length, take, replicate, if◌then◌else◌, Ok, count_ones, slice_index, slice_set, refl};
ghost use Rattle.rows.specs.Meaning.{row_at, cleared, FitBy, with_put, zeros_in};
ghost use Rattle.plain_rows.specs.PlainWords.{PlainLaid, bit_words, plain_used, plain_wrote, plain_wiped, word, zeros_before, bits_of};
ghost use Rattle.plain_rows.specs.PlainTable.{Good, Grown, IsRow, filled_at, rows_of};
ghost use Rattle.plain_rows.specs.PlainSound.{length-rows, rows_within, words_lie};

use rows::{
    BitRows, Footprint, LentRows, Room, RowIndex, RowsRefusal, check_position, check_put,
    granted_room, row_index, zero_front,
};

// How many bits a row has, and how many puts it has taken.
#[derive(Clone, Copy)]
struct Filled {
    bits: u32,
    puts: u16,
}

const EMPTY: Filled = Filled { bits: 0, puts: 0 };

// What a store keeps beside its words: its room, and the bits and puts of each row.
#[derive(Drop)]
struct Table {
    room: Room,
    rows: [Filled; 8],
}

#[derive(Drop)]
pub struct PlainRows<'a> {
    words: &'a mut [u64],
    table: Table,
    ghost good: { Good table words.now },
}

// How many words the bits of a row take.
fn bit_words(room: Room) -> usize
    ensures { result ≡ bit_words room.bits }
{
    room.bits.div_ceil(64) as usize
}

// The word with its k lowest bits 1.
fn low_ones(k: u32) -> u64
    requires { (0 < k) × (k ≤ 64) }
    ensures { result ≡ 2 ^ k - 1 }
{
    u64::MAX >> (64 - k)
}

// The word with `count` copies of a bit from place k on, and 0 elsewhere.
fn run_at(bit: bool, k: u32, count: u32) -> u64
    requires { (0 < count) × (k + count ≤ 64) }
    ensures { result ≡ (if bit then 2 ^ count - 1 else 0) * 2 ^ k }
{
    if bit { low_ones(count) << k } else { 0 }
}

// How many of a word's k lowest bits are 0.
fn low_zeros(word: u64, k: u32) -> u32
    requires { (0 < k) × (k ≤ 64) }
    ensures { result ≡ k - count_ones (word % 2 ^ k) }
{
    k - (word & low_ones(k)).count_ones()
}

// The count after a full word: the zeros before it, and its own.
fn next_count(zeros: u64, word: u64) -> u64
    requires { zeros ≤ 33554432 }
    ensures { result ≡ zeros + count_ones (2 ^ 64 - 1 - word) }
{
    zeros + u64::from(word.count_zeros())
}

// How many bits of its word lie at a position or before: 1 to 64.
fn bits_to(position: u32) -> u32
    ensures { result ≡ position % 64 + 1 }
{
    position % 64 + 1
}

// Appends `count` copies of a bit, within one word, to the words of a row of `size` bits. Where that word is full then,
// the next count is written.
fn write_run(words: &mut [u64], size: u32, bit: bool, count: u32)
    requires row { IsRow (length words.old / 2) (bits_of words.old size) words.old }
    requires some { 0 < count }
    requires inside { size % 64 + count ≤ 64 }
    requires fits { size + count ≤ 64 * (length words.old / 2) }
    requires short { size ≤ 33554432 }
    ensures { IsRow (length words.old / 2) (bits_of words.old size ++ replicate count bit) words.new }
{
    let (bits, counts) = words.split_at_mut(words.len() / 2);
    let m = (size / 64) as usize;
    bits[m] |= run_at(bit, size % 64, count);
    let end = size + count;
    let next = (end / 64) as usize;
    if end % 64 == 0 && next < bits.len() {
        counts[next] = next_count(counts[m], bits[m]);
    }
}

impl Table {
    // A table of no bit and no put, with the words in use set to 0.
    fn over(room: Room, words: &mut [u64]) -> Table
        requires few { room.puts ≤ 512 }
        requires narrow { room.bits ≤ 33554432 }
        requires enough { plain_used room ≤ length words.old }
        ensures good { Good result words.new }
        ensures rows { rows_of result words.new ≡ cleared }
        ensures words { words.new ≡ plain_wiped room words.old }
        ensures room { result.room ≡ room }
    {
        let mut table = Table {
            room,
            rows: [EMPTY; 8],
        };
        table.empty(words);
        table
    }

    // Appends `count` copies of a bit to a row, within one word.
    fn extend(&mut self, words: &mut [u64], row: RowIndex, bit: bool, count: u32)
        requires good { Good self.old words.old }
        requires some { 0 < count }
        requires inside { length (row_at (rows_of self.old words.old) row.index).bits % 64 + count ≤ 64 }
        requires fits { length (row_at (rows_of self.old words.old) row.index).bits + count ≤ self.old.room.bits }
        ensures { Grown row.index bit count self.old words.old self.new words.new }
    {
        let blocks = bit_words(self.room);
        let start = 2 * blocks * row.index;
        let size = self.rows[row.index].bits;
        write_run(&mut words[start..start + 2 * blocks], size, bit, count);
        self.rows[row.index].bits = size + count;
    }

    // Appends `count` copies of a bit to a row, word by word.
    fn append(&mut self, words: &mut [u64], row: RowIndex, bit: bool, count: u32)
        requires good { Good self.old words.old }
        requires fits { length (row_at (rows_of self.old words.old) row.index).bits + count ≤ self.old.room.bits }
        ensures { Grown row.index bit count self.old words.old self.new words.new }
    {
        // the steps differ in length: each ends at a word's end, or where the run does
        let mut left = count;
        while left > 0 {
            let more = left.min(64 - self.rows[row.index].bits % 64);
            self.extend(words, row, bit, more);
            left -= more;
        }
    }

    // One put more of a row.
    fn count(&mut self, row: RowIndex)
        requires { (filled_at self.old.rows row.index).puts < 512 }
        ensures rows { self.new.rows ≡ slice_set self.old.rows row.index (record { bits = (filled_at self.old.rows row.index).bits; puts = (filled_at self.old.rows row.index).puts + 1 }) }
        ensures room { self.new.room ≡ self.old.room }
    {
        self.rows[row.index].puts += 1;
    }

    // Sets the words in use to 0, and the bits and puts of every row too.
    fn empty(&mut self, words: &mut [u64])
        requires { plain_used self.old.room ≤ length words.old }
        ensures words { words.new ≡ plain_wiped self.old.room words.old }
        ensures rows { self.new.rows ≡ replicate 8 (record { bits = 0; puts = 0 }) }
        ensures room { self.new.room ≡ self.old.room }
    {
        zero_front(words, PlainRows::words_used(self.room));
        self.rows = [EMPTY; 8];
    }
}

impl PlainRows<'_> {
    ghost use Rattle.plain_rows.specs.PlainStore.{store_rows};

    // The words of a row: those of its bits, and its counts.
    fn row_words(&self, row: RowIndex) -> (&[u64], &[u64])
        ensures wide { (length result.0.now ≡ bit_words self.now.table.room.bits) × (length result.1.now ≡ bit_words self.now.table.room.bits) }
        ensures bits { (m : ℕ) → m < bit_words self.now.table.room.bits → slice_index result.0.now m ≡ word (row_at (store_rows self.now) row.index).bits m }
        ensures counts { (m : ℕ) → m < bit_words self.now.table.room.bits → slice_index result.1.now m ≡ zeros_before (row_at (store_rows self.now) row.index).bits m }
    {
        let blocks = bit_words(self.table.room);
        let start = 2 * blocks * row.index;
        self.words[start..start + 2 * blocks].split_at(blocks)
    }

    fn row_length(&self, row: RowIndex) -> u32
        ensures { result ≡ length (row_at (store_rows self.now) row.index).bits }
    {
        self.table.rows[row.index].bits
    }

    fn row_puts(&self, row: RowIndex) -> u32
        ensures { result ≡ (row_at (store_rows self.now) row.index).puts }
    {
        u32::from(self.table.rows[row.index].puts)
    }

    fn row_zeros(&self, row: RowIndex, position: u32) -> u32
        requires { position ≤ length (row_at (store_rows self.now) row.index).bits }
        ensures { result ≡ zeros_in (take position (row_at (store_rows self.now) row.index).bits) }
    {
        let Some(last) = position.checked_sub(1) else {
            return 0;
        };
        let (bits, counts) = self.row_words(row);
        let m = (last / 64) as usize;
        // a count is at most the row's length: `u32::try_from` would add a case that never comes
        counts[m] as u32 + low_zeros(bits[m], bits_to(last))
    }

    // One put that there is room for. A bit and a count, as `put` takes them: a struct of both would be made for this alone.
    fn push(&mut self, row: RowIndex, bit: bool, count: u32)
        requires { FitBy self.old.table.room (row_at (store_rows self.old) row.index).puts (length (row_at (store_rows self.old) row.index).bits) count (Ok tt) }
        ensures rows { store_rows self.new ≡ with_put (store_rows self.old) row.index bit count }
        ensures limits { self.new.table.room ≡ self.old.table.room }
        ensures words { self.new.words.now ≡ plain_wrote self.old.table.room (store_rows self.old) self.old.words.now row.index bit count }
        ensures place { self.new.words.ghost_name ≡ self.old.words.ghost_name }
    {
        self.table.append(self.words, row, bit, count);
        self.table.count(row);
    }
}

impl Footprint for PlainRows<'_> {
    ghost uses = { plain_used };

    ghost none = { refl };

    // The clause is the trait's, written out: the prover does not take it over for a function without `self`.
    fn words_used(room: Room) -> usize
        ensures { result ≡ plain_used room }
    {
        16 * bit_words(room)
    }
}

// `put` and `zeros` make their tests in each store: what comes after them requires that they passed, and no public call, so
// none of a trait, has a `requires`. `length` is two lines, and a body in the trait would need one more public call for it.
impl BitRows for PlainRows<'_> {
    ghost rows = { λ s. rows_of s.table s.words.now };

    ghost limits = { λ s. s.table.room };

    ghost eight = { λ s. length-rows (bit_words s.table.room.bits) s.words.now s.table.rows };

    ghost within = { λ s. rows_within s.table s.words.now s.good.few s.good.narrow s.good.within };

    ghost lent = { λ s. s.words.now };

    ghost place = { λ s. s.words.ghost_name };

    ghost layout = { PlainLaid };

    ghost laid = { λ s. words_lie s.table s.words.now s.good.enough s.good.ok };

    ghost wrote = { plain_wrote };

    ghost wiped = { plain_wiped };

    fn room(&self) -> Room {
        self.table.room
    }

    fn clear(&mut self) {
        self.table.empty(self.words);
    }

    fn put(&mut self, row: u32, bit: bool, count: u32) -> Result<(), RowsRefusal> {
        let row = row_index(row)?;
        let puts = self.row_puts(row);
        let bits = self.row_length(row);
        check_put(self.table.room, puts, bits, count)?;
        self.push(row, bit, count);
        Ok(())
    }

    fn length(&self, row: u32) -> Result<u32, RowsRefusal> {
        let row = row_index(row)?;
        Ok(self.row_length(row))
    }

    fn zeros(&self, row: u32, position: u32) -> Result<u32, RowsRefusal> {
        let row = row_index(row)?;
        check_position(self.row_length(row), position)?;
        Ok(self.row_zeros(row, position))
    }
}

impl<'a> LentRows<'a> for PlainRows<'a> {
    fn new(room: Room, words: &'a mut [u64]) -> PlainRows<'a> {
        let room = granted_room::<Self>(room, words);
        let table = Table::over(room, words);
        PlainRows { words, table }
    }

    fn into_words(self) -> &'a mut [u64] {
        self.words
    }
}
