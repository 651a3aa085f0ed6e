// Runs of bits, put one after the other into any store.
ghost use Rattle.std.specs.Prelude.{◌≡◌, length};
ghost use Rattle.rows.specs.Meaning.{Within, cleared, granted};
ghost use Rattle.run_rows.specs.RunWords.{run_used, run_wiped, run_wrote};
ghost use Rattle.plain_rows.specs.PlainWords.{plain_used, plain_wiped, plain_wrote};
ghost use Rattle.compare_rows.specs.Appending.{appended, appended_words};

use plain_rows::PlainRows;
use rows::{BitRows, LentRows, Room, RowsRefusal};
use run_rows::RunRows;

// So many copies of a bit.
#[derive(Clone, Copy)]
pub struct Run {
    pub bit: bool,
    pub count: u32,
}

// Puts one run after the other, until one is refused.
pub fn append<S: BitRows>(rows: &mut S, row: u32, runs: &[Run]) -> Result<(), RowsRefusal>
    ensures answer { result ≡ (appended (S.BitRows.limits rows.old) row (S.BitRows.rows rows.old) runs.now).answer }
    ensures rows { S.BitRows.rows rows.new ≡ (appended (S.BitRows.limits rows.old) row (S.BitRows.rows rows.old) runs.now).rows }
    ensures limits { S.BitRows.limits rows.new ≡ S.BitRows.limits rows.old }
    ensures words { S.BitRows.lent rows.new ≡ appended_words S.BitRows.wrote (S.BitRows.limits rows.old) row (S.BitRows.rows rows.old) (S.BitRows.lent rows.old) runs.now }
    ensures place { S.BitRows.place rows.new ≡ S.BitRows.place rows.old }
{
    for run in runs {
        rows.put(row, run.bit, run.count)?;
    }
    Ok(())
}

// Clears a store and then puts one run after the other. The rows are then within the room, and the words lie as the
// store's layout says.
pub fn rewrite<S: BitRows>(rows: &mut S, row: u32, runs: &[Run]) -> Result<(), RowsRefusal>
    ensures answer { result ≡ (appended (S.BitRows.limits rows.old) row cleared runs.now).answer }
    ensures rows { S.BitRows.rows rows.new ≡ (appended (S.BitRows.limits rows.old) row cleared runs.now).rows }
    ensures within { Within (S.BitRows.limits rows.old) (S.BitRows.rows rows.new) }
    ensures words { S.BitRows.lent rows.new ≡ appended_words S.BitRows.wrote (S.BitRows.limits rows.old) row cleared (S.BitRows.wiped (S.BitRows.limits rows.old) (S.BitRows.lent rows.old)) runs.now }
    ensures laid { S.BitRows.layout (S.BitRows.limits rows.old) (S.BitRows.rows rows.new) (S.BitRows.lent rows.new) }
    ensures place { S.BitRows.place rows.new ≡ S.BitRows.place rows.old }
{
    rows.clear();
    append(rows, row, runs)
}

// Makes a store over these words, puts one run after the other into it, and gives the words back, with what they then hold.
pub fn words_after<'a, S: LentRows<'a>>(
    room: Room,
    words: &'a mut [u64],
    row: u32,
    runs: &[Run],
) -> &'a mut [u64]
    ensures words { result.now ≡ appended_words S.wrote (granted S.uses room (length words.old)) row cleared (S.wiped (granted S.uses room (length words.old)) words.old) runs.now }
    ensures place { result.ghost_name ≡ words.entry.ghost_name }
{
    let mut rows = S::new(room, words);
    let _ = append(&mut rows, row, runs);
    rows.into_words()
}

// What the words hold when a store has been dropped is known of a store by its name alone, so this and the next are two.
pub fn run_words(room: Room, words: &mut [u64], row: u32, runs: &[Run])
    ensures { words.new ≡ appended_words run_wrote (granted run_used room (length words.old)) row cleared (run_wiped (granted run_used room (length words.old)) words.old) runs.now }
{
    let mut rows = RunRows::new(room, words);
    let _ = append(&mut rows, row, runs);
}

pub fn plain_words(room: Room, words: &mut [u64], row: u32, runs: &[Run])
    ensures { words.new ≡ appended_words plain_wrote (granted plain_used room (length words.old)) row cleared (plain_wiped (granted plain_used room (length words.old)) words.old) runs.now }
{
    let mut rows = PlainRows::new(room, words);
    let _ = append(&mut rows, row, runs);
}
