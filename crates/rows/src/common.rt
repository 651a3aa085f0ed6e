// What every store does: the tests that refuse, the room that is granted, and words that are set to 0.
ghost use Rattle.std.specs.Prelude.{◌≡◌, ◌<◌, ◌≤◌, length, replicate, IfOk, MatchResult};
ghost use Rattle.rows.specs.Meaning.{row_answer, fit_answer, FitBy, end_answer, bounds_answer, words_answer, left_by, zeroed};

use crate::refusal::RowsRefusal;
use crate::room::Room;
use crate::row::RowIndex;

// The row, unless it is above 7.
pub fn known_row(row: u32) -> Result<usize, RowsRefusal>
    ensures answer { result ≡ row_answer row }
    ensures low { IfOk result (λ n. n < 8) }
{
    if row > 7 {
        return Err(RowsRefusal::NoSuchRow);
    }
    Ok(row as usize)
}

// The same as an index. A function and no `TryFrom`: it is one of the tests of a store, with its refusal.
pub fn row_index(row: u32) -> Result<RowIndex, RowsRefusal>
    ensures { MatchResult result (λ r. row_answer row ≡ Ok r.index) (λ e. row_answer row ≡ Err e) }
{
    Ok(RowIndex {
        index: known_row(row)?,
    })
}

// Whether a row of so many puts and bits takes one put more, of `count` bits.
pub fn check_put(room: Room, puts: u32, bits: u32, count: u32) -> Result<(), RowsRefusal>
    ensures value { result ≡ fit_answer room puts bits count }
    ensures why { FitBy room puts bits count result }
{
    if count == 0 {
        return Err(RowsRefusal::EmptyPut);
    }
    if puts >= room.puts {
        return Err(RowsRefusal::PutsFull);
    }
    if u64::from(bits) + u64::from(count) > u64::from(room.bits) {
        return Err(RowsRefusal::RowTooLong);
    }
    Ok(())
}

// Whether a position lies in a row of so many bits, or at its end.
pub fn check_position(bits: u32, position: u32) -> Result<(), RowsRefusal>
    ensures { result ≡ end_answer bits position }
{
    if position > bits {
        return Err(RowsRefusal::PastEnd);
    }
    Ok(())
}

// Whether a store can have this room.
pub fn check_bounds(room: Room) -> Result<(), RowsRefusal>
    ensures { result ≡ bounds_answer room }
{
    if room.puts == 0 || room.puts > 512 || room.bits == 0 || room.bits > 33_554_432 {
        return Err(RowsRefusal::RoomOutOfBounds);
    }
    Ok(())
}

// Whether so many words are lent as are used.
pub fn check_words(used: usize, lent: usize) -> Result<(), RowsRefusal>
    ensures { result ≡ words_answer used lent }
{
    if lent < used {
        return Err(RowsRefusal::TooFewWords);
    }
    Ok(())
}

// The room, or none where the check refused.
pub fn room_if(checked: Result<(), RowsRefusal>, room: Room) -> Room
    ensures { result ≡ left_by checked room (record { puts = 0; bits = 0 }) }
{
    match checked {
        Ok(()) => room,
        Err(_) => Room { puts: 0, bits: 0 },
    }
}

// Sets the first n words to 0, or all where there are fewer.
pub fn zero_front(words: &mut [u64], n: usize)
    ensures front { n ≤ length words.old → words.new ≡ zeroed n words.old }
    ensures all { length words.old ≤ n → words.new ≡ replicate (length words.old) 0 }
{
    let end = n.min(words.len());
    words[..end].fill(0);
}
