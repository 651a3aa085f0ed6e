// A store over words that the caller lends.
ghost use Rattle.std.specs.Prelude.{◌≡◌, ℕ, ◌≤◌, length};
ghost use Rattle.rows.specs.declared.room.Room.{Room};
ghost use Rattle.rows.specs.Meaning.{cleared, check_answer, granted};

use crate::common::{check_bounds, check_words, room_if};
use crate::refusal::RowsRefusal;
use crate::room::Room;
use crate::store::BitRows;

// How many words a store of a room uses, and so whether one can be made.
pub trait Footprint {
    // the number of words of a store of each room
    ghost uses: { Room → ℕ };

    fn words_used(room: Room) -> usize
        ensures { result ≡ uses room };

    // Whether a store of this room can be made over these words.
    fn check(room: Room, words: &[u64]) -> Result<(), RowsRefusal>
        ensures { result ≡ check_answer uses room (length words.now) }
    {
        check_bounds(room)?;
        check_words(Self::words_used(room), words.len())
    }

    // A store of no room uses no word.
    ghost none: { uses (record { puts = 0; bits = 0 }) ≡ 0 };
}

// A store whose words are lent for `'a`.
pub trait LentRows<'a>: BitRows + Footprint {
    // A cleared store of this room over these words, or where the check refuses, one with no room that touches no word.
    fn new(room: Room, words: &'a mut [u64]) -> Self
        ensures rows { Self.rows result ≡ cleared }
        ensures limits { Self.limits result ≡ granted Self.uses room (length words.old) }
        ensures words { Self.lent result ≡ Self.wiped (granted Self.uses room (length words.old)) words.old }
        ensures place { Self.place result ≡ words.entry.ghost_name };

    // The words, given back.
    fn into_words(self) -> &'a mut [u64]
        ensures words { result.now ≡ Self.lent self }
        ensures place { result.ghost_name ≡ Self.place self };
}

// The room that a store over so many words is made with.
pub fn granted_room<S: Footprint>(room: Room, words: &[u64]) -> Room
    ensures value { result ≡ granted S.uses room (length words.now) }
    ensures few { result.puts ≤ 512 }
    ensures narrow { result.bits ≤ 33554432 }
    ensures enough { S.uses result ≤ length words.now }
{
    room_if(S::check(room, words), room)
}
