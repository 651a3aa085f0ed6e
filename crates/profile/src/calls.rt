// The calls on a profile.
ghost use Rattle.std.specs.Prelude.{◌≡◌, false, is_ok};
ghost use Rattle.profile.specs.History.{fresh};
ghost use Rattle.profile.specs.Noting.{note_answer, after_note, NotedBy};
ghost use Rattle.profile.specs.Stands.{setting, Stands, Told, Wherever};

use crate::noting::record_of;
use crate::pending::Pending;
use crate::profile::Profile;
use crate::refusal::Refusal;
use crate::room::Room;
use classes::SizeClasses;

// The room of every profile.
const ROOM: Room = Room {
    records: 64,
    total: 65_536,
};

impl<P: SizeClasses> Profile<P> {
    // A new profile over a plan: nothing is noted.
    pub fn new(plan: P) -> Profile<P>
        ensures plan { result.plan ≡ plan }
        ensures stands { Stands (setting (P.blocks plan)) fresh result }
    {
        Profile {
            plan,
            pending: Pending::empty(),
        }
    }

    // Notes so many requests of so many bytes as one record; the number of records then held.
    pub fn note(&mut self, bytes: u32, count: u32) -> Result<u32, Refusal>
        ensures told { Told P.blocks self.old self.new (λ s h. after_note s h bytes count) (λ s h. note_answer s h bytes count) result }
        ensures why { Wherever P.blocks self.old (λ s h. NotedBy s h bytes count result) }
        ensures refused { is_ok result ≡ false → self.new ≡ self.old }
    {
        let item = record_of(&self.plan, bytes, count)?;
        self.pending.add(item, ROOM)
    }
}
