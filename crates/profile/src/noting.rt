// The pending records: which request becomes which record, and whether there is room for it.
ghost use Rattle.std.specs.Prelude.{◌≡◌, length};
ghost use Rattle.profile.specs.Noting.{count_answer, record_answer, room_answer};
ghost use Rattle.profile.specs.Stands.{held, Emptied, Added};

use crate::pending::{Pending, Record};
use crate::refusal::Refusal;
use crate::room::Room;
use crate::table::Table;
use classes::SizeClasses;

// A count from 1 to 65,535.
fn counted(count: u32) -> Result<u16, Refusal>
    ensures { result ≡ count_answer count }
{
    match u16::try_from(count) {
        Ok(count) if count > 0 => Ok(count),
        _ => Err(Refusal::CountOutOfRange),
    }
}

// The record that a request becomes.
pub(crate) fn record_of<P: SizeClasses>(plan: &P, bytes: u32, count: u32) -> Result<Record, Refusal>
    ensures { result ≡ record_answer (P.blocks plan.now) bytes count }
{
    let class = plan.class_of(bytes)?;
    let count = counted(count)?;
    Ok(Record {
        // a plan has at most 256 classes: `u8::try_from` would add a refusal that never comes
        class: class as u8,
        count,
    })
}

impl Pending {
    pub(crate) fn empty() -> Pending
        ensures { Emptied result }
    {
        Pending {
            records: Table::new(),
            total: 0,
        }
    }

    // Refuses where there is no room for one record more of this count.
    fn check_room(&self, count: u16, room: Room) -> Result<(), Refusal>
        ensures { result ≡ room_answer room.records room.total (length (held self.now)) self.now.total count }
    {
        if self.records.len() >= room.records {
            return Err(Refusal::RecordsFull);
        }
        if u64::from(self.total) + u64::from(count) > u64::from(room.total) {
            return Err(Refusal::TotalTooLarge);
        }
        Ok(())
    }

    // One record more, if there is room for it; the number of records then held.
    pub(crate) fn add(&mut self, item: Record, room: Room) -> Result<u32, Refusal>
        ensures { Added room.records room.total self.old item result self.new }
    {
        self.check_room(item.count, room)?;
        self.records.push(item);
        self.total += u32::from(item.count);
        // at most 512: `u32::try_from` would add a refusal that never comes
        Ok(self.records.len() as u32)
    }
}
