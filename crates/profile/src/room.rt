// The room of a profile: the most records that it holds, and the most that their counts add up to.
ghost use Rattle.std.specs.Prelude.{◌≤◌};

#[derive(Clone, Copy)]
pub(crate) struct Room {
    pub(crate) records: usize,
    pub(crate) total: u32,
    ghost few: { records ≤ 512 },
    ghost light: { total ≤ 33554432 },
}
