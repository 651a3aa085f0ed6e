// The number of one of the eight rows, as an index.
ghost use Rattle.std.specs.Prelude.{◌<◌};

#[derive(Clone, Copy, Debug, PartialEq, Eq)]
pub struct RowIndex {
    pub index: usize,
    pub ghost low: { index < 8 },
}
