// A word of a row: how long the row is after a put, and how many of its bits are 0 then.
ghost use Rattle.std.specs.Prelude.{◌≡◌, ◌+◌, ◌*◌};
ghost use Rattle.run_rows.specs.RunWords.{end_of, zeros_of};

// A word has a row's length above these, and its zeros below.
const SPLIT: u64 = 4_294_967_296;

#[derive(Clone, Copy)]
pub(crate) struct Mark {
    pub(crate) end: u32,
    pub(crate) zeros: u32,
}

impl From<u64> for Mark {
    ghost from_gives = { λ w m. (m.end ≡ end_of w) × (m.zeros ≡ zeros_of w) };

    fn from(word: u64) -> Mark {
        // both halves fit: `u32::try_from` would add a case that never comes
        Mark {
            end: (word / SPLIT) as u32,
            zeros: (word % SPLIT) as u32,
        }
    }
}

impl From<Mark> for u64 {
    ghost from_gives = { λ m w. w ≡ m.end * 4294967296 + m.zeros };

    fn from(mark: Mark) -> u64 {
        u64::from(mark.end) * SPLIT + u64::from(mark.zeros)
    }
}
