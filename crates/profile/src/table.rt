// A list of at most N items. The library has no heap: the slots are an array, with the number of those in use beside it.
// Its invariant is a ghost field: a value with a model cannot always be left behind when another part of the same variant
// is moved out.
ghost use Rattle.std.specs.Prelude.{◌≡◌, ◌<◌, ◌≤◌, [], length};

#[derive(Drop)]
pub(crate) struct Table<T: Copy, const N: usize> {
    slots: [T; N],
    len: usize,
    ghost within: { len ≤ N },
}

impl<T: Copy + Default, const N: usize> Table<T, N> {
    ghost use Rattle.profile.specs.Slots.{slots_of};

    pub(crate) fn new() -> Self
        ensures { (slots_of result).items ≡ [] }
    {
        Table {
            slots: [T::default(); N],
            len: 0,
        }
    }
}

impl<T: Copy, const N: usize> Table<T, N> {
    ghost use Rattle.profile.specs.Slots.{slots_of, with_item};

    pub(crate) fn len(&self) -> usize
        ensures value { result ≡ length (slots_of self.now).items }
        ensures within { result ≤ N }
    {
        self.len
    }

    pub(crate) fn push(&mut self, item: T)
        requires { length (slots_of self.old).items < N }
        ensures { slots_of self.new ≡ with_item (slots_of self.old) item }
    {
        self.slots[self.len] = item;
        self.len += 1;
    }
}
