// The profile of an allocator: its plan, and what is noted and not yet closed.
use crate::pending::Pending;
use classes::SizeClasses;

// No ghost field and no model names the plan's blocks: then a profile could not stand in every generic type, and so the
// promises of its calls are handed the blocks beside it.
#[derive(Drop)]
pub struct Profile<P: SizeClasses> {
    pub(crate) plan: P,
    pub(crate) pending: Pending,
}
