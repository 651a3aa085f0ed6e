// A plan of size classes, by its list of block sizes.
ghost use Rattle.std.specs.Prelude.{◌≡◌, ℕ, List, length};
ghost use Rattle.classes.specs.Plan.{Plan, Classed, class_answer, block_answer};

use crate::refusal::ClassRefusal;

pub trait SizeClasses {
    // the block size of each class, from class 0 on
    ghost blocks: { Self → List ℕ };

    // The number of classes.
    fn classes(&self) -> u32
        ensures { result ≡ length (blocks self.now) };

    // The lowest class whose block is at least the request.
    fn class_of(&self, bytes: u32) -> Result<u32, ClassRefusal>
        ensures value { result ≡ class_answer (blocks self.now) bytes }
        ensures lowest { Classed (blocks self.now) bytes result };

    // The block size of a class.
    fn block_size(&self, class: u32) -> Result<u32, ClassRefusal>
        ensures { result ≡ block_answer (blocks self.now) class };

    ghost lawful: { (x : Self) → Plan (blocks x) };
}
