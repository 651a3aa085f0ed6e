// The plan of sixteens: 256 classes, each block 16 bytes larger than the one before.
ghost use Rattle.classes.specs.Sixteens.{sixteens};
ghost use Rattle.classes.specs.Lawful.{sixteens_length, sixteens_largest, sixteens_plan};

use crate::common::{sixteens_block, sixteenth};
use crate::formula::{Formula, block_at, class_count, lowest_class};
use crate::plan::SizeClasses;
use crate::refusal::ClassRefusal;

#[derive(Clone, Copy)]
pub struct Sixteens;

impl SizeClasses for Sixteens {
    ghost blocks = { λ _. sixteens };

    fn classes(&self) -> u32 {
        class_count::<Self>()
    }

    fn class_of(&self, bytes: u32) -> Result<u32, ClassRefusal> {
        lowest_class::<Self>(bytes)
    }

    fn block_size(&self, class: u32) -> Result<u32, ClassRefusal> {
        block_at::<Self>(class)
    }

    ghost lawful = { λ _. sixteens_plan };
}

impl Formula for Sixteens {
    ghost listed = { sixteens };

    ghost CLASSES = { 256 };

    const CLASSES: u32 = 256;

    ghost LARGEST_REQUEST = { 4096 };

    const LARGEST_REQUEST: u32 = 4_096;

    #[tactic(auto, using(crate::proofs::SixteensBlocks::sixteens_class))]
    fn class(bytes: u32) -> u32 {
        sixteenth(bytes)
    }

    #[tactic(auto, using(crate::proofs::SixteensBlocks::sixteens_at))]
    fn block(class: u32) -> u32 {
        sixteens_block(class)
    }

    ghost counted = { sixteens_length };

    ghost last_block = { sixteens_largest };

    ghost plan = { sixteens_plan };
}
