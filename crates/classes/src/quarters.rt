// The plan of quarters: 60 classes, from 64 bytes on four to each doubling of the block size.
ghost use Rattle.std.specs.Prelude.{◌≡◌, ◌<◌, ◌≤◌, slice_index};
ghost use Rattle.classes.specs.Plan.{class_of};
ghost use Rattle.classes.specs.Quarters.{quarters};
ghost use Rattle.classes.specs.Lawful.{quarters_length, quarters_largest, quarters_plan};

use crate::common::{sixteens_block, sixteenth};
use crate::formula::{Formula, block_at, class_count, lowest_class};
use crate::plan::SizeClasses;
use crate::refusal::ClassRefusal;

#[derive(Clone, Copy)]
pub struct Quarters;

impl SizeClasses for Quarters {
    ghost blocks = { λ _. quarters };

    fn classes(&self) -> u32 {
        class_count::<Self>()
    }

    fn class_of(&self, bytes: u32) -> Result<u32, ClassRefusal> {
        lowest_class::<Self>(bytes)
    }

    fn block_size(&self, class: u32) -> Result<u32, ClassRefusal> {
        block_at::<Self>(class)
    }

    ghost lawful = { λ _. quarters_plan };
}

impl Formula for Quarters {
    ghost listed = { quarters };

    ghost CLASSES = { 60 };

    const CLASSES: u32 = 60;

    ghost LARGEST_REQUEST = { 1048576 };

    const LARGEST_REQUEST: u32 = 1_048_576;

    #[tactic(auto, using(crate::proofs::QuartersBlocks::quarters_low_class))]
    fn class(bytes: u32) -> u32 {
        if bytes <= 64 {
            sixteenth(bytes)
        } else {
            high_class(bytes)
        }
    }

    #[tactic(auto, using(crate::proofs::QuartersBlocks::quarters_low))]
    fn block(class: u32) -> u32 {
        if class < 4 {
            sixteens_block(class)
        } else {
            high_block(class)
        }
    }

    ghost counted = { quarters_length };

    ghost last_block = { quarters_largest };

    ghost plan = { quarters_plan };
}

// From the highest bit of the number below the request, and the two bits that follow it.
fn high_class(bytes: u32) -> u32
    requires above { 64 < bytes }
    requires small { bytes ≤ 1048576 }
    ensures { result ≡ class_of quarters bytes }
{
    let below = bytes - 1;
    let top = below.ilog2();
    4 * (top - 6) + (below >> (top - 2))
}

// The doubling of 64 below the block, in quarters, and the quarters above it.
#[tactic(auto, using(crate::proofs::QuartersBlocks::quarters_high))]
fn high_block(class: u32) -> u32
    requires above { 4 ≤ class }
    requires small { class < 60 }
    ensures { result ≡ slice_index quarters class }
{
    let doubling = (class - 4) / 4;
    let quarter = (class - 4) % 4 + 1;
    (4 + quarter) << (4 + doubling)
}
