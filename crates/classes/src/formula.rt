// A plan by two formulas: the class of each request that is admitted, and the block of each class.
ghost use Rattle.std.specs.Prelude.{◌≡◌, ℕ, ◌<◌, ◌≤◌, List, length, slice_index};
ghost use Rattle.classes.specs.Plan.{Plan, Classed, largest, class_of, class_answer, block_answer};

use crate::common::{admitted, known};
use crate::refusal::ClassRefusal;

pub(crate) trait Formula {
    // the block size of each class
    ghost listed: { List ℕ };

    ghost CLASSES: { ℕ };

    const CLASSES: u32;

    ghost LARGEST_REQUEST: { ℕ };

    const LARGEST_REQUEST: u32;

    // The lowest class whose block is at least the request.
    fn class(bytes: u32) -> u32
        requires some { 1 ≤ bytes }
        requires small { bytes ≤ LARGEST_REQUEST }
        ensures { result ≡ class_of listed bytes };

    // The block size of a class.
    fn block(class: u32) -> u32
        requires { class < CLASSES }
        ensures { result ≡ slice_index listed class };

    ghost counted: { length listed ≡ CLASSES };

    ghost last_block: { largest listed ≡ LARGEST_REQUEST };

    ghost plan: { Plan listed };
}

// What a plan of two formulas answers: each plan's `impl` of `SizeClasses` is these three. One `impl` for all of them would
// match every type: the `impl` of a plan of another crate would then be a second match of the bound there.

pub(crate) fn class_count<F: Formula>() -> u32
    ensures { result ≡ length F.listed }
{
    F::CLASSES
}

pub(crate) fn lowest_class<F: Formula>(bytes: u32) -> Result<u32, ClassRefusal>
    ensures value { result ≡ class_answer F.listed bytes }
    ensures lowest { Classed F.listed bytes result }
{
    let bytes = admitted(bytes, F::LARGEST_REQUEST)?;
    Ok(F::class(bytes))
}

pub(crate) fn block_at<F: Formula>(class: u32) -> Result<u32, ClassRefusal>
    ensures { result ≡ block_answer F.listed class }
{
    let class = known(class, F::CLASSES)?;
    Ok(F::block(class))
}
