// What both plans share: the tests that refuse, and blocks that rise by 16 bytes.
ghost use Rattle.std.specs.Prelude.{◌≡◌, ◌+◌, ◌*◌, ◌<◌, ◌≤◌};
ghost use Rattle.classes.specs.Plan.{request_answer, known_answer};

use crate::refusal::ClassRefusal;

// The request, unless it is 0 or above the largest block.
pub(crate) fn admitted(bytes: u32, most: u32) -> Result<u32, ClassRefusal>
    ensures { result ≡ request_answer most bytes }
{
    if bytes == 0 {
        return Err(ClassRefusal::ZeroRequest);
    }
    if bytes > most {
        return Err(ClassRefusal::AboveLargest);
    }
    Ok(bytes)
}

// The class, unless there are not so many.
pub(crate) fn known(class: u32, classes: u32) -> Result<u32, ClassRefusal>
    ensures { result ≡ known_answer classes class }
{
    if class < classes {
        Ok(class)
    } else {
        Err(ClassRefusal::NoSuchClass)
    }
}

// The lowest class that holds the request where class c has blocks of 16 * (c + 1) bytes.
pub(crate) fn sixteenth(bytes: u32) -> u32
    requires { 1 ≤ bytes }
    ensures over { 16 * result < bytes }
    ensures under { bytes ≤ 16 * (result + 1) }
{
    (bytes - 1) / 16
}

// The block of that class.
pub(crate) fn sixteens_block(class: u32) -> u32
    requires { class < 256 }
    ensures { result ≡ 16 * (class + 1) }
{
    16 * (class + 1)
}
