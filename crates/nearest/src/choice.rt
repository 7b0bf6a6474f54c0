//! Which of two repairs of a pair is the answer, by how far they are.
ghost use Rattle.std.specs.Prelude.{◌≡◌};
ghost use Rattle.nearest.specs.Nearest.{nearer};

use crate::answer::NO_REPAIR;
use repairs::Letter;

/// The nearer of the repair up and the repair down, up where both are as near; fixed where there is neither.
pub fn nearer(above: u32, below: u32) -> Letter
    ensures { result ≡ nearer above below }
{
    if below < above {
        Letter::Down
    } else if above >= NO_REPAIR {
        Letter::Fixed
    } else {
        Letter::Up
    }
}
