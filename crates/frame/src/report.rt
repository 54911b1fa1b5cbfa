// The summary of a table.
ghost use Rattle.frame.specs.Told.{Summed};

use crate::checked;
use answers::Refusal;
use frame_core::Figures;

// What a summary answers.
pub type Report = Result<Figures, Refusal>;

// Frames granted, frames managed, and the size of the largest free block.
pub fn summary(t: &[u64]) -> Report
    ensures { Summed t.now result }
{
    checked(t)?;
    Ok(frame_core::count_frames(t))
}
