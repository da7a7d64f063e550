// Run extents called by themselves: for each ink dot the length of the run through it, along its row or its column (layout.rs,
// extent_through). The entry and what it refuses.
ghost use Rattle.std.specs.Prelude.{◌≡◌};
ghost use Rattle.memory.specs.rules.Refusals.{answer_number};
ghost use Rattle.extents.specs.rules.Answers.{extents_refusal, extents_outcome, run_extents};

use crate::bands::column_extents;
use crate::rows::row_extents;
use memory::{Refusal, area, judge_sides};

// Which runs are asked for.
#[derive(Clone, Copy, Debug, PartialEq, Eq)]
pub enum Along {
    Rows,
    Columns,
}

// The run extents of a mask along its rows or its columns, a word a dot; any non-zero byte is ink.
pub fn run_extents(
    mask: &[u8],
    width: u32,
    height: u32,
    along: Along,
    extents: &mut [u32],
) -> Result<(), Refusal>
    ensures { extents_outcome result extents.new ≡ run_extents mask.now width height along extents.old }
{
    judge_extents(mask.len(), width, height, extents.len())?;
    match along {
        Along::Rows => row_extents(mask, width, height, extents),
        Along::Columns => column_extents(mask, width, height, extents),
    }
    Ok(())
}

// Whether the sides, the mask's length and the memory lent are as they must be.
#[tactic(auto, unfolding(crate::specs::rules::Answers::extents_refusal, memory::specs::rules::Masks::sides_refusal, memory::specs::rules::Refusals::refuse_if))]
fn judge_extents(
    mask_len: usize,
    width: u32,
    height: u32,
    extents_len: usize,
) -> Result<(), Refusal>
    ensures { answer_number result ≡ extents_refusal mask_len width height extents_len }
{
    judge_sides(width, height)?;
    let dots = area(width, height);
    if mask_len != dots {
        return Err(Refusal::MaskLength);
    }
    if extents_len < dots {
        return Err(Refusal::Lent);
    }
    Ok(())
}
