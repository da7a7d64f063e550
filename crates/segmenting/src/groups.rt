// Blocks and columns of a segmentation, from the lines that stand in the words lent for results.
ghost use Rattle.std.specs.Prelude.{◌≡◌, List, ℕ, length};
ghost use Rattle.grouping.specs.rules.Blocks.{block_firsts, blocks_of};
ghost use Rattle.grouping.specs.rules.Columns.{columns_of};
ghost use Rattle.smoothing.specs.rules.Lines.{SmoothedLine};
ghost use Rattle.segmenting.specs.stages.Places.{Placed};
ghost use Rattle.segmenting.specs.stages.Writing.{boxes_of_lines, GroupRoom, groups_left};

use crate::places::ResultPlaces;
use grouping::{blocks, columns};
use params::LayoutParams;
use sorting::Plan;

// How many blocks and columns there are.
#[derive(Clone, Copy, Debug, PartialEq, Eq)]
pub struct GroupCounts {
    pub blocks: usize,
    pub columns: usize,
}

// Groups the lines that stand in the results: writes the blocks, the number of its block into each line, and the columns.
pub fn write_groups(
    plan: Plan,
    sheet: LayoutParams,
    unit: f64,
    lines: usize,
    places: ResultPlaces,
    words: &mut [u32],
    results: &mut [u32],
) -> GroupCounts
    requires { (ls : List SmoothedLine) × (before : List ℕ) × GroupRoom plan.width plan.height plan.capacity ls before results.old lines (length words.old) × Placed places plan.width plan.capacity }
    ensures { (ls : List SmoothedLine) (before : List ℕ) → GroupRoom plan.width plan.height plan.capacity ls before results.old lines (length words.old)
        → (result.blocks ≡ length (blocks_of (boxes_of_lines ls) (block_firsts sheet (boxes_of_lines ls)))) × (result.columns ≡ length (columns_of sheet unit plan.width (boxes_of_lines ls)))
        × (results.new ≡ groups_left sheet unit plan.width plan.capacity ls before) }
{
    let w = plan.width as usize;
    let at = places.lines;
    let behind = places.blocks - at;
    let found = blocks(&mut results[at..], lines, sheet, plan.height, behind, words);
    let across = columns(results, at, lines, sheet, unit, w, words);
    GroupCounts {
        blocks: found,
        columns: across,
    }
}
