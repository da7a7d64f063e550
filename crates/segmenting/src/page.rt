// A whole segmentation of an ink plane in lent memory (layout.rs, segment): sorted, grouped, and, unless refused, its results written.
ghost use Rattle.std.specs.Prelude.{◌≡◌, length};
ghost use Rattle.sorting.specs.stages.Scratch.{Planned};
ghost use Rattle.segmenting.specs.stages.Rooms.{SegmentRoom, SortedRoom};
ghost use Rattle.segmenting.specs.rules.Answers.{segment_outcome, segment_plane};

use crate::painting::paint_kinds;
use crate::results::{Segmentation, write_results};
use memory::Refusal;
use params::LayoutParams;
use smoothing::find_smears;
use sorting::{Plan, SortCounts, plan_of, sort_ink};

// Segments an ink plane of bytes 0 and 1. Results and plane of kinds are written only once nothing can refuse any more.
pub fn segment(
    ink: &[u8],
    width: u32,
    height: u32,
    sheet: LayoutParams,
    capacity: usize,
    words: &mut [u32],
    results: &mut [u32],
    plane: &mut [u8],
) -> Result<Segmentation, Refusal>
    requires { SegmentRoom sheet width height ink.now capacity words.old (length results.old) (length plane.old) }
    ensures { (length words.new ≡ length words.old) × (segment_outcome result results.new plane.new ≡ segment_plane sheet width height ink.now capacity results.old plane.old) }
{
    let plan = plan_of(width, height, capacity);
    let found = sort_ink(ink, plan, sheet, words).ok_or(Refusal::TooManyComponents)?;
    segment_sorted(ink, plan, sheet, found, words, results, plane)
}

// From the sorted ink on.
fn segment_sorted(
    ink: &[u8],
    plan: Plan,
    sheet: LayoutParams,
    found: SortCounts,
    words: &mut [u32],
    results: &mut [u32],
    plane: &mut [u8],
) -> Result<Segmentation, Refusal>
    requires { (SortedRoom sheet plan.width plan.height ink.now plan.capacity words.old found (length results.old) (length plane.old)) × (Planned plan) }
    ensures { (length words.new ≡ length words.old)
        × (segment_outcome result results.new plane.new ≡ segment_plane sheet plan.width plan.height ink.now plan.capacity results.old plane.old) }
{
    let measured = found.unit;
    let unit = measured.value();
    let runs = found.runs;
    let n = found.component_count;
    let smears = find_smears(plan, sheet, unit, runs, n, words)?;
    paint_kinds(ink, &words[..], runs, plan.kinds, plane);
    Ok(write_results(plan, sheet, found, smears, words, results))
}
