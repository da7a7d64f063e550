// From the sorted ink to the labelled and counted glyphs: the glyphs smoothed along rows, the smoothed components labelled, each
// glyph's label and the glyphs of each smoothed component, and how many lines there are. Where things stand is laid out in
// sorting's specs/Scratch.
ghost use Rattle.std.specs.Prelude.{◌≡◌, List, ℕ, length};
ghost use Rattle.sorting.specs.rules.Sorted.{sorted};
ghost use Rattle.sorting.specs.stages.Scratch.{Planned};
ghost use Rattle.smoothing.specs.stages.Segments.{SortedPage, SmearsLabelled, smears_left};

use crate::glyphs::{count_glyphs, label_glyphs};
use crate::lines::count_lines;
use crate::smooth::smooth_runs;
use labelling::label_sizes;
use memory::{MAX_LINES, Refusal};
use params::LayoutParams;
use rounding::round_to_u32;
use sorting::Plan;

// How many smoothed components and lines there are.
#[derive(Clone, Copy, Debug, PartialEq, Eq)]
pub struct Smears {
    pub smears: usize,
    pub lines: usize,
}

// How many smoothed runs there are, and how many components they have.
#[derive(Clone, Copy, Debug, PartialEq, Eq)]
pub struct SmearLabels {
    pub runs: usize,
    pub smears: usize,
}

// Labels and counts the glyphs of a sorted plane with so many runs and components after the cut.
pub fn find_smears(
    plan: Plan,
    sheet: LayoutParams,
    unit: f64,
    runs: usize,
    component_count: usize,
    words: &mut [u32],
) -> Result<Smears, Refusal>
    requires { (m : List ℕ) × SortedPage sheet plan.width plan.height m plan.capacity words.old unit runs × (component_count ≡ length (sorted sheet plan.width plan.height m).rest.components) × Planned plan }
    ensures { (m : List ℕ) → SortedPage sheet plan.width plan.height m plan.capacity words.old unit runs → component_count ≡ length (sorted sheet plan.width plan.height m).rest.components
        → (length words.new ≡ length words.old) × smears_left result sheet plan.width plan.height m plan.capacity words.new runs }
{
    let found = label_smears(plan, sheet, unit, runs, words);
    let smears = found.smears;
    if plan.capacity < smears {
        return Err(Refusal::TooManyComponents);
    }
    let numbers = 3 * runs + 2 * found.runs;
    label_glyphs(words, plan.kinds, component_count, plan.glyphs, numbers);
    count_glyphs(words, plan.kinds, component_count, plan.glyphs, smears);
    let lines = count_lines(&words[..], plan.smears, plan.glyphs, smears, sheet, unit);
    if (MAX_LINES as usize) < lines {
        return Err(Refusal::TooManyLines);
    }
    Ok(Smears { smears, lines })
}

// Smooths the glyphs along rows and labels the smoothed runs, which stand behind the runs and their numbers; answers how many smoothed
// runs there are and how many components, or one more than the capacity.
fn label_smears(
    plan: Plan,
    sheet: LayoutParams,
    unit: f64,
    runs: usize,
    words: &mut [u32],
) -> SmearLabels
    requires { (m : List ℕ) × SortedPage sheet plan.width plan.height m plan.capacity words.old unit runs × Planned plan }
    ensures { (m : List ℕ) → SortedPage sheet plan.width plan.height m plan.capacity words.old unit runs
        → SmearsLabelled sheet plan.width plan.height m plan.capacity words.old words.new runs result }
{
    let w = plan.width as usize;
    let h = plan.height as usize;
    let gap = round_to_u32(sheet.smear_xh * unit) as usize;
    let c = smooth_runs(words, runs, w, h, plan.kinds, plan.glyphs, gap);
    let from = 3 * runs;
    let to = plan.smears - from;
    let smears = label_sizes(&mut words[from..], c, w, h, plan.capacity, to);
    SmearLabels { runs: c, smears }
}
