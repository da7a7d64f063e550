// A whole ink plane sorted in one slice of scratch: labelled and measured, cut along thin rulings, labelled and measured anew.
ghost use Rattle.std.specs.Prelude.{◌≡◌, false, ℕ, ◌+◌, ◌-◌, ◌*◌, ◌≤◌, length};
ghost use Rattle.memory.specs.rules.Limits.{max_mask_dots};
ghost use Rattle.labelling.specs.declared.marked.Test.TheVariants.{First, Second, Neither};
ghost use Rattle.rulings.specs.rules.Rulings.{run_min, thick_max};
ghost use Rattle.rulings.specs.stages.Marks.{Blank};
ghost use Rattle.rulings.specs.stages.Sweeps.{RulingsRoom};
ghost use Rattle.sorting.specs.stages.Scratch.{SortRoom, Planned};
ghost use Rattle.sorting.specs.stages.SortSteps.{sort_left, FrameRoom, passed, CutLabelled, rest_left, CutMarked, InkCut, FirstHeld, cuts_left};

use crate::Unit;
use crate::measure::{measure_unit, pack_boxes, total_area, write_kinds};
use crate::plan::{Plan, plan_of};
use labelling::{Test, extract_marked, extract_runs, label_sizes};
use params::LayoutParams;
use rulings::{Found, mark_rulings, thin_rulings};

// The unit, the dots of ink before the cut, how many cuts of each kind, and the runs and components after the cut.
#[derive(Clone, Copy, Debug, PartialEq)]
pub struct SortCounts {
    pub unit: Unit,
    pub ink: u32,
    pub horizontal: usize,
    pub vertical: usize,
    pub runs: usize,
    pub component_count: usize,
}

// How many cuts of each kind.
#[derive(Clone, Copy, Debug, PartialEq, Eq)]
pub struct Cuts {
    pub horizontal: usize,
    pub vertical: usize,
}

// Sorts an ink plane of bytes 0 and 1; what scratch then holds is laid out in specs/Scratch. None where a labelling has more components than
// the capacity.
pub fn sort_ink(
    ink: &[u8],
    plan: Plan,
    sheet: LayoutParams,
    words: &mut [u32],
) -> Option<SortCounts>
    requires { (SortRoom sheet plan.width plan.height ink.now plan.capacity words.old) × (Planned plan) }
    ensures { (length words.new ≡ length words.old) × (sort_left result sheet plan.width plan.height ink.now plan.capacity words.new) }
{
    let w = plan.width as usize;
    let h = plan.height as usize;
    let capacity = plan.capacity;
    let sizes = plan.sizes;
    let runs = extract_runs(ink, w, h, words);
    let count = label_sizes(words, runs, w, h, capacity, sizes);
    if capacity < count {
        return None;
    }
    let total = total_area(&words[..], sizes, count);
    let heights = 3 * plan.dots;
    let unit = measure_unit(words, sizes, count, heights, sheet, plan.width, plan.height);
    let first = SortCounts {
        unit,
        ink: total,
        horizontal: 0,
        vertical: 0,
        runs,
        component_count: count,
    };
    sort_labelled(ink, plan, sheet, first, words)
}

// Sorts an ink plane that is labelled and measured: cut along thin rulings, and labelled and measured anew. Where nothing is cut
// and the runs still stand, so do their labels and the unit.
fn sort_labelled(
    ink: &[u8],
    plan: Plan,
    sheet: LayoutParams,
    first: SortCounts,
    words: &mut [u32],
) -> Option<SortCounts>
    requires { (SortRoom sheet plan.width plan.height ink.now plan.capacity words.old) × (FirstHeld sheet plan.width plan.height ink.now plan.capacity words.old first) × (Planned plan) }
    ensures { (length words.new ≡ length words.old) × (sort_left result sheet plan.width plan.height ink.now plan.capacity words.new) }
{
    let runs = first.runs;
    let unit = first.unit;
    let total = first.ink;
    let at = counters_at(plan, runs);
    let found = cut_ink(ink, plan, sheet, unit.value(), at, words);
    if (at == 3 * runs) & !found.horizontal & !found.vertical {
        write_kinds(words, plan, first.component_count, sheet, unit);
        return Some(first);
    }
    let cuts = label_cuts(ink, plan, found, words)?;
    sort_rest(ink, plan, sheet, total, cuts, words)
}

// Where the counters of thin rulings stand: behind the runs and their numbers, or at 0 where they do not fit there before the marks.
fn counters_at(plan: Plan, runs: usize) -> usize
    requires { (runs ≤ max_mask_dots) × (2 * plan.width ≤ plan.marks) × (2 * plan.height ≤ plan.marks) }
    ensures { (result + 2 * plan.width ≤ plan.marks) × (result + 2 * plan.height ≤ plan.marks) }
{
    let w = plan.width as usize;
    let h = plan.height as usize;
    let end = plan.marks;
    let at = 3 * runs;
    if (at + 2 * w <= end) & (at + 2 * h <= end) {
        at
    } else {
        0
    }
}

// Cuts an ink plane whose unit is `unit` along its thin rulings, any byte but 0 being ink: the dots of both kinds are marked, with
// counters from word `at` on. The words before stay.
pub fn cut_ink(
    ink: &[u8],
    plan: Plan,
    sheet: LayoutParams,
    unit: f64,
    at: usize,
    words: &mut [u32],
) -> Found
    requires { (at ≤ plan.marks) × (RulingsRoom plan.width plan.height (length ink.now) (plan.marks - at) (length words.old - at)) × (Planned plan) }
    ensures { InkCut (run_min sheet unit) (thick_max sheet unit) plan.width plan.height ink.now at words.old words.new result }
{
    let behind = plan.marks - at;
    thin_rulings(
        ink,
        plan.width,
        plan.height,
        sheet,
        unit,
        &mut words[at..],
        behind,
    )
}

// The thin rulings of an ink plane by their two lengths, cut and labelled; none where one kind of cuts has more components than the capacity.
pub fn label_rulings(
    ink: &[u8],
    width: u32,
    height: u32,
    run_min: u32,
    thick_max: u32,
    capacity: usize,
    words: &mut [u32],
) -> Option<Cuts>
    requires { (FrameRoom width height ink.now capacity words.old) × (2 ≤ run_min) }
    ensures { (length words.new ≡ length words.old) × (cuts_left result run_min thick_max width height ink.now capacity words.new) }
{
    let plan = plan_of(width, height, capacity);
    let found = mark_rulings(ink, width, height, run_min, thick_max, words, plan.marks);
    label_cuts(ink, plan, found, words)
}

// Either kind of cuts labelled, by the marks; the same.
fn label_cuts(ink: &[u8], plan: Plan, found: Found, words: &mut [u32]) -> Option<Cuts>
    requires { (FrameRoom plan.width plan.height ink.now plan.capacity words.old) × (found.horizontal ≡ false → Blank (passed First plan.width plan.height ink.now words.old) (plan.width * plan.height))
        × (found.vertical ≡ false → Blank (passed Second plan.width plan.height ink.now words.old) (plan.width * plan.height)) × (Planned plan) }
    ensures { (length words.new ≡ length words.old)
        × ((run_min thick_max : ℕ) → CutMarked run_min thick_max plan.width plan.height ink.now words.old found → cuts_left result run_min thick_max plan.width plan.height ink.now plan.capacity words.new) }
{
    let capacity = plan.capacity;
    let across = found.horizontal;
    let down = found.vertical;
    let horizontal = label_cut(ink, plan, Test::First, across, plan.horizontal, words);
    if capacity < horizontal {
        return None;
    }
    let vertical = label_cut(ink, plan, Test::Second, down, plan.vertical, words);
    if capacity < vertical {
        return None;
    }
    Some(Cuts {
        horizontal,
        vertical,
    })
}

// The components of the dots that pass the test, their boxes packed from word `to` on; answers how many, or one more than the capacity.
// Where none was found there is nothing to label.
fn label_cut(ink: &[u8], plan: Plan, test: Test, found: bool, to: usize, words: &mut [u32]) -> usize
    requires { (FrameRoom plan.width plan.height ink.now plan.capacity words.old) × (plan.horizontal ≤ to) × (to + 2 * plan.capacity ≤ plan.sizes)
        × (found ≡ false → Blank (passed test plan.width plan.height ink.now words.old) (plan.width * plan.height)) × (Planned plan) }
    ensures { CutLabelled test plan.width plan.height ink.now plan.capacity to words.old words.new result }
{
    if !found {
        return 0;
    }
    let w = plan.width as usize;
    let h = plan.height as usize;
    let capacity = plan.capacity;
    let sizes = plan.sizes;
    let runs = extract_marked(ink, w, h, words, plan.marks, test);
    let count = label_sizes(words, runs, w, h, capacity, sizes);
    if capacity < count {
        return count;
    }
    pack_boxes(words, sizes, count, to);
    count
}

// The ink after the cut: labelled, measured, and the kind of each component written; none where it has more components than the capacity.
fn sort_rest(
    ink: &[u8],
    plan: Plan,
    sheet: LayoutParams,
    total: u32,
    cuts: Cuts,
    words: &mut [u32],
) -> Option<SortCounts>
    requires { (FrameRoom plan.width plan.height ink.now plan.capacity words.old) × (Planned plan) }
    ensures { (length words.new ≡ length words.old)
        × (rest_left result sheet plan.width plan.height (passed Neither plan.width plan.height ink.now words.old) plan.capacity total cuts words.old words.new) }
{
    let w = plan.width as usize;
    let h = plan.height as usize;
    let capacity = plan.capacity;
    let sizes = plan.sizes;
    let runs = extract_marked(ink, w, h, words, plan.marks, Test::Neither);
    let count = label_sizes(words, runs, w, h, capacity, sizes);
    if capacity < count {
        return None;
    }
    let heights = 3 * plan.dots;
    let unit = measure_unit(words, sizes, count, heights, sheet, plan.width, plan.height);
    write_kinds(words, plan, count, sheet, unit);
    Some(SortCounts {
        unit,
        ink: total,
        horizontal: cuts.horizontal,
        vertical: cuts.vertical,
        runs,
        component_count: count,
    })
}
