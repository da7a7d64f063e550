// An ink plane sorted, as a segmentation sorts it before it groups: what is told of it is figures alone, for the benchmark of the
// stages. The answer is 0, or document 01's number of a refusal; a call that is refused writes nothing but scratch, and that only
// with 20.
ghost use Rattle.std.specs.Prelude.{◌≡◌, ◌*◌, ◌≤◌, length, drop};
ghost use Rattle.memory.specs.rules.Limits.{max_frame_width, max_frame_height, scratch_words};
ghost use Rattle.memory.specs.rules.Refusals.{answer_number};
ghost use Rattle.memory.specs.rules.Words.{over};
ghost use Rattle.sorting.specs.stages.Scratch.{SortRoom};
ghost use Rattle.sorting.specs.stages.SortSteps.{sort_left};
ghost use Rattle.stages.specs.rules.Frames.{told};
ghost use Rattle.stages.specs.rules.SortedPages.{sort_figures, sort_lent, sort_words, sorted_page};

use crate::frames::judge_room;
use crate::pages::judge_plane;
use memory::{Refusal, number_of, put_float, scratch_words};
use params::LayoutParams;
use segmenting::measured_word;
use sorting::{SortCounts, plan_of, sort_ink};

const SORT_FIGURES: usize = 7;

// Whether the sheet, the capacity and the memory lent are as they must be.
#[tactic(auto, unfolding(crate::specs::rules::SortedPages::sort_lent, crate::specs::rules::Frames::room_refusal, memory::specs::rules::Refusals::refuse_if))]
fn judge_sort(
    sheet: LayoutParams,
    dots: usize,
    capacity: usize,
    words: usize,
    figures: usize,
) -> Result<(), Refusal>
    requires { (dots ≤ max_frame_width * max_frame_height) × (capacity ≤ 4294967295) }
    ensures { answer_number result ≡ sort_lent sheet dots capacity words figures 0 }
{
    if !sheet.validate() {
        return Err(Refusal::Sheet);
    }
    judge_room(dots, capacity, words)?;
    if figures < SORT_FIGURES {
        return Err(Refusal::Lent);
    }
    Ok(())
}

// The figures over the front of the words lent for them.
fn write_sorting(found: SortCounts, figures: &mut [u32])
    requires { (sort_figures ≤ length figures.old) × (found.horizontal ≤ 4294967295) × (found.vertical ≤ 4294967295) × (found.component_count ≤ 4294967295) }
    ensures { figures.new ≡ over (sort_words found.unit found.ink found.horizontal found.vertical found.component_count) figures.old }
{
    let unit = found.unit;
    figures[0] = measured_word(unit);
    put_float(figures, 1, unit.value());
    figures[3] = found.ink;
    figures[4] = found.horizontal as u32;
    figures[5] = found.vertical as u32;
    figures[6] = found.component_count as u32;
}

// The plane sorted by the plan of its frame.
fn sort_by_plan(
    ink: &[u8],
    w: u32,
    h: u32,
    sheet: LayoutParams,
    capacity: usize,
    words: &mut [u32],
) -> Option<SortCounts>
    requires { SortRoom sheet w h ink.now capacity words.old }
    ensures { (length words.new ≡ length words.old) × (sort_left result sheet w h ink.now capacity words.new) }
{
    let plan = plan_of(w, h, capacity);
    sort_ink(ink, plan, sheet, words)
}

// The sorting; what can refuse it is judged before anything is written, but for too many components.
fn sort_plane(
    ink: &[u8],
    w: u32,
    h: u32,
    sheet: LayoutParams,
    capacity: u32,
    words: &mut [u32],
    figures: &mut [u32],
) -> Result<(), Refusal>
    ensures { told (answer_number result) figures.new (length words.new) (drop (scratch_words (w * h) capacity) words.new) ≡ sorted_page sheet w h ink.now capacity words.old figures.old }
{
    judge_plane(ink, w, h)?;
    let dots = (w as usize) * (h as usize);
    let p = capacity as usize;
    judge_sort(sheet, dots, p, words.len(), figures.len())?;
    let need = scratch_words(dots, capacity);
    let Some(found) = sort_by_plan(ink, w, h, sheet, p, &mut words[..need]) else {
        return Err(Refusal::TooManyComponents);
    };
    write_sorting(found, figures);
    Ok(())
}

// Sorts an ink plane of bytes 0 and 1: the first seven words of figures tell the unit, the dots of ink, the cuts and the components
// (specs/rules/SortedPages). The words are worked in. The answer is a number, as C has it.
pub fn novlizeb_sort(
    ink: &[u8],
    w: u32,
    h: u32,
    sheet: LayoutParams,
    capacity: u32,
    words: &mut [u32],
    figures: &mut [u32],
) -> u32
    ensures { told result figures.new (length words.new) (drop (scratch_words (w * h) capacity) words.new) ≡ sorted_page sheet w h ink.now capacity words.old figures.old }
{
    number_of(sort_plane(ink, w, h, sheet, capacity, words, figures))
}
