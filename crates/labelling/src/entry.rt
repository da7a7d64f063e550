// Labelling called by itself (components.rs, label_8): the entry, what it refuses, and its stages in their order.
ghost use Rattle.std.specs.Prelude.{◌≡◌, ◌*◌, ◌≤◌, length, drop};
ghost use Rattle.memory.specs.rules.Limits.{max_mask_dots, scratch_words};
ghost use Rattle.memory.specs.rules.Refusals.{answer_number};
ghost use Rattle.labelling.specs.rules.Answer.{lent_refusal, label_outcome, label_mask};
ghost use Rattle.labelling.specs.stages.Working.{Workable, worked};

use crate::number::number_runs;
use crate::paint::paint_runs;
use crate::row_by_row::extract_linked;
use memory::{COMPONENT_WORDS, MAX_CAPACITY, Refusal, area, judge_sides, scratch_words};

// Labels the 8-connected components of a mask, numbered by first dot, and writes their records, nine words each.
pub fn label(
    mask: &[u8],
    width: u32,
    height: u32,
    capacity: u32,
    labels: &mut [u32],
    components: &mut [u32],
    scratch: &mut [u32],
) -> Result<u32, Refusal>
    ensures { label_outcome result labels.new components.new (length scratch.new) (drop (scratch_words (width * height) capacity) scratch.new) ≡ label_mask width height mask.now capacity labels.old components.old scratch.old }
{
    judge_sides(width, height)?;
    let dots = area(width, height);
    judge_lent(
        dots,
        mask.len(),
        capacity,
        labels.len(),
        components.len(),
        scratch.len(),
    )?;
    let words = scratch_words(dots, capacity);
    label_runs(
        mask,
        width as usize,
        height as usize,
        capacity as usize,
        labels,
        components,
        &mut scratch[..words],
    )
}

// Whether the mask's length, the capacity and the memory lent are as they must be.
#[tactic(auto, unfolding(crate::specs::rules::Answer::lent_refusal, memory::specs::rules::Refusals::refuse_if))]
fn judge_lent(
    dots: usize,
    mask: usize,
    capacity: u32,
    labels: usize,
    components: usize,
    scratch: usize,
) -> Result<(), Refusal>
    requires { dots ≤ max_mask_dots }
    ensures { answer_number result ≡ lent_refusal dots mask capacity labels components scratch 0 }
{
    if mask != dots {
        return Err(Refusal::MaskLength);
    }
    if capacity == 0 {
        return Err(Refusal::Capacity);
    }
    if MAX_CAPACITY < capacity {
        return Err(Refusal::Capacity);
    }
    if labels < dots {
        return Err(Refusal::Lent);
    }
    if components < COMPONENT_WORDS * (capacity as usize) {
        return Err(Refusal::Lent);
    }
    if scratch < scratch_words(dots, capacity) {
        return Err(Refusal::Lent);
    }
    Ok(())
}

// The stages: runs with their parents, their numbers; then, unless there are too many components, labels and records. A plane of d dots
// has at most d runs, whose turns fit before word 3d, so that they need not be counted before the parents have their place there.
// (With a constant in that sum, as 2d + 1, each address was made anew, and single dots took a tenth longer.)
fn label_runs(
    mask: &[u8],
    w: usize,
    h: usize,
    capacity: usize,
    labels: &mut [u32],
    components: &mut [u32],
    words: &mut [u32],
) -> Result<u32, Refusal>
    requires { Workable w h mask.now capacity labels.old components.old words.old }
    ensures { worked result labels.new components.new w h mask.now capacity labels.old components.old }
{
    let parents = 3 * (w * h);
    let runs = extract_linked(mask, w, h, words, parents);
    let count = number_runs(&mut words[parents..], runs, capacity);
    if capacity < count {
        return Err(Refusal::TooManyComponents);
    }
    paint_runs(&words[..], parents, runs, w, h, labels, components);
    Ok(count as u32)
}
