// A whole segmentation of an ink plane. The answer is 0, or document 01's number of a refusal; a call that is refused writes nothing
// but scratch, and that only where the page itself has too much on it (20 and 21).
ghost use Rattle.std.specs.Prelude.{◌≡◌, ◌*◌, ◌≤◌, length, drop};
ghost use Rattle.memory.specs.rules.Limits.{max_frame_width, max_frame_height, scratch_words};
ghost use Rattle.memory.specs.rules.Refusals.{answer_number};
ghost use Rattle.stages.specs.rules.Pages.{plane_refusal, lent_refusal, left, paged};

use crate::frames::{judge_frame, judge_room};
use memory::{Refusal, is_mask, number_of, scratch_words};
use params::LayoutParams;
use segmenting::{result_words, segment, write_figures};

const FIGURES: usize = 15;

// Whether the sides, the ink's length and its bytes are as they must be.
#[tactic(auto, unfolding(crate::specs::rules::Pages::plane_refusal, crate::specs::rules::Frames::frame_refusal, memory::specs::rules::Refusals::refuse_if))]
pub fn judge_plane(ink: &[u8], width: u32, height: u32) -> Result<(), Refusal>
    ensures { answer_number result ≡ plane_refusal width height ink.now 0 }
{
    judge_frame(width, height, ink.len())?;
    if !is_mask(ink) {
        return Err(Refusal::MaskByte);
    }
    Ok(())
}

// How long what is lent is.
#[derive(Clone, Copy, Debug, PartialEq, Eq)]
struct Lent {
    words: usize,
    results: usize,
    kinds: usize,
    figures: usize,
}

// Whether the sheet, the capacity and the memory lent are as they must be.
#[tactic(auto, unfolding(crate::specs::rules::Pages::lent_refusal, crate::specs::rules::Frames::room_refusal, memory::specs::rules::Refusals::refuse_if))]
fn judge_lent(
    sheet: LayoutParams,
    w: usize,
    dots: usize,
    capacity: usize,
    lent: Lent,
) -> Result<(), Refusal>
    requires { (w ≤ max_frame_width) × (dots ≤ max_frame_width * max_frame_height) × (capacity ≤ 4294967295) }
    ensures { answer_number result ≡ lent_refusal sheet w dots capacity lent.words lent.results lent.kinds lent.figures 0 }
{
    if !sheet.validate() {
        return Err(Refusal::Sheet);
    }
    judge_room(dots, capacity, lent.words)?;
    if lent.results < result_words(w, capacity) {
        return Err(Refusal::Lent);
    }
    if (lent.kinds < dots) | (lent.figures < FIGURES) {
        return Err(Refusal::Lent);
    }
    Ok(())
}

// The segmentation; what can refuse it is judged before anything is written.
fn segment_plane(
    ink: &[u8],
    w: u32,
    h: u32,
    sheet: LayoutParams,
    capacity: u32,
    words: &mut [u32],
    results: &mut [u32],
    kinds: &mut [u8],
    figures: &mut [u32],
) -> Result<(), Refusal>
    ensures { left (answer_number result) results.new kinds.new figures.new (length words.new) (drop (scratch_words (w * h) capacity) words.new) ≡ paged sheet w h ink.now capacity words.old results.old kinds.old figures.old }
{
    judge_plane(ink, w, h)?;
    let dots = (w as usize) * (h as usize);
    let p = capacity as usize;
    let lent = Lent {
        words: words.len(),
        results: results.len(),
        kinds: kinds.len(),
        figures: figures.len(),
    };
    judge_lent(sheet, w as usize, dots, p, lent)?;
    let need = scratch_words(dots, capacity);
    let found = segment(ink, w, h, sheet, p, &mut words[..need], results, kinds)?;
    write_figures(found, figures);
    Ok(())
}

// Segments an ink plane of bytes 0 and 1: the lists in the words of results, the kind of each dot in kinds, and in the first fifteen words
// of figures what is told besides (specs/rules/Pages). The words are worked in. The answer is a number, as C has it.
pub fn novlizeb_segment_plane(
    ink: &[u8],
    w: u32,
    h: u32,
    sheet: LayoutParams,
    capacity: u32,
    words: &mut [u32],
    results: &mut [u32],
    kinds: &mut [u8],
    figures: &mut [u32],
) -> u32
    ensures { left result results.new kinds.new figures.new (length words.new) (drop (scratch_words (w * h) capacity) words.new) ≡ paged sheet w h ink.now capacity words.old results.old kinds.old figures.old }
{
    number_of(segment_plane(ink, w, h, sheet, capacity, words, results, kinds, figures))
}
