// What is judged before a page is segmented.
ghost use Rattle.std.specs.Prelude.{◌≡◌, true, ◌+◌, ◌-◌, ◌*◌, ◌≤◌, length};
ghost use Rattle.memory.specs.rules.Limits.{max_mask_dots};
ghost use Rattle.memory.specs.rules.Refusals.{answer_number};
ghost use Rattle.segmenting.specs.rules.Answers as Answers;
ghost use Rattle.segmenting.specs.rules.Answers.{segment_plane};
ghost use Rattle.judging.specs.rules.Header.{header_words, held};
ghost use Rattle.judging.specs.rules.Spoiled.{limits_ok, ink_spoiled};
ghost use Rattle.judging.specs.stages.Judged.{length_refusal, behind_refusal, segment_judged};

use crate::judging::judge_head;
use crate::shears::frame_differs;
use crate::words::{CAPACITY, EMPTY, PAGE_HEIGHT, PAGE_WIDTH, SLOPE, STATE};
use memory::{Refusal, area, float_at, is_mask, scratch_words, store_words, word_at};
use params::LayoutParams;

// Whether one of the first bytes is above 1.
fn ink_spoiled(ink: &[u8], dots: usize) -> bool
    requires { dots ≤ length ink.now }
    ensures { result ≡ ink_spoiled dots ink.now }
{
    !is_mask(&ink[..dots])
}

// Whether planes and scratch are long enough.
#[tactic(auto, unfolding(memory::specs::rules::Refusals::refuse_if))]
fn judge_lengths(
    dots: usize,
    capacity: u32,
    ink: usize,
    kinds: usize,
    scratch: usize,
) -> Result<(), Refusal>
    requires { dots ≤ max_mask_dots }
    ensures { answer_number result ≡ length_refusal dots capacity ink kinds scratch 0 }
{
    if (ink < dots) | (kinds < dots) {
        return Err(Refusal::Lent);
    }
    if scratch < scratch_words(dots, capacity) {
        return Err(Refusal::Lent);
    }
    Ok(())
}

// What follows the header: 9 for the lengths, 16 for frame, shears and ink bytes.
fn judge_behind(store: &[u32], ink: &[u8], kinds: usize, scratch: usize) -> Result<(), Refusal>
    requires { (header_words ≤ length store.now) × (limits_ok (held store.now) ≡ true) }
    ensures { answer_number result ≡ behind_refusal store.now ink.now kinds scratch 0 }
{
    let page_w = store[PAGE_WIDTH];
    let page_h = store[PAGE_HEIGHT];
    let slope = float_at(store, SLOPE);
    let size = levelling::frame_size(page_w, page_h, slope);
    let w = size.w;
    let h = size.h;
    let capacity = store[CAPACITY];
    if store.len() < store_words(page_w, w, h, capacity) {
        return Err(Refusal::Lent);
    }
    let dots = area(w, h);
    judge_lengths(dots, capacity, ink.len(), kinds, scratch)?;
    let differs = frame_differs(store, page_w, page_h, slope, w, h);
    if differs | ink_spoiled(ink, dots) {
        return Err(Refusal::Spoiled);
    }
    Ok(()) // only the page itself can refuse now
}

// All that can refuse the call but the page itself.
pub fn judge_segment(
    sheet: LayoutParams,
    store: &[u32],
    ink: &[u8],
    kinds: usize,
    scratch: usize,
) -> Result<(), Refusal>
    ensures { answer_number result ≡ segment_judged sheet store.now ink.now kinds scratch }
{
    if !sheet.validate() {
        return Err(Refusal::Sheet);
    }
    let early = word_at(store, STATE) == EMPTY;
    judge_head(store, early, Refusal::NotLevelled)?;
    judge_behind(store, ink, kinds, scratch)
}
