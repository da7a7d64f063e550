// What is judged before a reading that needs only a levelled page.
ghost use Rattle.std.specs.Prelude.{true, ◌≡◌, ◌≤◌, ◌<◌, eqb, length};
ghost use Rattle.memory.specs.rules.Limits.{max_frame_width, max_frame_height};
ghost use Rattle.memory.specs.rules.Refusals.{answer_number};
ghost use Rattle.judging.specs.rules.Header.{header_words, held, frame_held};
ghost use Rattle.judging.specs.rules.Spoiled.{limits_ok};
ghost use Rattle.judging.specs.rules.Refusals.{head_refusal};
ghost use Rattle.judging.specs.stages.Judged.{frame_judged};

use crate::judging::judge_head;
use crate::shears::frame_differs;
use crate::words::{CAPACITY, EMPTY, PAGE_HEIGHT, PAGE_WIDTH, SLOPE, STATE};
use levelling::FrameSize;
use memory::{Refusal, float_at, store_words, word_at};

// The header of a store for a reading that needs only a levelled page.
pub fn level_head(store: &[u32]) -> Result<(), Refusal>
    ensures { answer_number result ≡ head_refusal (length store.now) (held store.now) (eqb (held store.now).state 0) 18 0 }
{
    let early = word_at(store, STATE) == EMPTY;
    judge_head(store, early, Refusal::NotLevelled)
}

// The sides of the frame that the held slope gives.
pub fn frame_held(store: &[u32]) -> FrameSize
    requires { (header_words ≤ length store.now) × (limits_ok (held store.now) ≡ true) }
    ensures { (result.w ≡ (frame_held (held store.now)).w) × (result.h ≡ (frame_held (held store.now)).h) × (result.w ≤ max_frame_width) × (result.h ≤ max_frame_height) }
{
    let slope = float_at(store, SLOPE);
    levelling::frame_size(store[PAGE_WIDTH], store[PAGE_HEIGHT], slope)
}

// What follows the header, by that frame: 9 for the store, 9, 16 for frame and shears, 8.
pub fn judge_frame(store: &[u32], w: u32, h: u32, lacking: bool, bad: bool) -> Result<(), Refusal>
    requires { (header_words ≤ length store.now) × (limits_ok (held store.now) ≡ true) × (w ≡ (frame_held (held store.now)).w) × (h ≡ (frame_held (held store.now)).h) × (w ≤ max_frame_width) × (h ≤ max_frame_height) }
    ensures { answer_number result ≡ frame_judged store.now lacking bad }
{
    let page_w = store[PAGE_WIDTH];
    let page_h = store[PAGE_HEIGHT];
    let slope = float_at(store, SLOPE);
    if store.len() < store_words(page_w, w, h, store[CAPACITY]) {
        return Err(Refusal::Lent);
    }
    if lacking {
        return Err(Refusal::Lent);
    }
    if frame_differs(store, page_w, page_h, slope, w, h) {
        return Err(Refusal::Spoiled);
    }
    if bad {
        return Err(Refusal::Place);
    }
    Ok(())
}
