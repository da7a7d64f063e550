// What is judged before results are read.
ghost use Rattle.std.specs.Prelude.{true, false, ◌≡◌, ◌≤◌, length};
ghost use Rattle.memory.specs.rules.Refusals.{answer_number};
ghost use Rattle.judging.specs.stages.Judged.{rest_refusal};
ghost use Rattle.judging.specs.rules.Header.{header_words, held};
ghost use Rattle.judging.specs.rules.Spoiled.{results_spoiled, limits_ok};
ghost use Rattle.judging.specs.rules.Refusals.{result_refusal};

use crate::judging::judge_head;
use crate::results::{planes_ok, words_ok};
use crate::shears::frame_differs;
use crate::words::{CAPACITY, PAGE_HEIGHT, PAGE_WIDTH, SEGMENTED, SLOPE, STATE};
use memory::{Refusal, area, float_at, store_words, word_at};

// What follows the header: 9 for the store, the planes and an output of fixed length, 16 for frame, shears, planes and results.
fn judge_rest(store: &[u32], ink: &[u8], kinds: &[u8], lacking: bool) -> Result<(), Refusal>
    requires { (header_words ≤ length store.now) × (limits_ok (held store.now) ≡ true) }
    ensures { answer_number result ≡ rest_refusal store.now ink.now kinds.now lacking }
{
    let page_w = store[PAGE_WIDTH];
    let page_h = store[PAGE_HEIGHT];
    let capacity = store[CAPACITY];
    let slope = float_at(store, SLOPE);
    let size = levelling::frame_size(page_w, page_h, slope);
    let w = size.w;
    let h = size.h;
    let dots = area(w, h);
    let words = store_words(page_w, w, h, capacity);
    if (store.len() < words) | (ink.len() < dots) | (kinds.len() < dots) | lacking {
        return Err(Refusal::Lent);
    }
    let moved = frame_differs(store, page_w, page_h, slope, w, h);
    let right = words_ok(store, page_w, w, h, capacity);
    let agree = planes_ok(ink, kinds, dots);
    if moved | !right | !agree {
        return Err(Refusal::Spoiled);
    }
    Ok(())
}

// What can refuse a reading of results, kind, box and an output whose length hangs on held results left aside.
pub fn judge_reading(store: &[u32], ink: &[u8], kinds: &[u8], lacking: bool) -> Result<(), Refusal>
    ensures { answer_number result ≡ result_refusal (length store.now) (length ink.now) (length kinds.now) (held store.now) lacking (results_spoiled store.now ink.now kinds.now) false false }
{
    let early = word_at(store, STATE) != SEGMENTED;
    judge_head(store, early, Refusal::NotSegmented)?;
    judge_rest(store, ink, kinds, lacking)
}
