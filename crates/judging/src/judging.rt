// What is judged before anything is written.
ghost use Rattle.std.specs.Prelude.{◌&&◌, ◌≡◌, ◌*◌, length};
ghost use Rattle.memory.specs.rules.Limits.{store_words};
ghost use Rattle.memory.specs.rules.Refusals.{answer_number, number};
ghost use Rattle.memory.specs.rules.Words.{word_at};
ghost use Rattle.judging.specs.rules.Leaves.{leaf_of};
ghost use Rattle.judging.specs.rules.Header.{lists_at, held};
ghost use Rattle.judging.specs.rules.Spoiled.{side_ok, capacity_ok, skew_ok, slope_ok};
ghost use Rattle.judging.specs.rules.Refusals.{leaf_refusal, place_refusal, head_refusal};

use crate::words::{
    CAPACITY, EMPTY, HEADER, PAGE_HEIGHT, PAGE_WIDTH, SEGMENTED, SKEW, SLOPE, STATE,
};
use memory::{MAX_CAPACITY, MAX_PAGE_SIDE, Refusal, area, float_at, is_mask, store_words, word_at};
use params::LayoutParams;

fn side_ok(n: u32) -> bool
    ensures { result ≡ side_ok n }
{
    (0 < n) & (n <= MAX_PAGE_SIDE)
}

fn capacity_ok(n: u32) -> bool
    ensures { result ≡ capacity_ok n }
{
    (0 < n) & (n <= MAX_CAPACITY)
}

fn skew_ok(x: f64) -> bool
    ensures { result ≡ skew_ok x }
{
    (-45.0 <= x) & (x <= 45.0)
}

fn slope_ok(x: f64) -> bool
    ensures { result ≡ slope_ok x }
{
    (-1.0 <= x) & (x <= 1.0)
}

// Whether a page may have these sides and this slope.
pub fn is_page(width: u32, height: u32, slope: f64) -> bool
    ensures { result ≡ (side_ok width && side_ok height && slope_ok slope) }
{
    let wide = side_ok(width);
    let high = side_ok(height);
    let gentle = slope_ok(slope);
    wide & high & gentle
}

// What levelling is handed: document 01's refusals 1 to 7.
#[tactic(auto, unfolding(crate::specs::rules::Refusals::leaf_refusal, memory::specs::rules::Refusals::refuse_if))]
pub fn judge_leaf(
    mask: &[u8],
    width: u32,
    height: u32,
    skew: f64,
    slope: f64,
    sheet: LayoutParams,
    capacity: u32,
) -> Result<(), Refusal>
    ensures { answer_number result ≡ leaf_refusal (leaf_of mask.now width height skew slope sheet capacity) 0 }
{
    if !side_ok(width) | !side_ok(height) {
        return Err(Refusal::Sides);
    }
    if mask.len() != area(width, height) {
        return Err(Refusal::MaskLength);
    }
    if !is_mask(mask) {
        return Err(Refusal::MaskByte);
    }
    if !skew_ok(skew) {
        return Err(Refusal::Skew);
    }
    if !slope_ok(slope) {
        return Err(Refusal::Slope);
    }
    if !sheet.validate() {
        return Err(Refusal::Sheet);
    }
    if !capacity_ok(capacity) {
        return Err(Refusal::Capacity);
    }
    Ok(())
}

// Where the lists begin: behind the header and both shears.
pub fn lists_at(page_w: u32, h: u32) -> usize
    ensures { result ≡ lists_at page_w h }
{
    HEADER + page_w as usize + h as usize
}

// What levelling is lent: 9 by the frame, 16 and 17 by the state word.
#[tactic(auto, unfolding(crate::specs::rules::Refusals::place_refusal, memory::specs::rules::Refusals::refuse_if))]
pub fn judge_place(
    page_w: u32,
    w: u32,
    h: u32,
    capacity: u32,
    store: &[u32],
    ink: usize,
) -> Result<(), Refusal>
    ensures { answer_number result ≡ place_refusal (store_words page_w w h capacity) (w * h) (length store.now) ink (word_at store.now 0) }
{
    if store.len() < store_words(page_w, w, h, capacity) {
        return Err(Refusal::Lent);
    }
    if ink < area(w, h) {
        return Err(Refusal::Lent);
    }
    let state = word_at(store, STATE);
    if SEGMENTED < state {
        return Err(Refusal::Spoiled);
    }
    if state != EMPTY {
        return Err(Refusal::NotEmpty);
    }
    Ok(())
}

// Page sides, capacity, skew and slope within document 01's limits.
fn limits_ok(page_w: u32, page_h: u32, capacity: u32, skew: f64, slope: f64) -> bool
    ensures { result ≡ (side_ok page_w && side_ok page_h && capacity_ok capacity && skew_ok skew && slope_ok slope) }
{
    let wide = side_ok(page_w);
    let high = side_ok(page_h);
    let few = capacity_ok(capacity);
    let skewed = skew_ok(skew);
    let sloped = slope_ok(slope);
    wide & high & few & skewed & sloped
}

// What the header says, for every call but levelling and clearing: 9 for a store under 64 words, 16 for the state word, `early` where that is
// too early for the call, 16 for sizes, capacity, skew and slope.
#[tactic(auto, unfolding(crate::specs::rules::Refusals::head_refusal, crate::specs::rules::Header::held, crate::specs::rules::Spoiled::limits_ok, memory::specs::rules::Refusals::refuse_if))]
pub fn judge_head(store: &[u32], is_early: bool, early: Refusal) -> Result<(), Refusal>
    ensures { answer_number result ≡ head_refusal (length store.now) (held store.now) is_early (number early) 0 }
{
    if store.len() < HEADER {
        return Err(Refusal::Lent);
    }
    if SEGMENTED < store[STATE] {
        return Err(Refusal::Spoiled);
    }
    if is_early {
        return Err(early);
    }
    let skew = float_at(store, SKEW);
    let slope = float_at(store, SLOPE);
    if !limits_ok(
        store[PAGE_WIDTH],
        store[PAGE_HEIGHT],
        store[CAPACITY],
        skew,
        slope,
    ) {
        return Err(Refusal::Spoiled);
    }
    Ok(())
}
