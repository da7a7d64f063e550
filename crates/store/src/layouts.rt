// Segmenting the ink plane of a levelled store.
ghost use Rattle.std.specs.Prelude.{◌≡◌, ◌+◌, ◌-◌, ◌*◌, ◌≤◌, length, take, drop};
ghost use Rattle.memory.specs.rules.Limits.{scratch_words};
ghost use Rattle.segmenting.specs.rules.Answers as Answers;
ghost use Rattle.segmenting.specs.stages.Rooms.{SegmentRoom};
ghost use Rattle.segmenting.specs.rules.Answers.{segment_plane};
ghost use Rattle.judging.specs.rules.Header.{held, header_words, scratch_held};
ghost use Rattle.judging.specs.stages.Judged.{segment_judged};
ghost use Rattle.store.specs.stages.Heads.{head_segmented};
ghost use Rattle.store.specs.rules.Outcomes.{left, segment_left};
ghost use Rattle.memory.specs.rules.Refusals.{answer_number};

use judging::{
    CAPACITY, FIGURES, FRAME_HEIGHT, FRAME_WIDTH, PAGE_WIDTH, SEGMENTED, STATE, judge_segment,
    lists_at,
};
use memory::{Refusal, area, scratch_words, word_at};
use params::LayoutParams;
use segmenting::{Segmentation, write_figures};

// The state, and the figures behind the words that levelling wrote.
fn write_head(found: Segmentation, store: &mut [u32])
    requires { header_words ≤ length store.old }
    ensures { store.new ≡ head_segmented found store.old }
{
    store[STATE] = SEGMENTED;
    write_figures(found, &mut store[FIGURES..]);
}

// The ink of the frame segmented: the lists from word `start` of the store on, worked in the first words of scratch.
fn segment_parts(
    sheet: LayoutParams,
    w: u32,
    h: u32,
    capacity: u32,
    start: usize,
    store: &mut [u32],
    ink: &[u8],
    kinds: &mut [u8],
    scratch: &mut [u32],
) -> Result<Segmentation, Refusal>
    requires segment_room { SegmentRoom sheet w h (take (w * h) ink.now) capacity (take (scratch_words (w * h) capacity) scratch.old) (length store.old - start) (length kinds.old) }
    requires lengths { (w * h ≤ length ink.now) × (scratch_words (w * h) capacity ≤ length scratch.old) × (start ≤ length store.old) }
    ensures { (take start store.new ≡ take start store.old) × (Answers.segment_outcome result (drop start store.new) kinds.new ≡ segment_plane sheet w h (take (w * h) ink.now) capacity (drop start store.old) kinds.old) × (drop (scratch_words (w * h) capacity) scratch.new ≡ drop (scratch_words (w * h) capacity) scratch.old) }
{
    let dots = area(w, h);
    let need = scratch_words(dots, capacity);
    segmenting::segment(
        &ink[..dots],
        w,
        h,
        sheet,
        capacity as usize,
        &mut scratch[..need],
        &mut store[start..],
        kinds,
    )
}

// A store that passed every judgement: segmented, unless the page itself has too much on it.
fn segment_held(
    sheet: LayoutParams,
    store: &mut [u32],
    ink: &[u8],
    kinds: &mut [u8],
    scratch: &mut [u32],
) -> Result<(), Refusal>
    requires { segment_judged sheet store.old ink.now (length kinds.old) (length scratch.old) ≡ 0 }
    ensures { (left (answer_number result) store.new kinds.new ≡ segment_left sheet store.old ink.now kinds.old (length scratch.old)) × (drop (scratch_held (held store.old)) scratch.new ≡ drop (scratch_held (held store.old)) scratch.old) }
{
    let page_w = word_at(store, PAGE_WIDTH);
    let w = word_at(store, FRAME_WIDTH);
    let h = word_at(store, FRAME_HEIGHT);
    let capacity = word_at(store, CAPACITY);
    let start = lists_at(page_w, h);
    let found = segment_parts(sheet, w, h, capacity, start, store, ink, kinds, scratch)?;
    write_head(found, store);
    Ok(())
}

// Segments what a levelled store and its ink plane hold: the refusal, or the results in the store and the plane of
// kinds. A page that has too much on it (20 and 21) has written in scratch alone.
pub fn segment(
    sheet: LayoutParams,
    store: &mut [u32],
    ink: &[u8],
    kinds: &mut [u8],
    scratch: &mut [u32],
) -> Result<(), Refusal>
    ensures { (left (answer_number result) store.new kinds.new ≡ segment_left sheet store.old ink.now kinds.old (length scratch.old)) × (length scratch.new ≡ length scratch.old) × (drop (scratch_held (held store.old)) scratch.new ≡ drop (scratch_held (held store.old)) scratch.old) }
{
    judge_segment(sheet, store, ink, kinds.len(), scratch.len())?;
    segment_held(sheet, store, ink, kinds, scratch)
}
