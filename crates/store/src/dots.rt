// The page dots of one kind inside a frame box, out of a store.
ghost use Rattle.std.specs.Prelude.{not, ◌&&◌, ◌||◌, ◌≡◌, ◌+◌, ◌*◌, ◌≤◌, ltb, leb, length, get_or};
ghost use Rattle.memory.specs.rules.Lists.{count_if};
ghost use Rattle.memory.specs.rules.Words.{over};
ghost use Rattle.grouping.specs.rules.Readings.{listed, dot_list};
ghost use Rattle.store.specs.stages.Areas.{words_frame, words_kinds, FrameHere};
ghost use Rattle.store.specs.rules.Readings.{ResultReading};
ghost use Rattle.store.specs.rules.Readings.Output.{none, words};
ghost use Rattle.store.specs.rules.Outcomes.{told, result_told};
ghost use Rattle.memory.specs.rules.Refusals.{answer_number, answer_value};

use crate::held_frames::held_frame;
use judging::{FRAME_HEIGHT, FRAME_WIDTH, judge_reading};
use memory::{Rect, Refusal};

// A kind outside 1 to 5, or a box with a corner outside the frame or reversed.
fn bad_dots(kind: u32, r: Rect, w: u32, h: u32) -> bool
    ensures { result ≡ (not (ltb 0 kind && leb kind 5) || not (leb r.x0 r.x1 && ltb r.x1 w && leb r.y0 r.y1 && ltb r.y1 h)) }
{
    !((0 < kind) & (kind <= 5)) | !((r.x0 <= r.x1) & (r.x1 < w) & (r.y0 <= r.y1) & (r.y1 < h))
}

// How many there are.
fn counted(store: &[u32], kinds: &[u8], kind: u8, r: Rect) -> u32
    requires { FrameHere store.now kinds.now }
    ensures { result ≡ count_if (listed (words_frame store.now) (words_kinds store.now kinds.now) kind r) (get_or store.now 1 0 * get_or store.now 2 0) }
{
    let frame = held_frame(store);
    let dots = frame.sides.w * frame.sides.h;
    grouping::count_dots(
        frame.shear,
        frame.shear_x,
        &kinds[..dots],
        frame.sides,
        kind,
        r,
    ) as u32
}

// Column and row of each over the front of the words lent.
fn written(store: &[u32], kinds: &[u8], kind: u8, r: Rect, out: &mut [u32])
    requires frame_here { FrameHere store.now kinds.now }
    requires room { 2 * count_if (listed (words_frame store.now) (words_kinds store.now kinds.now) kind r) (get_or store.now 1 0 * get_or store.now 2 0) ≤ length out.old }
    ensures { out.new ≡ over (dot_list (words_frame store.now) (words_kinds store.now kinds.now) kind r) out.old }
{
    let frame = held_frame(store);
    let dots = frame.sides.w * frame.sides.h;
    grouping::write_dots(
        frame.shear,
        frame.shear_x,
        &kinds[..dots],
        frame.sides,
        kind,
        r,
        out,
    );
}

// Counts them: the refusal, or how many there are.
pub fn count_dots(
    store: &[u32],
    ink: &[u8],
    kinds: &[u8],
    kind: u32,
    r: Rect,
) -> Result<u32, Refusal>
    ensures { told (answer_number result) (answer_value result) none ≡ result_told (ResultReading.count_dots kind r) store.now ink.now kinds.now }
{
    judge_reading(store, ink, kinds, false)?;
    if bad_dots(kind, r, store[FRAME_WIDTH], store[FRAME_HEIGHT]) {
        return Err(Refusal::Place);
    }
    let n = counted(store, kinds, kind as u8, r);
    Ok(n)
}

// Reads them: how many there are, and column and row of each over the front of the words lent.
pub fn read_dots(
    store: &[u32],
    ink: &[u8],
    kinds: &[u8],
    kind: u32,
    r: Rect,
    out: &mut [u32],
) -> Result<u32, Refusal>
    ensures { told (answer_number result) (answer_value result) (words out.new) ≡ result_told (ResultReading.dots kind r out.old) store.now ink.now kinds.now }
{
    judge_reading(store, ink, kinds, false)?;
    if bad_dots(kind, r, store[FRAME_WIDTH], store[FRAME_HEIGHT]) {
        return Err(Refusal::Place);
    }
    let k = kind as u8;
    let n = counted(store, kinds, k, r);
    if out.len() < 2 * (n as usize) {
        return Err(Refusal::Lent);
    }
    written(store, kinds, k, r, out);
    Ok(n)
}
