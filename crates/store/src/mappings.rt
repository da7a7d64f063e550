// Readings that need only a levelled page: a gray plane moved into the frame, and the way back for a box.
ghost use Rattle.std.specs.Prelude.{not, false, ◌||◌, ◌≡◌, ◌*◌, ◌≤◌, eqb, ltb, length};
ghost use Rattle.memory.specs.rules.Words.{over};
ghost use Rattle.levelling.specs.rules.Planes.{level_gray};
ghost use Rattle.judging.specs.rules.Header.{held, frame_held, dots_held};
ghost use Rattle.judging.specs.stages.Judged.{level_judged};
ghost use Rattle.store.specs.rules.Readings.{LevelReading, box_inside, filled, rect_numbers};
ghost use Rattle.store.specs.rules.Readings.Output.{words, integers};
ghost use Rattle.store.specs.rules.Outcomes.{told, level_told};
ghost use Rattle.memory.specs.rules.Refusals.{answer_number};

use crate::held_frames::{held_frame, level_size};
use judging::{PAGE_HEIGHT, PAGE_WIDTH, judge_frame};
use memory::{Rect, Refusal, area, word_at};

// All that can refuse a gray plane of so many bytes.
fn judge_gray(store: &[u32], gray: usize, out: usize) -> Result<(), Refusal>
    ensures { answer_number result ≡ level_judged store.now (not (eqb gray ((held store.now).page_w * (held store.now).page_h)) || ltb out (dots_held (held store.now))) false }
{
    let size = level_size(store)?;
    let w = size.w;
    let h = size.h;
    let page = area(word_at(store, PAGE_WIDTH), word_at(store, PAGE_HEIGHT));
    let dots = area(w, h);
    judge_frame(store, w, h, (gray != page) | (out < dots), false)
}

// The gray plane of a store that passed every judgement, in the frame.
fn put_gray(store: &[u32], gray: &[u8], out: &mut [u8])
    requires { level_judged store.now (not (eqb (length gray.now) ((held store.now).page_w * (held store.now).page_h)) || ltb (length out.old) (dots_held (held store.now))) false ≡ 0 }
    ensures { out.new ≡ over (level_gray (frame_held (held store.now)) gray.now) out.old }
{
    let frame = held_frame(store);
    levelling::level_plane(gray, 255, frame.sides, frame.shear, frame.shear_x, out);
}

// Moves a gray plane of the page into the frame: the refusal, or the plane; dots that the frame adds are 255.
pub fn level_gray(store: &[u32], gray: &[u8], out: &mut [u8]) -> Result<(), Refusal>
    ensures { told (answer_number result) 0 (words out.new) ≡ level_told (LevelReading.gray gray.now out.old) store.now }
{
    judge_gray(store, gray.len(), out.len())?;
    put_gray(store, gray, out);
    Ok(())
}

// How many numbers a box takes.
const RECT_LENGTH: usize = 4;

// All that can refuse a box.
fn judge_box(store: &[u32], r: Rect, out: usize) -> Result<(), Refusal>
    ensures { answer_number result ≡ level_judged store.now (ltb out 4) (not (box_inside (frame_held (held store.now)) r)) }
{
    let size = level_size(store)?;
    let w = size.w;
    let h = size.h;
    let inside = (r.x0 <= r.x1) & (r.x1 < w) & (r.y0 <= r.y1) & (r.y1 < h);
    judge_frame(store, w, h, out < RECT_LENGTH, !inside)
}

// The four numbers of a box over the front of the numbers lent.
fn write_box(b: Rect, rect: &mut [i32])
    requires { (4 ≤ length rect.old) × (b.x0 ≤ 32767) × (b.y0 ≤ 32767) × (b.x1 ≤ 32767) × (b.y1 ≤ 32767) }
    ensures { rect.new ≡ filled (rect_numbers b) rect.old }
{
    rect[0] = b.x0 as i32;
    rect[1] = b.y0 as i32;
    rect[2] = b.x1 as i32;
    rect[3] = b.y1 as i32;
}

// Maps a frame box: the refusal, or the page box, its upper left and its lower right corner.
pub fn rect_to_page(store: &[u32], r: Rect, rect: &mut [i32]) -> Result<(), Refusal>
    ensures { told (answer_number result) 0 (integers rect.new) ≡ level_told (LevelReading.box r rect.old) store.now }
{
    judge_box(store, r, rect.len())?;
    let frame = held_frame(store);
    let page_w = store[PAGE_WIDTH];
    let page_h = store[PAGE_HEIGHT];
    let page_box = levelling::rect_to_page(frame.shear, frame.shear_x, page_w, page_h, r);
    write_box(page_box, rect);
    Ok(())
}
