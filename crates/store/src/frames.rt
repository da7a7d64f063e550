// The frame's figures out of a store: page sides, frame sides, applied skew, applied slope.
ghost use Rattle.std.specs.Prelude.{false, ◌≡◌, ◌≤◌, ltb, length};
ghost use Rattle.memory.specs.rules.Words.{over};
ghost use Rattle.judging.specs.rules.Header.{header_words};
ghost use Rattle.judging.specs.stages.Judged.{level_judged};
ghost use Rattle.memory.specs.rules.Refusals.{answer_number};
ghost use Rattle.store.specs.rules.Readings.{LevelReading, frame_length};
ghost use Rattle.store.specs.rules.Readings.Output.{words};
ghost use Rattle.store.specs.rules.Outcomes.{told, level_told};
ghost use Rattle.store.specs.stages.Areas.{frame_put};

use crate::held_frames::level_size;
use judging::{FRAME_HEIGHT, FRAME_WIDTH, PAGE_HEIGHT, PAGE_WIDTH, SKEW, SLOPE, judge_frame};
use memory::{Refusal, float_at, put_float};

// How many words they take.
const FRAME_LENGTH: usize = 8;

// All that can refuse the call.
fn judge_figures(store: &[u32], out: usize) -> Result<(), Refusal>
    ensures { answer_number result ≡ level_judged store.now (ltb out frame_length) false }
{
    let size = level_size(store)?;
    judge_frame(store, size.w, size.h, out < FRAME_LENGTH, false)
}

// The words over the front of those lent.
fn put_frame(store: &[u32], out: &mut [u32])
    requires { (header_words ≤ length store.now) × (frame_length ≤ length out.old) }
    ensures { out.new ≡ over (frame_put store.now) out.old }
{
    let skew = float_at(store, SKEW);
    let slope = float_at(store, SLOPE);
    out[0] = store[PAGE_WIDTH];
    out[1] = store[PAGE_HEIGHT];
    out[2] = store[FRAME_WIDTH];
    out[3] = store[FRAME_HEIGHT];
    put_float(out, 4, skew);
    put_float(out, 6, slope);
}

// Reads the frame's figures: eight words, or the refusal.
pub fn read_frame(store: &[u32], out: &mut [u32]) -> Result<(), Refusal>
    ensures { told (answer_number result) 0 (words out.new) ≡ level_told (LevelReading.frame_figures out.old) store.now }
{
    judge_figures(store, out.len())?;
    put_frame(store, out);
    Ok(())
}
