// The way back to the page from a store: a point.
ghost use Rattle.std.specs.Prelude.{not, ◌&&◌, ◌≡◌, ◌≤◌, ltb, length};
ghost use Rattle.judging.specs.rules.Header.{held, frame_held};
ghost use Rattle.store.specs.rules.Readings.{filled, point_numbers, point_length, LevelReading};
ghost use Rattle.judging.specs.stages.Judged.{level_judged};
ghost use Rattle.store.specs.rules.Readings.Output.{integers};
ghost use Rattle.store.specs.rules.Outcomes.{told, level_told};
ghost use Rattle.memory.specs.rules.Refusals.{answer_number};
ghost use Rattle.store.specs.stages.Points.{Coordinate};

use crate::held_frames::{held_frame, level_size};
use judging::{PAGE_WIDTH, judge_frame};
use levelling::Point;
use memory::Refusal;

// How many numbers a point takes.
const POINT_LENGTH: usize = 2;

// All that can refuse a point.
fn judge_point(store: &[u32], x: u32, y: u32, out: usize) -> Result<(), Refusal>
    ensures { answer_number result ≡ level_judged store.now (ltb out point_length) (not (ltb x (frame_held (held store.now)).w && ltb y (frame_held (held store.now)).h)) }
{
    let size = level_size(store)?;
    let w = size.w;
    let h = size.h;
    judge_frame(store, w, h, out < POINT_LENGTH, !((x < w) & (y < h)))
}

// Column and row over the front of the numbers lent.
fn put_point(p: Point, point: &mut [i32])
    requires { (2 ≤ length point.old) × Coordinate p.x × Coordinate p.y }
    ensures { point.new ≡ filled (point_numbers p) point.old }
{
    point[0] = p.x as i32;
    point[1] = p.y as i32;
}

// Maps a frame point: the refusal, or the page's column and row, which may lie outside the page.
pub fn to_page(store: &[u32], x: u32, y: u32, point: &mut [i32]) -> Result<(), Refusal>
    ensures { told (answer_number result) 0 (integers point.new) ≡ level_told (LevelReading.point x y point.old) store.now }
{
    judge_point(store, x, y, point.len())?;
    let frame = held_frame(store);
    let p = levelling::to_page(frame.shear, frame.shear_x, store[PAGE_WIDTH], x, y);
    put_point(p, point);
    Ok(())
}
