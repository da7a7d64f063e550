// Extents along rows: each row is a part of the mask, walked a chunk at a time. Where no two dots join, each is a
// run of its own; where runs are short or many, crowded.rt tells them without a branch on a dot; else runs are walked. Which way is taken
// carries no promise.
ghost use Rattle.std.specs.Prelude.{◌≡◌, true, false, ◌&&◌, ℕ, ◌+◌, ◌≤◌, ◌<◌, length};
ghost use Rattle.memory.specs.rules.Lists.{table};
ghost use Rattle.memory.specs.rules.Words.{over};
ghost use Rattle.memory.specs.rules.Limits.{max_mask_side};
ghost use Rattle.memory.specs.rules.Masks.{is_ink};
ghost use Rattle.extents.specs.rules.Extents.{extent, row_extents};
ghost use Rattle.extents.specs.stages.Scans.{ScannedTo, MaskFits, RowTo, no_four, single_dot};

use crate::chunks::joins;
use crate::crowded::{Part, start_before};
use crate::lengths::{capped, chunk_end};

// Along the rows: each row is a part of the mask and of the extents.
#[tactic(auto, using(crate::proofs::ExtentLaws::row_inside))]
pub fn row_extents(mask: &[u8], width: u32, height: u32, extents: &mut [u32])
    requires { MaskFits width height (length mask.now) (length extents.old) }
    ensures { extents.new ≡ over (row_extents width height mask.now) extents.old }
{
    let w = width as usize;
    let h = height as usize;
    for y in 0..h {
        let from = y * w;
        let to = from + w;
        extents_of_row(&mask[from..to], &mut extents[from..to]);
    }
}

// One row: each dot as a run of its own, then the runs of those chunks where dots join, from one start to the next.
fn extents_of_row(row: &[u8], extents: &mut [u32])
    requires { (length row.now ≡ length extents.old) × (length row.now ≤ max_mask_side) }
    ensures { extents.new ≡ table (extent (is_ink row.now) (length row.now)) (length row.now) }
{
    single_dots(row, extents);
    // a walk, not a count: from one start of a run to the next that is told
    let mut x: usize = 0;
    while x + 1 < row.len() {
        x = extents_from(row, x, extents);
    }
}

// 1 at each ink dot, else 0.
fn single_dots(row: &[u8], extents: &mut [u32])
    requires { length row.now ≡ length extents.old }
    ensures { extents.new ≡ table (single_dot row.now) (length row.now) }
{
    for (i, dot) in row.iter().enumerate() {
        extents[i] = (0 < *dot) as u32;
    }
}

// So few dots are not worth a look at how their runs lie: measured, no promise goes by it.
const FEW: usize = 32;

// From the start x on to the next one: a chunk where no two dots join is as it is to be.
fn extents_from(row: &[u8], x: usize, extents: &mut [u32]) -> usize
    requires { (x + 1 < length row.now) × (RowTo row.now x extents.old) }
    ensures { (x < result) × (RowTo row.now result extents.new) }
{
    let to = chunk_end(x, row.len() - 1);
    if !joins(&row[x..to], &row[x + 1..to + 1]) {
        return to;
    }
    let start = start_before(row, x, to);
    if start < x + FEW {
        return extents_of_runs(row, x, to, extents);
    }
    let part = Part { row, x, to: start };
    if part.is_short() {
        part.short_extents(extents);
        return start;
    }
    if part.is_crowded() {
        part.counted_extents(extents);
        return start;
    }
    extents_of_runs(row, x, to, extents)
}

// Run by run, until one ends at `to` or past it.
fn extents_of_runs(row: &[u8], x: usize, to: usize, extents: &mut [u32]) -> usize
    requires { (x < to) × (to ≤ length row.now) × (RowTo row.now x extents.old) }
    ensures { (x < result) × (RowTo row.now result extents.new) }
{
    // a walk, not a count: a run's end tells where the next begins
    let mut s = x;
    while s < to {
        s = extents_of_run(row, s, extents);
    }
    s
}

// The first run from the start x on; gives where it ends.
fn extents_of_run(row: &[u8], x: usize, extents: &mut [u32]) -> usize
    requires { (x < length row.now) × (RowTo row.now x extents.old) }
    ensures { (x < result) × (RowTo row.now result extents.new) }
{
    let blank = run_end(row, x, false);
    let ink = run_end(row, blank, true);
    extents[blank..ink].fill(capped(ink - blank));
    ink
}

// The first place from x on that is blank where `ink`, else the first that is ink; or the end.
fn run_end(row: &[u8], x: usize, ink: bool) -> usize
    requires { x ≤ length row.now }
    ensures { ScannedTo (is_ink row.now) ink x (length row.now) result }
{
    for e in x..row.len() {
        if (0 < row[e]) != ink {
            return e;
        }
    }
    row.len()
}
