// Columns of the page, from the lines over each frame column.
ghost use Rattle.std.specs.Prelude.{◌≡◌, List, ◌∷◌, [], ◌&&◌, ℕ, ◌+◌, ◌*◌, ◌-◌, ◌≤◌, ◌<◌, length, get_or, drop};
ghost use Rattle.std.proofs.lemmas.List.Edits.{sets};
ghost use Rattle.memory.specs.rules.Lists.{table, greatest, keep, upto};
ghost use Rattle.memory.specs.rules.Words.{over};
ghost use Rattle.memory.specs.rules.Records.{encoded};
ghost use Rattle.memory.specs.rules.Limits.{max_frame_width};
ghost use Rattle.grouping.specs.rules.Columns.{cover, enough_cover, column_runs, columns_of};
ghost use Rattle.grouping.specs.stages.Covers.{extended, CoverSteps};
ghost use Rattle.grouping.specs.stages.LineBoxes.{Lines, line_boxes};
ghost use Rattle.grouping.specs.rules.BlockRecords.{column_record};

use crate::counts::count_field;
use params::LayoutParams;

// A column of the page: its first and its last frame column.
#[derive(Clone, Copy, Debug, PartialEq, Eq)]
pub struct Column {
    pub x0: u32,
    pub x1: u32,
}

// Writes the columns of a frame w wide, two words each, over the front of the results, from the n lines that stand in them from the
// word `lines` on; answers how many there are.
pub fn columns(
    results: &mut [u32],
    lines: usize,
    n: usize,
    sheet: LayoutParams,
    unit: f64,
    w: usize,
    scratch: &mut [u32],
) -> usize
    requires { ((h : ℕ) × Lines w h n (drop lines results.old)) × (lines ≤ length results.old) × (n ≤ 4294967295) × (w ≤ max_frame_width) × (2 * w ≤ length scratch.old) × (2 * w ≤ length results.old) }
    ensures { (result ≡ length (columns_of sheet unit w (line_boxes (drop lines results.old) n)))
        × (results.new ≡ over (encoded column_record (columns_of sheet unit w (line_boxes (drop lines results.old) n))) results.old) }
{
    let busiest = fill_cover(&results[lines..], n, w, scratch);
    let gap = rounding::round_to_u32(sheet.column_gap_xh * unit);
    let frac = sheet.column_cover_frac;
    write_columns(scratch, w, frac, busiest, gap, results)
}

// The count of lines over each frame column, and the greatest of these counts.
fn fill_cover(lines: &[u32], n: usize, w: usize, scratch: &mut [u32]) -> u32
    requires { ((h : ℕ) × Lines w h n lines.now) × (n ≤ 4294967295) × (w ≤ max_frame_width) × (2 * w ≤ length scratch.old) }
    ensures { (result ≡ greatest (table (cover (line_boxes lines.now n)) w))
        × ((x : ℕ) → x < w → get_or scratch.new x 0 ≡ cover (line_boxes lines.now n) x) }
{
    count_field(lines, n, 0, &mut scratch[..w], w);
    count_field(lines, n, 2, &mut scratch[w..], w);
    sum_cover(scratch, w)
}

// From the lines that start and that end at each frame column to the lines over it; answers the greatest count.
fn sum_cover(counts: &mut [u32], w: usize) -> u32
    requires { ((f : ℕ → ℕ) × CoverSteps w counts.old f) × (w ≤ max_frame_width) }
    ensures { (f : ℕ → ℕ) → CoverSteps w counts.old f → (result ≡ greatest (table f w)) × (counts.new ≡ over (table f w) counts.old) }
{
    let mut depth: u32 = 0;
    let mut busiest: u32 = 0;
    for x in 0..w {
        depth += counts[x];
        counts[x] = depth;
        busiest = busiest.max(depth);
        depth -= counts[w + x];
    }
    busiest
}

// Writes the runs of frame columns under enough lines.
fn write_columns(
    cover: &[u32],
    w: usize,
    frac: f64,
    busiest: u32,
    gap: u32,
    out: &mut [u32],
) -> usize
    requires { (w ≤ length cover.now) × (w ≤ max_frame_width) × (2 * w ≤ length out.old) }
    ensures { (result ≡ length (column_runs gap (keep (λ (x : ℕ). enough_cover frac busiest (get_or cover.now x 0)) (upto w))))
        × (out.new ≡ over (encoded column_record (column_runs gap (keep (λ (x : ℕ). enough_cover frac busiest (get_or cover.now x 0)) (upto w)))) out.old) }
{
    let mut n = 0;
    for (x, count) in cover[..w].iter().enumerate() {
        if enough_cover(frac, busiest, *count) {
            n = put_column(out, n, x as u32, gap);
        }
    }
    n
}

// At least one line, and more than a part of the greatest count.
fn enough_cover(frac: f64, busiest: u32, n: u32) -> bool
    ensures { result ≡ enough_cover frac busiest n }
{
    (0 < n) & (frac * (busiest as f64) < n as f64)
}

// The n columns written so far with the frame column x, right of them, more: the last goes on over fewer than `gap` others.
fn put_column(out: &mut [u32], n: usize, x: u32, gap: u32) -> usize
    requires { (2 * n + 2 ≤ length out.old) × (0 < n → get_or out.old (2 * n - 1) 0 < x) }
    ensures { (cs : List Column) (s : List ℕ) → n ≡ length cs → out.old ≡ over (encoded column_record cs) s
        → (result ≡ length (extended gap x cs)) × (out.new ≡ over (encoded column_record (extended gap x cs)) s) }
{
    if n == 0 {
        return new_column(out, 0, x);
    }
    let last = 2 * n - 1;
    if x - (out[last] + 1) < gap {
        out[last] = x;
        return n;
    }
    new_column(out, n, x)
}

// A column of its own for the frame column x.
fn new_column(out: &mut [u32], n: usize, x: u32) -> usize
    requires { 2 * n + 2 ≤ length out.old }
    ensures { (result ≡ n + 1) × (out.new ≡ sets out.old (2 * n) (x ∷ x ∷ [])) }
{
    let at = 2 * n;
    out[at] = x;
    out[at + 1] = x;
    n + 1
}
