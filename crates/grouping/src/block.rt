// Blocks: lines that follow each other with small gaps and share columns.
ghost use Rattle.std.specs.Prelude.{◌≡◌, cond, List, map, ℕ, ◌+◌, ◌*◌, ◌-◌, ◌≤◌, ◌<◌, min, length, get_or, drop};
ghost use Rattle.memory.specs.rules.Lists.{table};
ghost use Rattle.memory.specs.rules.Words.{over, put_at};
ghost use Rattle.union_find.specs.rules.Classes.{first_of, firsts};
ghost use Rattle.union_find.specs.stages.Forests.{Forest};
ghost use Rattle.grouping.specs.rules.Blocks.{line_gap, shared_columns, overlapping, candidate_gaps, nearest_gaps, hard_cap, max_gap, block_firsts, block_number, blocks_of};
ghost use Rattle.grouping.specs.stages.Joining.{least_with, joins, Joined};
ghost use Rattle.grouping.specs.stages.Numbering.{with_blocks};
ghost use Rattle.memory.specs.rules.Rects.{height};
ghost use Rattle.sorting.specs.rules.Units.{median};
ghost use Rattle.memory.specs.stages.Boxes.{Inside};
ghost use Rattle.grouping.specs.stages.LineBoxes.{Lines, ByTop, Groupable, line_boxes};
ghost use Rattle.smoothing.specs.rules.LineRecords.{line_words};
ghost use Rattle.grouping.specs.rules.BlockRecords.{block_words, block_record};
ghost use Rattle.grouping.specs.rules.HeldLines.{line_box};
ghost use Rattle.memory.specs.rules.Records.{encoded};
ghost use Rattle.grouping.specs.stages.Counts.{counts};

use crate::counts::{count_below, count_values};
use crate::number::{number_blocks, write_numbers};
use crate::record::write_blocks;
use memory::{Rect, box_at, fill};
use params::LayoutParams;
use smoothing::LINE_WORDS;
use sorting::median_of_counts;
use union_find::{find, unite};

// Groups the n lines at the front of the words, which go by y0, into blocks: writes the number of its block into each line and a record a
// block, five words, from the word `at` on; answers how many blocks there are.
pub fn blocks(
    words: &mut [u32],
    n: usize,
    sheet: LayoutParams,
    h: u32,
    at: usize,
    scratch: &mut [u32],
) -> usize
    requires { Groupable n h words.old (length scratch.old) × (n * line_words ≤ at) × (at + n * block_words ≤ length words.old) }
    ensures { (result ≡ length (blocks_of (line_boxes words.old n) (block_firsts sheet (line_boxes words.old n))))
        × (words.new ≡ with_blocks (block_number (block_firsts sheet (line_boxes words.old n))) n
        (put_at at (encoded block_record (blocks_of (line_boxes words.old n) (block_firsts sheet (line_boxes words.old n)))) words.old)) }
{
    let lines = TextLines {
        words: &words[..],
        n,
        sheet,
        h,
    };
    lines.number_lines(scratch);
    let count = write_blocks(words, n, &scratch[..], at);
    write_numbers(words, n, &scratch[..]);
    count
}

// The box of line i.
pub fn line_box(lines: &[u32], i: usize) -> Rect
    requires { i * line_words + line_words ≤ length lines.now }
    ensures { result ≡ line_box lines.now i }
{
    box_at(lines, i * LINE_WORDS)
}

// The rows between two lines, 0 where they overlap.
fn line_gap(a: Rect, b: Rect) -> u32
    requires { a.y1 + 1 ≤ 4294967295 }
    ensures { result ≡ line_gap a b }
{
    b.y0.saturating_sub(a.y1 + 1)
}

// The columns that two lines share.
fn shared_columns(a: Rect, b: Rect) -> u32
    requires { a.x1 + 1 ≤ 4294967295 }
    ensures { result ≡ shared_columns a b }
{
    let end = a.x1.min(b.x1) + 1;
    let start = a.x0.max(b.x0);
    end.saturating_sub(start)
}

// Whether two lines share at least one column and at least `overlap` times the narrower width.
fn overlaps(overlap: f64, a: Rect, b: Rect) -> bool
    requires { (a.x0 ≤ a.x1) × (a.x1 + 1 ≤ 4294967295) × (b.x0 ≤ b.x1) × (b.x1 + 1 ≤ 4294967295) }
    ensures { result ≡ overlapping overlap a b }
{
    let shared = shared_columns(a, b);
    let narrow = a.width().min(b.width());
    (0 < shared) & (overlap * (narrow as f64) <= shared as f64)
}

// The nearer of what was found so far and line b, where a and b overlap.
fn nearer(nearest: u32, gap: u32, overlap: f64, a: Rect, b: Rect) -> u32
    requires { (a.x0 ≤ a.x1) × (a.x1 + 1 ≤ 4294967295) × (b.x0 ≤ b.x1) × (b.x1 + 1 ≤ 4294967295) }
    ensures { result ≡ cond (overlapping overlap a b) (min nearest gap) nearest }
{
    if nearest <= gap {
        return nearest;
    }
    if overlaps(overlap, a, b) {
        return gap;
    }
    nearest
}

// The limits of the gaps between lines: of candidates, and within a block.
#[derive(Clone, Copy, Debug, PartialEq, Eq)]
pub struct GapLimits {
    pub cap: u32,
    pub most: u32,
}

// Each line is its own parent.
fn own_parents(parents: &mut [u32], n: usize)
    requires { (n ≤ length parents.old) × (n ≤ 4294967295) }
    ensures { parents.new ≡ over (table (λ (k : ℕ). k) n) parents.old }
{
    for i in 0..n {
        parents[i] = i as u32;
    }
}

// The text lines of a frame h high: n records at the front of the words, which go by y0.
#[derive(Clone, Copy, Debug, PartialEq)]
struct TextLines<'a> {
    words: &'a [u32],
    n: usize,
    sheet: LayoutParams,
    h: u32,
}

impl<'a> TextLines<'a> {
    // The number of the block of each line, in the first n words of scratch.
    fn number_lines(&self, scratch: &mut [u32])
        requires { Groupable self.now.n self.now.h self.now.words.now (length scratch.old) }
        ensures { (k : ℕ) → k < self.now.n → get_or scratch.new k 0 ≡ block_number (block_firsts self.now.sheet (line_boxes self.now.words.now self.now.n)) k }
    {
        let limits = self.gap_limits(scratch);
        let limit = limits.cap.min(limits.most);
        self.join_lines(limit, scratch);
        number_blocks(scratch, self.n);
    }

    // The least gap from line i to a candidate after it; h, the frame's height, where there is none. The lines go by y0, so that past a
    // gap above the cap all are.
    fn nearest_gap(&self, i: usize, cap: u32) -> u32
        requires { ((w : ℕ) × Lines w self.now.h self.now.n self.now.words.now × (w ≤ 4294967295)) × ByTop self.now.n self.now.words.now × (i < self.now.n) }
        ensures { result ≡ least_with self.now.h (candidate_gaps self.now.sheet.block_min_overlap cap (line_box self.now.words.now i) (drop (i + 1) (line_boxes self.now.words.now self.now.n))) }
    {
        let a = line_box(self.words, i);
        let mut nearest = self.h;
        for j in i + 1..self.n {
            let b = line_box(self.words, j);
            let gap = line_gap(a, b);
            if cap < gap {
                return nearest;
            }
            nearest = nearer(nearest, gap, self.sheet.block_min_overlap, a, b);
        }
        nearest
    }

    // Both limits for n lines of a frame h high.
    fn gap_limits(&self, table: &mut [u32]) -> GapLimits
        requires { ((w : ℕ) × Lines w self.now.h self.now.n self.now.words.now × (w ≤ 4294967295)) × ByTop self.now.n self.now.words.now × (self.now.n ≤ 4294967295) × (self.now.h < 4294967295) × (self.now.h + 1 ≤ length table.old) }
        ensures { (result.cap ≡ hard_cap self.now.sheet (line_boxes self.now.words.now self.now.n)) × (result.most ≡ max_gap self.now.sheet (line_boxes self.now.words.now self.now.n)) }
    {
        let height = self.line_height(table) as f64;
        let cap = rounding::round_to_u32(self.sheet.block_max_gap_lines * height);
        let typical = self.typical_gap(cap, table) as f64;
        let most = rounding::round_to_u32(typical + self.sheet.block_gap_margin_lines * height);
        GapLimits { cap, most }
    }

    // The median height of the lines' boxes.
    fn line_height(&self, table: &mut [u32]) -> u32
        requires { ((w : ℕ) × Lines w self.now.h self.now.n self.now.words.now) × (self.now.n ≤ 4294967295) × (self.now.h < 4294967295) × (self.now.h + 1 ≤ length table.old) }
        ensures { result ≡ median (map height (line_boxes self.now.words.now self.now.n)) }
    {
        self.count_heights(table);
        let values = (self.h as usize) + 1;
        median_of_counts(&table[..values], self.n as u32)
    }

    // Counts the heights of the lines, 1 to h.
    fn count_heights(&self, table: &mut [u32])
        requires { ((w : ℕ) × Lines w self.now.h self.now.n self.now.words.now) × (self.now.n ≤ 4294967295) × (self.now.h < 4294967295) × (self.now.h + 1 ≤ length table.old) }
        ensures { table.new ≡ over (counts (map height (line_boxes self.now.words.now self.now.n)) (self.now.h + 1)) table.old }
    {
        let values = (self.h as usize) + 1;
        count_values(|i| line_box(self.words, i).height(), self.n, table, values);
    }

    // The median of the gaps of the lines to their nearest candidates.
    fn typical_gap(&self, cap: u32, table: &mut [u32]) -> u32
        requires { ((w : ℕ) × Lines w self.now.h self.now.n self.now.words.now × (w ≤ 4294967295)) × ByTop self.now.n self.now.words.now × (self.now.n ≤ 4294967295) × (self.now.h ≤ length table.old) }
        ensures { result ≡ median (nearest_gaps self.now.sheet.block_min_overlap cap (line_boxes self.now.words.now self.now.n)) }
    {
        let found = self.count_gaps(cap, table);
        let values = self.h as usize;
        median_of_counts(&table[..values], found)
    }

    // Counts the gap of each line to its nearest candidate, all below h; answers how many lines have one.
    fn count_gaps(&self, cap: u32, table: &mut [u32]) -> u32
        requires { ((w : ℕ) × Lines w self.now.h self.now.n self.now.words.now × (w ≤ 4294967295)) × ByTop self.now.n self.now.words.now × (self.now.n ≤ 4294967295) × (self.now.h ≤ length table.old) }
        ensures { (result ≡ length (nearest_gaps self.now.sheet.block_min_overlap cap (line_boxes self.now.words.now self.now.n)))
            × (table.new ≡ over (counts (nearest_gaps self.now.sheet.block_min_overlap cap (line_boxes self.now.words.now self.now.n)) self.now.h) table.old) }
    {
        fill(&mut table[0..self.h as usize], 0);
        let mut found = 0;
        for i in 0..self.n {
            let gap = self.nearest_gap(i, cap);
            found += count_below(table, self.h, gap);
        }
        found
    }

    // Gives the n lines parents that lead each to the first line of its block: lines with a gap of at most `limit` that overlap belong
    // together.
    fn join_lines(&self, limit: u32, parents: &mut [u32])
        requires { ((w h : ℕ) × Lines w h self.now.n self.now.words.now × (w ≤ 4294967295) × (h ≤ 4294967295)) × ByTop self.now.n self.now.words.now × (self.now.n ≤ 4294967295) × (self.now.n ≤ length parents.old) }
        ensures { Forest (first_of (firsts (joins self.now.sheet.block_min_overlap limit self.now.words.now) self.now.n)) parents.new self.now.n }
    {
        own_parents(parents, self.n);
        for i in 0..self.n {
            self.join_after(limit, i, parents);
        }
    }

    // Joins line i with the lines after it that belong together with it. Past a gap above the limit there are none.
    fn join_after(&self, limit: u32, i: usize, parents: &mut [u32])
        requires { ((w h : ℕ) × Lines w h self.now.n self.now.words.now × (w ≤ 4294967295) × (h ≤ 4294967295)) × ByTop self.now.n self.now.words.now × (self.now.n ≤ 4294967295) × (i < self.now.n) × Joined (joins self.now.sheet.block_min_overlap limit self.now.words.now) self.now.n parents.old i (i + 1) }
        ensures { Joined (joins self.now.sheet.block_min_overlap limit self.now.words.now) self.now.n parents.new (i + 1) (i + 1 + 1) }
    {
        let a = line_box(self.words, i);
        let mut root = find(parents, i);
        for j in i + 1..self.n {
            let b = line_box(self.words, j);
            if limit < line_gap(a, b) {
                return;
            }
            if overlaps(self.sheet.block_min_overlap, a, b) {
                root = unite(parents, root, j);
            }
        }
    }
}
