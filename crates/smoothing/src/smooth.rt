// Smoothing on the runs of rows: gaps between the glyph runs of a row are closed where they are small enough. The runs after the cut
// and the numbers of their components lie in scratch; the smoothed runs go behind them.
ghost use Rattle.std.specs.Prelude.{◌≡◌, ◌≢◌, MatchOption, true, cond, ◌&&◌, List, ℕ, ◌+◌, ◌-◌, ◌*◌, ◌≤◌, ◌<◌, length, set, ltb, leb};
ghost use Rattle.sorting.specs.rules.Kinds.{glyph_kind};
ghost use Rattle.smoothing.specs.stages.RowRuns.{kind_of, SmoothRoom, SmoothLeft, SmoothingInput, PageWalk, row_start, RowEnd, RowOf, RowParts, RunOfGlyph, GlyphAt, RunAdded};

use sorting::GLYPH;

// Where things stand in the words behind the runs: the numbers of their components, the smoothed runs of the page, the kinds of all
// components and their words.
#[derive(Clone, Copy, Debug, PartialEq, Eq)]
pub struct Places {
    pub numbers: usize,
    pub smoothed: usize,
    pub kinds: usize,
    pub firsts: usize,
}

// How far the walk has come: runs and smoothed runs of the page so far, the greatest number of a glyph among them, and the end of the
// row's last glyph run, or 0 where there is none yet.
// That 0 stays a number: the rules that the theorems rest on (RowWalk, PageWalk in specs/) are about it.
#[derive(Clone, Copy, Debug, PartialEq, Eq)]
pub struct Walk {
    pub passed: usize,
    pub smoothed: usize,
    pub newest: usize,
    pub last: usize,
}

// A glyph run: the number of its component, its first dot and its end.
#[derive(Clone, Copy, Debug, PartialEq, Eq)]
pub struct GlyphRun {
    pub number: usize,
    pub start: u32,
    pub end: u32,
}

// Writes the runs of the smoothed mask behind the c runs and their numbers, and for each glyph, from word `firsts` on, the smoothed
// run that has its first dot; answers how many smoothed runs there are.
pub fn smooth_runs(
    words: &mut [u32],
    c: usize,
    w: usize,
    h: usize,
    kinds: usize,
    firsts: usize,
    gap: usize,
) -> usize
    requires { (m : List ℕ) × (ks : List ℕ) × (plane : List ℕ) × SmoothRoom w h m ks plane words.old c kinds firsts }
    ensures { (m ks plane : List ℕ) → SmoothRoom w h m ks plane words.old c kinds firsts
        → SmoothLeft w h m ks plane words.old words.new c kinds firsts gap result }
{
    let places = Places {
        numbers: 2 * c,
        smoothed: 3 * c,
        kinds,
        firsts,
    };
    let mut walk = Walk {
        passed: 0,
        smoothed: 0,
        newest: 0,
        last: 0,
    };
    let mut limit = 0;
    for _y in 0..h {
        limit += w;
        let end = row_end(&words[..], walk.passed, c, limit);
        walk = smooth_row(words, places, end, gap, walk);
    }
    walk.smoothed
}

// Where the row of run `first` ends among the c runs: at the first one that starts at dot `limit` or behind it.
fn row_end(words: &[u32], first: usize, c: usize, limit: usize) -> usize
    requires { (first ≤ c) × (2 * c ≤ length words.now) }
    ensures { RowEnd words.now first c limit result }
{
    for end in first..c {
        if limit <= words[2 * end] as usize {
            return end;
        }
    }
    c
}

// The walk with the runs of one row, those up to run `end`.
fn smooth_row(words: &mut [u32], places: Places, end: usize, gap: usize, before: Walk) -> Walk
    requires { (g : SmoothingInput) × (y : ℕ) × PageWalk g words.old places gap y (row_start before) × RowOf g y before.passed end }
    ensures { (result.passed ≡ end) × ((g : SmoothingInput) (y : ℕ) → PageWalk g words.old places gap y (row_start before) → RowOf g y before.passed end
        → PageWalk g words.new places gap y result) }
{
    let first = before.passed;
    let mut walk = Walk { last: 0, ..before };
    for _i in first..end {
        walk = smooth_run(words, places, first, end, gap, walk);
    }
    walk
}

// The walk with the next run of the row from run `first` to run `end`. The row is handed on as a part with both ends, and so are the
// numbers of its runs.
fn smooth_run(
    words: &mut [u32],
    places: Places,
    first: usize,
    end: usize,
    gap: usize,
    walk: Walk,
) -> Walk
    requires { (g : SmoothingInput) × (y : ℕ) × PageWalk g words.old places gap y walk × RowOf g y first end × (first ≤ walk.passed) × (walk.passed < end) }
    ensures { (result.passed ≡ walk.passed + 1) × ((g : SmoothingInput) (y : ℕ) → PageWalk g words.old places gap y walk
        → RowOf g y first end → PageWalk g words.new places gap y result) }
{
    let from = 2 * first;
    let to = 2 * end;
    let numbers = places.numbers + first;
    let numbers_end = places.numbers + end;
    let kinds = places.kinds;
    let firsts = places.firsts;
    let whole = &words[..];
    let run = glyph_run(
        &whole[from..to],
        &whole[numbers..numbers_end],
        &whole[kinds..firsts],
        walk.passed - first,
    );
    match run {
        Some(run) => smooth_glyph(words, places, gap, walk, run),
        None => Walk {
            passed: walk.passed + 1,
            ..walk
        },
    }
}

// Run j of a row, if the numbers of the row's runs and the kinds of all components tell that it is one of a glyph.
fn glyph_run(row: &[u32], numbers: &[u32], kinds: &[u32], j: usize) -> Option<GlyphRun>
    requires { RowParts row.now numbers.now kinds.now × (j < length numbers.now) }
    ensures { MatchOption result (kind_of numbers.now kinds.now j ≢ glyph_kind) (λ run. (0 < run.number) × RunOfGlyph row.now numbers.now kinds.now j run) }
{
    let number = numbers[j] as usize;
    if kinds[number - 1] != GLYPH {
        return None;
    }
    Some(GlyphRun {
        number,
        start: row[2 * j],
        end: row[2 * j + 1],
    })
}

// The walk with the next run of the row, one of a glyph.
fn smooth_glyph(words: &mut [u32], places: Places, gap: usize, walk: Walk, run: GlyphRun) -> Walk
    requires { (g : SmoothingInput) × (y : ℕ) × PageWalk g words.old places gap y walk × GlyphAt g y walk.passed run }
    ensures { (result.passed ≡ walk.passed + 1) × ((g : SmoothingInput) (y : ℕ) → PageWalk g words.old places gap y walk → GlyphAt g y walk.passed run
        → PageWalk g words.new places gap y result) }
{
    let start = run.start;
    let end = run.end;
    let number = run.number;
    let joins = joins_last(walk.last, start as usize, gap);
    let smoothed = add_run(words, places.smoothed, walk.smoothed, start, end, joins);
    mark_first(words, places.firsts, walk.newest, number, smoothed);
    Walk {
        passed: walk.passed + 1,
        smoothed,
        newest: walk.newest.max(number),
        last: end as usize,
    }
}

// Whether a glyph run from `start` on joins the last one of its row, which ends at `last`; 0 where there is none.
fn joins_last(last: usize, start: usize, gap: usize) -> bool
    requires { last ≤ start }
    ensures { result ≡ (ltb 0 last && leb (start - last) gap) }
{
    (0 < last) & (start - last <= gap)
}

// The smoothed runs, r from word `at` on, with a glyph run more: it makes the last longer, or is a run of its own.
fn add_run(words: &mut [u32], at: usize, r: usize, start: u32, end: u32, joins: bool) -> usize
    requires { (at + 2 * r + 2 ≤ length words.old) × (joins ≡ true → 0 < r) }
    ensures { RunAdded words.old words.new at r start end joins result }
{
    let next = at + 2 * r;
    if joins {
        words[next - 1] = end;
        return r;
    }
    words[next] = start;
    words[next + 1] = end;
    r + 1
}

// The word of a glyph that is met for the first time, so its number is above the newest: its smoothed run, the last of n.
fn mark_first(words: &mut [u32], at: usize, newest: usize, number: usize, n: usize)
    requires { (at + number ≤ length words.old) × (0 < n) × (n < 4294967296) }
    ensures { words.new ≡ cond (ltb newest number) (set words.old (at + number - 1) (n - 1)) words.old }
{
    if newest < number {
        words[at + number - 1] = (n - 1) as u32;
    }
}
