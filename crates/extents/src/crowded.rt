// Extents along a row where its runs are short or many: no branch depends on a dot, which on such rows could not be foreseen.
ghost use Rattle.std.specs.Prelude.{◌≡◌, cond, true, false, ◌&&◌, ℕ, ◌+◌, ◌-◌, ◌≤◌, ◌<◌, length, get_or, ltb};
ghost use Rattle.memory.specs.rules.Masks.{is_ink};
ghost use Rattle.extents.specs.stages.Scans.{Starts, RowTo, RowCounted, no_four, short_extent, short_extent_at, PartOfRow};
ghost use Rattle.extents.specs.stages.Bands.{Put};

use crate::chunks::{taken, widen};

// So many turns in a chunk of 64 dots are many: measured, no promise goes by it.
const MANY: u8 = 8;

// The dots of a chunk whose extents are told at once.
const CHUNK: usize = 32;

// A part of a row, from x up to `to`, a dot of the row.
#[derive(Clone, Copy, Debug, PartialEq, Eq)]
pub struct Part<'a> {
    pub row: &'a [u8],
    pub x: usize,
    pub to: usize,
    ghost inside: { (x ≤ to) × (to < length row.now) },
}

impl Part<'_> {
    // Whether its runs are short, and there are dots enough around to see it.
    pub fn is_short(self) -> bool
        ensures { result ≡ true → (2 ≤ self.entry.x) × (self.entry.to + 3 ≤ length self.entry.row.now) × ((k : ℕ) → self.entry.x ≤ k → k < self.entry.to → no_four self.entry.row.now k) }
    {
        2 <= self.x && self.to + 3 <= self.row.len() && self.all_short()
    }

    // Whether no run that starts from x up to `to` has more than three dots.
    fn all_short(self) -> bool
        requires { self.to + 3 ≤ length self.row.now }
        ensures { result ≡ true → (k : ℕ) → self.entry.x ≤ k → k < self.entry.to → no_four self.entry.row.now k }
    {
        let mut short = true;
        for i in self.x..self.to {
            let front = (0 < self.row[i]) & (0 < self.row[i + 1]);
            let back = (0 < self.row[i + 2]) & (0 < self.row[i + 3]);
            short &= !(front & back);
        }
        short
    }

    // The extents from the start x up to the start `to`, where no run has more than three dots. The last chunk may lie partly over the
    // one before it.
    pub fn short_extents(self, extents: &mut [u32])
        requires { (PartOfRow self.row.now self.x self.to) × (RowTo self.row.now self.x extents.old) × (2 ≤ self.x) × (self.to + 3 ≤ length self.row.now) × ((k : ℕ) → self.x ≤ k → k < self.to → no_four self.row.now k) × (self.x + 32 ≤ self.to) }
        ensures { RowTo self.entry.row.now self.entry.to extents.new }
    {
        for chunk in 0..(self.to - self.x) / CHUNK {
            short_chunk(self.row, self.x + chunk * CHUNK, extents);
        }
        short_chunk(self.row, self.to - CHUNK, extents);
    }

    // Whether a chunk has many turns, from a dot to the next.
    pub fn is_crowded(self) -> bool
        requires { self.to ≤ self.x + 64 }
    {
        let mut turns = 0;
        for i in self.x..self.to {
            turns += ((0 < self.row[i]) != (0 < self.row[i + 1])) as u8;
        }
        MANY <= turns
    }

    // The extents from the start x up to the start `to`: on, each dot counts the ink that ends at it; back again, each dot that goes on
    // takes what the next one has.
    pub fn counted_extents(self, extents: &mut [u32])
        requires { (PartOfRow self.row.now self.x self.to) × (RowTo self.row.now self.x extents.old) × (self.to ≤ self.x + 64) }
        ensures { RowTo self.entry.row.now self.entry.to extents.new }
    {
        self.count_on(extents);
        self.take_back(extents);
    }

    fn count_on(self, extents: &mut [u32])
        requires { (PartOfRow self.row.now self.x self.to) × (RowTo self.row.now self.x extents.old) × (self.to ≤ self.x + 64) }
        ensures { RowCounted self.entry.row.now self.entry.x self.entry.to self.entry.to extents.new }
    {
        let mut count = 0;
        for i in self.x..self.to {
            count = one_more(self.row[i], count);
            extents[i] = count;
        }
    }

    fn take_back(self, extents: &mut [u32])
        requires { (PartOfRow self.row.now self.x self.to) × (RowCounted self.row.now self.x self.to self.to extents.old) × (self.to ≤ self.x + 64) }
        ensures { RowTo self.entry.row.now self.entry.to extents.new }
    {
        let mut later = 0;
        for i in (self.x..self.to).rev() {
            later = taken(self.row[i], self.row[i + 1], extents[i], later);
            extents[i] = later;
        }
    }
}

// The last start from x up to `to`.
pub fn start_before(row: &[u8], x: usize, to: usize) -> usize
    requires { (x ≤ to) × (to < length row.now) × Starts (is_ink row.now) x }
    ensures { (x ≤ result) × (result ≤ to) × Starts (is_ink row.now) result }
{
    for r in (x + 1..=to).rev() {
        if row[r] == 0 || row[r - 1] == 0 {
            return r;
        }
    }
    x
}

// The extent of the third of five dots, in a run of at most three; without a branch, so that many dots are done at once.
fn short_extent(a: u8, b: u8, dot: u8, d: u8, e: u8) -> u8
    ensures { result ≡ short_extent (ltb 0 a) (ltb 0 b) (ltb 0 dot) (ltb 0 d) (ltb 0 e) }
{
    let before = (0 < b) as u8 + ((0 < a) & (0 < b)) as u8;
    let after = (0 < d) as u8 + ((0 < d) & (0 < e)) as u8;
    let ink = (0 < dot) as u8;
    ink * (1 + before + after)
}

// The extents of a chunk of dots from x on, in runs of at most three. They are told in bytes first: so many more are done at once.
fn short_chunk(row: &[u8], x: usize, extents: &mut [u32])
    requires { (2 ≤ x) × (x + 34 ≤ length row.now) × (length extents.old ≡ length row.now) }
    ensures { Put (short_extent_at row.now) x (x + 32) extents.old extents.new }
{
    widen(&short_bytes(row, x), x, extents);
}

// The same in bytes.
fn short_bytes(row: &[u8], x: usize) -> [u8; CHUNK]
    requires { (2 ≤ x) × (x + 34 ≤ length row.now) }
    ensures { (k : ℕ) → k < 32 → get_or result k 0 ≡ short_extent_at row.now (x + k) }
{
    let from = x - 2;
    let mut bytes = [0; CHUNK];
    for k in 0..CHUNK {
        let i = from + k;
        bytes[k] = short_extent(row[i], row[i + 1], row[i + 2], row[i + 3], row[i + 4]);
    }
    bytes
}

// One more where there is ink, else none.
fn one_more(b: u8, count: u32) -> u32
    requires { count < 4294967295 }
    ensures { result ≡ cond (ltb 0 b) (count + 1) 0 }
{
    if 0 < b { count + 1 } else { 0 }
}
