// Run extents along columns. The plane is worked through in bands of rows, from the last up, so that a band is still in cache when
// its extents are taken up: memory traffic is what costs.
ghost use Rattle.std.specs.Prelude.{◌≡◌, cond, true, false, ◌&&◌, ℕ, ◌+◌, ◌-◌, ◌*◌, ◌≤◌, ◌<◌, min, length, get_or, ltb};
ghost use Rattle.memory.specs.rules.Words.{over};
ghost use Rattle.memory.specs.rules.Limits.{max_extent};
ghost use Rattle.memory.specs.rules.Masks.{is_ink};
ghost use Rattle.extents.specs.rules.Extents.{column_extents};
ghost use Rattle.extents.specs.stages.Scans.{MaskFits, TakesUp, capped_count, column_extent};
ghost use Rattle.extents.specs.stages.Bands.{Put, Counts, BandsCounted, count_from, band_count};

use crate::chunks::{is_blank, joins, taken, widen};
use memory::MAX_EXTENT;

// The rows of a band.
const BAND: usize = 32;

// The columns that are counted at a time, and those whose extents are taken up at a time.
const CHUNK: usize = 64;

const TAKEN: usize = 32;

// All rows of a band, as a column counts them.
const ALL: u8 = 32;

// A mask w wide and h high.
#[derive(Clone, Copy, Debug, PartialEq, Eq)]
struct Plane<'a> {
    mask: &'a [u8],
    w: usize,
    h: usize,
}

// Along the columns: down, each dot counts the ink that ends at it; up again, each dot that goes on below takes what the dot below
// has. Row by row, so that a row's dots are independent.
pub fn column_extents(mask: &[u8], width: u32, height: u32, extents: &mut [u32])
    requires { MaskFits width height (length mask.now) (length extents.old) }
    ensures { extents.new ≡ over (column_extents width height mask.now) extents.old }
{
    let plane = Plane {
        mask,
        w: width as usize,
        h: height as usize,
    };
    plane.count_bands(extents);
    for band in (0..plane.h.div_ceil(BAND)).rev() {
        let start = band * BAND;
        let end = plane.h.min(start + BAND);
        plane.count_band(start, end, extents);
        plane.take_band(start, end, extents);
    }
}

impl Plane<'_> {
    // The counts of the last row of every whole band, from the mask alone: with them each band can be counted by itself.
    fn count_bands(self, extents: &mut [u32])
        requires { MaskFits self.w self.h (length self.mask.now) (length extents.old) }
        ensures { BandsCounted self.entry.w self.entry.mask.now self.entry.h extents.old extents.new }
    {
        for band in 0..self.h / BAND {
            self.count_last_row(band * BAND, extents);
        }
    }

    // The counts of the last row of the band from row y on, a chunk of its columns at a time.
    fn count_last_row(self, y: usize, extents: &mut [u32])
        requires { Counts self.w self.mask.now (y * self.w) ((y + 32) * self.w) extents.old }
        ensures { Put (capped_count self.entry.w self.entry.mask.now) ((y + 31) * self.entry.w) ((y + 31) * self.entry.w + self.entry.w) extents.old extents.new }
    {
        for chunk in 0..self.w / CHUNK {
            self.count_last_chunk(y, chunk * CHUNK, CHUNK, extents);
        }
        let rest = self.w % CHUNK;
        self.count_last_chunk(y, self.w - rest, rest, extents);
    }

    // The same of n columns from x on.
    fn count_last_chunk(self, y: usize, x: usize, n: usize, extents: &mut [u32])
        requires { (Counts self.w self.mask.now (y * self.w) ((y + 32) * self.w) extents.old) × (x + n ≤ self.w) × (n ≤ 64) }
        ensures { Put (capped_count self.entry.w self.entry.mask.now) ((y + 31) * self.entry.w + x) ((y + 31) * self.entry.w + x + n) extents.old extents.new }
    {
        let mut chunk = [0u8; CHUNK];
        let counts = &mut chunk[..n];
        self.count_columns(y, x, counts);
        let at = (y + (BAND - 1)) * self.w + x;
        // Above the first band there is no ink.
        if y == 0 {
            widen(counts, at, extents);
            return;
        }
        add_counts(counts, (y - 1) * self.w + x, at, extents);
    }

    // The ink that ends at the band's last row, of its own rows alone; in bytes, so that many columns go at a time.
    #[tactic(auto, using(crate::proofs::ExtentLaws::row_upto, crate::proofs::BandLaws::rows_fit))]
    fn count_columns(self, y: usize, x: usize, counts: &mut [u8])
        requires { (0 < self.w) × ((y + 32) * self.w ≤ length self.mask.now) × (x + length counts.old ≤ self.w) × ((k : ℕ) → k < length counts.old → get_or counts.old k 0 ≡ 0) }
        ensures { (k : ℕ) → k < length counts.old → get_or counts.new k 0 ≡ count_from self.entry.w self.entry.mask.now y (x + k) 32 }
    {
        for r in 0..BAND {
            let from = (y + r) * self.w + x;
            let to = from + counts.len();
            count_more(&self.mask[from..to], counts);
        }
    }

    // The counts of the band's rows from the row above it, where there is one.
    fn count_band(self, start: usize, end: usize, extents: &mut [u32])
        requires { (Counts self.w self.mask.now (start * self.w) (end * self.w) extents.old) × (start ≤ end) }
        ensures { Put (capped_count self.entry.w self.entry.mask.now) (start * self.entry.w) (end * self.entry.w) extents.old extents.new }
    {
        for y in start..end {
            self.count_row(y, extents);
        }
    }

    // Row y, a chunk at a time.
    fn count_row(self, y: usize, extents: &mut [u32])
        requires { Counts self.w self.mask.now (y * self.w) (y * self.w + self.w) extents.old }
        ensures { Put (capped_count self.entry.w self.entry.mask.now) (y * self.entry.w) (y * self.entry.w + self.entry.w) extents.old extents.new }
    {
        if y == 0 {
            self.count_first_row(extents);
            return;
        }
        let at = y * self.w;
        for chunk in 0..self.w / CHUNK {
            self.count_chunk(at + chunk * CHUNK, extents);
        }
        let end = at + self.w;
        self.count_dots(end - self.w % CHUNK, end, extents);
    }

    // Nothing lies above the first row.
    fn count_first_row(self, extents: &mut [u32])
        requires { (0 < self.w) × (self.w ≤ length self.mask.now) × (length self.mask.now ≤ length extents.old) }
        ensures { Put (capped_count self.entry.w self.entry.mask.now) 0 self.entry.w extents.old extents.new }
    {
        for i in 0..self.w {
            extents[i] = count_on(self.mask[i], 0);
        }
    }

    // A chunk of a row: where all is blank, nothing is counted.
    fn count_chunk(self, from: usize, extents: &mut [u32])
        requires { (Counts self.w self.mask.now from (from + 64) extents.old) × (self.w ≤ from) }
        ensures { Put (capped_count self.entry.w self.entry.mask.now) from (from + 64) extents.old extents.new }
    {
        let to = from + CHUNK;
        if is_blank(&self.mask[from..to]) {
            extents[from..to].fill(0);
            return;
        }
        self.count_dots(from, to, extents);
    }

    // From the dots above.
    fn count_dots(self, from: usize, to: usize, extents: &mut [u32])
        requires { (Counts self.w self.mask.now from to extents.old) × (self.w ≤ from) }
        ensures { Put (capped_count self.entry.w self.entry.mask.now) from to extents.old extents.new }
    {
        for i in from..to {
            extents[i] = count_on(self.mask[i], extents[i - self.w]);
        }
    }

    // From the band's last row up: below it all is as it is to be.
    fn take_band(self, start: usize, end: usize, extents: &mut [u32])
        requires { (TakesUp self.w self.h self.mask.now (start * self.w) (end * self.w) extents.old) × (start ≤ end) }
        ensures { Put (column_extent self.entry.w self.entry.h self.entry.mask.now) (start * self.entry.w) (end * self.entry.w) extents.old extents.new }
    {
        for y in (start..end).rev() {
            self.take_row(y, extents);
        }
    }

    // Row y from the row below, a chunk at a time; the plane's last row has its extents.
    fn take_row(self, y: usize, extents: &mut [u32])
        requires { TakesUp self.w self.h self.mask.now (y * self.w) (y * self.w + self.w) extents.old }
        ensures { Put (column_extent self.entry.w self.entry.h self.entry.mask.now) (y * self.entry.w) (y * self.entry.w + self.entry.w) extents.old extents.new }
    {
        if y + 1 == self.h {
            return;
        }
        let at = y * self.w;
        let first = at + self.w % TAKEN;
        for chunk in (0..self.w / TAKEN).rev() {
            self.take_chunk(first + chunk * TAKEN, extents);
        }
        self.take_dots(at, first, extents);
    }

    // A chunk of a row: where no dot goes on below, the counts are the extents.
    fn take_chunk(self, from: usize, extents: &mut [u32])
        requires { (TakesUp self.w self.h self.mask.now from (from + 32) extents.old) × (from + 32 + self.w ≤ self.w * self.h) }
        ensures { Put (column_extent self.entry.w self.entry.h self.entry.mask.now) from (from + 32) extents.old extents.new }
    {
        let to = from + TAKEN;
        if !joins(&self.mask[from..to], &self.mask[from + self.w..to + self.w]) {
            return;
        }
        self.take_dots(from, to, extents);
    }

    // From the dots below.
    fn take_dots(self, from: usize, to: usize, extents: &mut [u32])
        requires { (TakesUp self.w self.h self.mask.now from to extents.old) × (to + self.w ≤ self.w * self.h) }
        ensures { Put (column_extent self.entry.w self.entry.h self.entry.mask.now) from to extents.old extents.new }
    {
        for i in (from..to).rev() {
            extents[i] = taken(
                self.mask[i],
                self.mask[i + self.w],
                extents[i],
                extents[i + self.w],
            );
        }
    }
}

// One row more; without a branch.
fn count_more(dots: &[u8], counts: &mut [u8])
    requires { (length dots.now ≤ length counts.old) × ((k : ℕ) → k < length dots.now → get_or counts.old k 0 < 32) }
    ensures { Put (λ k. cond (is_ink dots.now k) (get_or counts.old k 0 + 1) 0) 0 (length dots.now) counts.old counts.new }
{
    for (i, dot) in dots.iter().enumerate() {
        let ink = (0 < *dot) as u8;
        counts[i] = ink * (counts[i] + 1);
    }
}

// From the counts of the row above the band.
fn add_counts(counts: &[u8], above: usize, at: usize, extents: &mut [u32])
    requires { (above + length counts.now ≤ at) × (at + length counts.now ≤ length extents.old) × ((k : ℕ) → k < length counts.now → get_or extents.old (above + k) 0 ≤ max_extent) }
    ensures { Put (λ k. band_count (get_or counts.now (k - at) 0) (get_or extents.old (above + (k - at)) 0)) at (at + length counts.now) extents.old extents.new }
{
    for (i, count) in counts.iter().enumerate() {
        extents[at + i] = count_through(*count, extents[above + i]);
    }
}

// A column's count in the band, with the count above the band where all of the band is ink.
fn count_through(n: u8, above: u32) -> u32
    requires { above ≤ max_extent }
    ensures { result ≡ band_count n above }
{
    let all = (n == ALL) as u32;
    (n as u32 + all * above).min(MAX_EXTENT)
}

// One more where there is ink, up to the greatest extent, else none; without a branch, so that a row goes many dots at a time.
fn count_on(b: u8, above: u32) -> u32
    requires { above ≤ max_extent }
    ensures { result ≡ cond (ltb 0 b) (min (above + 1) max_extent) 0 }
{
    let ink = (0 < b) as u32;
    let more = (above < MAX_EXTENT) as u32;
    ink * (above + more)
}
