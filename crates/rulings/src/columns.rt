// Thin rulings down the columns, row by row: the dots of a row lie side by side, those of a column a row apart. A counter a column
// holds the length of the widened run that ends in this row; where it reaches the least length all of its run so far is cut, and after that
// the row's own dot. Columns are probed a strip of 64 at a time. Strips that follow one another and have a long run each are walked together:
// narrow strips would leave fast memory before their next row is read. Whether a dot is thin is looked up beside it, no further than the
// greatest thickness.
ghost use Rattle.std.specs.Prelude.{◌≡◌, cond, false, ◌||◌, ℕ, ◌+◌, ◌*◌, ◌≤◌, ◌<◌, length, get_or, set, drop, ltb};
ghost use Rattle.extents.specs.rules.Extents.{behind, run_through};
ghost use Rattle.rulings.specs.stages.Sweeps.{spot_of, widened_scanline, is_thin, Counted, CountedOn, Recounted};
ghost use Rattle.rulings.specs.stages.Worked.{ruled, thinned, raised, told, before_kept, at_most, counted};

use crate::plane::{Plane, Rulings};
use crate::scanlines::Walk;
use extents::chunk_end;
use memory::fill;

impl<'a> Rulings<'a> {
    // Down every column, some strips of columns at a time: 2 more at each dot that is cut. Answers whether a dot was marked.
    pub fn mark_columns(self, words: &mut [u32]) -> bool
        requires { (self.plane.sweep.across ≡ 1) × (at_most self 2 words.old) × (self.marks ≤ length words.old) }
        ensures { (ruled self.entry 2 0 (self.entry.plane.sweep.outer * self.entry.plane.sweep.inner) words.old words.new) × (told self.entry result words.old words.new) }
    {
        let outer = self.plane.sweep.outer;
        let mut found = false;
        // a walk, not a count: how far strips are walked together tells where the next one starts
        let mut a: usize = 0;
        while a < outer {
            let walk = self.mark_strips(words, a);
            a = walk.to;
            found |= walk.found;
        }
        found
    }

    // The strip from column a on, and those behind it that have a long run as it has: their rows are walked at once, dot after dot.
    // Without a long run no row is walked. Answers where the next strip starts, and whether a dot was marked.
    fn mark_strips(self, words: &mut [u32], a: usize) -> Walk
        requires { (self.plane.sweep.across ≡ 1) × (a < self.plane.sweep.outer) × (at_most self 4 words.old) × (self.marks ≤ length words.old) }
        ensures { (a < result.to) × (result.to ≤ self.entry.plane.sweep.outer) × (raised self.entry a result.to 0 self.entry.plane.sweep.inner words.old words.new) × (told self.entry result.found words.old words.new) }
    {
        let least = self.run_min as usize;
        let b = chunk_end(a, self.plane.sweep.outer);
        if !self.plane.any_long_run(a, b, least) {
            return Walk {
                to: b,
                found: false,
            };
        }
        let end = self.plane.long_end(b, least);
        let found = self.mark_rows(words, a, end);
        Walk { to: end, found }
    }

    // Row by row; the counter of a column is the word of its number. Answers whether a dot was marked, as those below do.
    fn mark_rows(self, words: &mut [u32], a: usize, b: usize) -> bool
        requires { (self.plane.sweep.across ≡ 1) × (a < b) × (b ≤ self.plane.sweep.outer) × (at_most self 4 words.old) × (self.marks ≤ length words.old) }
        ensures { (raised self.entry a b 0 self.entry.plane.sweep.inner words.old words.new) × (told self.entry result words.old words.new) }
    {
        let inner = self.plane.sweep.inner;
        fill(&mut words[a..b], 0);
        let mut found = false;
        for y in 0..inner {
            found |= self.mark_row(words, a, b, y);
        }
        found
    }

    // One row more.
    fn mark_row(self, words: &mut [u32], a: usize, b: usize, y: usize) -> bool
        requires { (self.plane.sweep.across ≡ 1) × (a < b) × (b ≤ self.plane.sweep.outer) × (y < self.plane.sweep.inner) × (at_most self 6 words.old) × (counted self a b y words.old) × (self.marks ≤ length words.old) }
        ensures { (raised self.entry a b y (y + 1) words.old words.new) × (counted self.entry a b (y + 1) words.new) × (told self.entry result words.old words.new) }
    {
        self.plane.count_row(words, a, b, y);
        if any_reached(words, a, b, self.run_min) {
            return self.mark_reached(words, a, b, y);
        }
        false
    }

    // The columns of a row where some counter has reached run_min.
    fn mark_reached(self, words: &mut [u32], a: usize, b: usize, y: usize) -> bool
        requires { (a < b) × (b ≤ self.plane.sweep.outer) × (y < self.plane.sweep.inner) × (at_most self 6 words.old) × (counted self a b (y + 1) words.old) × (self.marks ≤ length words.old) }
        ensures { (raised self.entry a b y (y + 1) words.old words.new) × (before_kept self.entry words.old words.new) × (told self.entry result words.old words.new) }
    {
        let mut found = false;
        for o in a..b {
            found |= self.mark_place(words, o, y);
        }
        found
    }

    // One column in row y: its run is long and goes on, or gets long here, so that all of it is marked, or is not long.
    fn mark_place(self, words: &mut [u32], o: usize, y: usize) -> bool
        requires { (o < self.plane.sweep.outer) × (y < self.plane.sweep.inner) × (at_most self 8 words.old) × (get_or words.old o 0 ≡ behind (widened_scanline self.plane.sweep self.plane.ink.now o) (y + 1)) × (self.marks ≤ length words.old) }
        ensures { (raised self.entry o (o + 1) y (y + 1) words.old words.new) × (before_kept self.entry words.old words.new) × (told self.entry result words.old words.new) }
    {
        let run_min = self.run_min;
        let since = words[o];
        if run_min < since {
            return self.cut_places(words, o, y, y + 1);
        }
        if since == run_min {
            let from = y + 1 - run_min as usize;
            return self.cut_places(words, o, from, y + 1);
        }
        false
    }

    // The thin dots of column o from place `from` up to `to`.
    fn cut_places(self, words: &mut [u32], o: usize, from: usize, to: usize) -> bool
        requires { (o < self.plane.sweep.outer) × (from ≤ to) × (to ≤ self.plane.sweep.inner) × (at_most self 8 words.old) × (self.marks ≤ length words.old) }
        ensures { (thinned self.entry 2 (o * self.entry.plane.sweep.inner + from) (o * self.entry.plane.sweep.inner + to) words.old words.new) × (before_kept self.entry words.old words.new) × (told self.entry result words.old words.new) }
    {
        let mut found = false;
        for i in from..to {
            found |= self.cut_place(words, i, o);
        }
        found
    }

    // One dot, marked where it is ink and thin across.
    fn cut_place(self, words: &mut [u32], i: usize, o: usize) -> bool
        requires { (i < self.plane.sweep.inner) × (o < self.plane.sweep.outer) × (at_most self 10 words.old) × (self.marks ≤ length words.old) }
        ensures { (drop self.entry.marks words.new ≡ cond (is_thin self.entry.plane.sweep self.entry.plane.ink.now self.entry.thick_max i o) (set (drop self.entry.marks words.old) (spot_of self.entry.plane.sweep i o) (get_or (drop self.entry.marks words.old) (spot_of self.entry.plane.sweep i o) 0 + 2)) (drop self.entry.marks words.old)) × (before_kept self.entry words.old words.new) × (told self.entry result words.old words.new) }
    {
        if self.plane.is_thin(i, o, self.thick_max) {
            let at = self.marks + self.plane.sweep.spot(i, o);
            words[at] += 2;
            return true;
        }
        false
    }
}

impl<'a> Plane<'a> {
    // Where the strips from column `from` on end that have a long run each.
    fn long_end(self, from: usize, run_min: usize) -> usize
        requires { (from ≤ self.sweep.outer) × (0 < run_min) × (run_min ≤ 4294967295) }
        ensures { (from ≤ result) × (result ≤ self.entry.sweep.outer) }
    {
        let outer = self.sweep.outer;
        // strip by strip: how long one is stands in extents' chunk_end alone, and a stride would say it again
        let mut b = from;
        while b < outer {
            let next = chunk_end(b, outer);
            if !self.any_long_run(b, next, run_min) {
                return b;
            }
            b = next;
        }
        b
    }

    // Whether a column of the strip has a run of at least run_min.
    fn any_long_run(self, a: usize, b: usize, run_min: usize) -> bool
        requires { (a ≤ b) × (b ≤ self.sweep.outer) × (0 < run_min) × (run_min ≤ 4294967295) }
        ensures { result ≡ false → (o i : ℕ) → a ≤ o → o < b → i < self.entry.sweep.inner → run_through (widened_scanline self.entry.sweep self.entry.ink.now o) self.entry.sweep.inner i < run_min }
    {
        (a..b).any(|o| self.has_long_run(o, run_min))
    }

    // A run of at least run_min from x on covers the place run_min - 1 further, so that few places of most columns are looked at.
    fn has_long_run(self, o: usize, run_min: usize) -> bool
        requires { (o < self.sweep.outer) × (0 < run_min) × (run_min ≤ 4294967295) }
        ensures { result ≡ false → (i : ℕ) → i < self.entry.sweep.inner → run_through (widened_scanline self.entry.sweep self.entry.ink.now o) self.entry.sweep.inner i < run_min }
    {
        let inner = self.sweep.inner;
        // a walk, not a count: the next place is where the scan back ended
        let mut x: usize = 0;
        while x + run_min <= inner {
            let start = self.run_start(o, x, x + run_min);
            if start <= x {
                return true;
            }
            x = start;
        }
        false
    }

    // The counters of a strip in row y; those at its ends may lie at the edge of the plane.
    fn count_row(self, words: &mut [u32], a: usize, b: usize, y: usize)
        requires { (self.sweep.across ≡ 1) × (a < b) × (b ≤ self.sweep.outer) × (y < self.sweep.inner) × (Counted self.sweep self.ink.now a b y words.old) × (b ≤ length words.old) }
        ensures { Recounted self.entry.sweep self.entry.ink.now a b y words.old words.new }
    {
        self.count_end(words, a, y);
        if a + 1 < b {
            self.count_end(words, b - 1, y);
            count_between(self.ink, words, y * self.sweep.along, a + 1, b - 1);
        }
    }

    // One counter in row y.
    fn count_end(self, words: &mut [u32], o: usize, y: usize)
        requires { (o < self.sweep.outer) × (y < self.sweep.inner) × (Counted self.sweep self.ink.now o (o + 1) y words.old) × (o < length words.old) }
        ensures { Recounted self.entry.sweep self.entry.ink.now o (o + 1) y words.old words.new }
    {
        let on = self.is_widened(y, o) as u32;
        words[o] = on * (words[o] + 1);
    }
}

// The counters of columns with a column on either side, in the row at `row`.
fn count_between(ink: &[u8], words: &mut [u32], row: usize, from: usize, to: usize)
    requires { (0 < from) × (from ≤ to) × (row + to < length ink.now) × (to ≤ length words.old) × ((o : ℕ) → from ≤ o → o < to → get_or words.old o 0 < 4294967295) }
    ensures { CountedOn ink.now row from to words.old words.new }
{
    for o in from..to {
        words[o] = count_on(ink[row + o], ink[row + o - 1], ink[row + o + 1], words[o]);
    }
}

// One more where a dot or one beside it is ink, else none; without a branch, so that a row goes many dots at a time.
fn count_on(dot: u8, left: u8, right: u8, since: u32) -> u32
    requires { since < 4294967295 }
    ensures { result ≡ cond (ltb 0 dot || ltb 0 left || ltb 0 right) (since + 1) 0 }
{
    let on = ((0 < dot) | (0 < left) | (0 < right)) as u32;
    on * (since + 1)
}

// Whether a counter has reached run_min; without a branch, so that many are looked at at a time.
fn any_reached(words: &[u32], a: usize, b: usize, run_min: u32) -> bool
    requires { (a ≤ b) × (b ≤ length words.now) }
    ensures { result ≡ false → (o : ℕ) → a ≤ o → o < b → get_or words.now o 0 < run_min }
{
    let mut found = false;
    for since in &words[a..b] {
        found |= run_min <= *since;
    }
    found
}
