// Thin rulings: the dots of long thin runs along rows and columns (layout.rs, thin_ruling_pixels). Rows and columns are scanlines of
// places alike, with a step along the scanline and a step across it. Here scanlines are walked one by one; the columns are in columns.rt.
// A run of at least the least length from a place covers the place that far on, so each step probes there and scans back. A
// run across is looked at as far as tells whether it is thin, and that is kept.
ghost use Rattle.std.specs.Prelude.{◌≡◌, cond, true, leb, length, get_or, set, drop};
ghost use Prim.Native.Nat.{◌+◌, ◌*◌, ◌≤◌, ◌<◌};
ghost use Rattle.extents.specs.rules.Extents.{extent};
ghost use Rattle.rulings.specs.stages.Marks.{RulingsMarked};
ghost use Rattle.extents.specs.stages.Scans.{ScannedTo, Starts};
ghost use Rattle.rulings.specs.stages.Sweeps.{RulingsRoom, spot_of, plane_of, widened_scanline, is_thin, Cached};
ghost use Rattle.rulings.specs.stages.Worked.{ruled, thinned, walked, told, unmarked, kept};

use crate::plane::{Plane, Rulings, Sweep};
use extents::capped;
use memory::{area, fill};

// How far a walk came, and whether it marked a dot.
#[derive(Clone, Copy, Debug, PartialEq, Eq)]
pub struct Walk {
    pub to: usize,
    pub found: bool,
}

// Whether a dot of each kind is cut: told false, none is.
#[derive(Clone, Copy, Debug, PartialEq, Eq)]
pub struct Found {
    pub horizontal: bool,
    pub vertical: bool,
}

// The two cut masks from the ink, a word a dot from word `marks` on: 1 in the horizontal mask, 2 in the vertical one, 3 in both. The
// words before are worked in.
pub fn mark_rulings(
    ink: &[u8],
    width: u32,
    height: u32,
    run_min: u32,
    thick_max: u32,
    words: &mut [u32],
    marks: usize,
) -> Found
    requires { (RulingsRoom width height (length ink.now) marks (length words.old)) × (2 ≤ run_min) }
    ensures { RulingsMarked run_min thick_max width height ink.now marks words.old words.new result }
{
    let w = width as usize;
    let h = height as usize;
    let end = marks + area(width, height);
    fill(&mut words[marks..end], 0);
    let columns = Rulings {
        plane: Plane {
            ink,
            sweep: Sweep::down(w, h),
        },
        run_min,
        thick_max,
        marks,
    };
    let vertical = columns.mark_columns(words);
    let rows = Rulings {
        plane: Plane {
            ink,
            sweep: Sweep::across(w, h),
        },
        run_min,
        thick_max,
        marks,
    };
    let horizontal = rows.mark_scanlines(words);
    Found {
        horizontal,
        vertical,
    }
}

impl<'a> Rulings<'a> {
    // Along every scanline: 1 more at each dot that is cut. Answers whether a dot was marked, as those below do.
    fn mark_scanlines(self, words: &mut [u32]) -> bool
        requires { (unmarked self 0 words.old) × (self.marks ≤ length words.old) }
        ensures { (ruled self.entry 1 0 (self.entry.plane.sweep.outer * self.entry.plane.sweep.inner) words.old words.new) × (told self.entry result words.old words.new) }
    {
        let inner = self.plane.sweep.inner;
        let outer = self.plane.sweep.outer;
        fill(&mut words[0..inner], 0);
        let mut found = false;
        for o in 0..outer {
            found |= self.mark_scanline(words, o);
        }
        found
    }

    // Along one scanline: each step goes on to a place that no run reaches over.
    fn mark_scanline(self, words: &mut [u32], o: usize) -> bool
        requires { (o < self.plane.sweep.outer) × (unmarked self (o * self.plane.sweep.inner) words.old) × (kept self o words.old) × (self.marks ≤ length words.old) }
        ensures { (ruled self.entry 1 (o * self.entry.plane.sweep.inner) (o * self.entry.plane.sweep.inner + self.entry.plane.sweep.inner) words.old words.new) × (kept self.entry o words.new) × (told self.entry result words.old words.new) }
    {
        let inner = self.plane.sweep.inner;
        let run_min = self.run_min as usize;
        let mut found = false;
        // a walk, not a count: a step tells how far it came
        let mut x: usize = 0;
        while x + run_min <= inner {
            let walk = self.mark_from(words, o, x);
            x = walk.to;
            found |= walk.found;
        }
        found
    }

    // One step: a run of at least run_min from x on covers the place run_min - 1 further, so the walk starts there, backwards.
    fn mark_from(self, words: &mut [u32], o: usize, x: usize) -> Walk
        requires { (o < self.plane.sweep.outer) × (x + self.run_min ≤ self.plane.sweep.inner) × (Starts (widened_scanline self.plane.sweep self.plane.ink.now o) x) × (unmarked self (o * self.plane.sweep.inner + x) words.old) × (kept self o words.old) × (self.marks ≤ length words.old) }
        ensures { (walked self.entry o x result.to words.old words.new) × (kept self.entry o words.new) × (told self.entry result.found words.old words.new) }
    {
        let probe = x + self.run_min as usize;
        let start = self.plane.run_start(o, x, probe);
        if x < start {
            return Walk {
                to: start,
                found: false,
            };
        }
        let found = self.cut_run(words, o, x, probe);
        let walk = self.cut_on(words, o, probe);
        Walk {
            to: walk.to,
            found: found | walk.found,
        }
    }

    // The thin dots of a run, from place `from` up to `to`.
    fn cut_run(self, words: &mut [u32], o: usize, from: usize, to: usize) -> bool
        requires { (o < self.plane.sweep.outer) × (from ≤ to) × (to ≤ self.plane.sweep.inner) × (unmarked self (o * self.plane.sweep.inner + from) words.old) × (kept self o words.old) × (self.marks ≤ length words.old) }
        ensures { (thinned self.entry 1 (o * self.entry.plane.sweep.inner + from) (o * self.entry.plane.sweep.inner + to) words.old words.new) × (kept self.entry o words.new) × (told self.entry result words.old words.new) }
    {
        let mut found = false;
        for i in from..to {
            found |= self.cut_dot(words, i, o);
        }
        found
    }

    // The thin dots of the run that goes on at `from`, up to its end, which is told: each place is looked at once.
    fn cut_on(self, words: &mut [u32], o: usize, from: usize) -> Walk
        requires { (o < self.plane.sweep.outer) × (from ≤ self.plane.sweep.inner) × (unmarked self (o * self.plane.sweep.inner + from) words.old) × (kept self o words.old) × (self.marks ≤ length words.old) }
        ensures { (ScannedTo (widened_scanline self.entry.plane.sweep self.entry.plane.ink.now o) true from self.entry.plane.sweep.inner result.to) × (thinned self.entry 1 (o * self.entry.plane.sweep.inner + from) (o * self.entry.plane.sweep.inner + result.to) words.old words.new) × (kept self.entry o words.new) × (told self.entry result.found words.old words.new) }
    {
        let inner = self.plane.sweep.inner;
        let mut found = false;
        for i in from..inner {
            if !self.plane.is_widened(i, o) {
                return Walk { to: i, found };
            }
            found |= self.cut_dot(words, i, o);
        }
        Walk { to: inner, found }
    }

    // One dot, marked where it is ink and thin across.
    // No twin of columns' cut_place: here the extent across is kept in the words before the marks, which change; there they stay.
    fn cut_dot(self, words: &mut [u32], i: usize, o: usize) -> bool
        requires { (i < self.plane.sweep.inner) × (o < self.plane.sweep.outer) × (length self.plane.ink.now ≤ length (drop self.marks words.old)) × (get_or (drop self.marks words.old) (spot_of self.plane.sweep i o) 0 ≤ 2) × (kept self o words.old) × (self.marks ≤ length words.old) }
        ensures { (drop self.entry.marks words.new ≡ cond (is_thin self.entry.plane.sweep self.entry.plane.ink.now self.entry.thick_max i o) (set (drop self.entry.marks words.old) (spot_of self.entry.plane.sweep i o) (get_or (drop self.entry.marks words.old) (spot_of self.entry.plane.sweep i o) 0 + 1)) (drop self.entry.marks words.old)) × (kept self.entry o words.new) × (told self.entry result words.old words.new) }
    {
        let marks = self.marks;
        if self.plane.is_ink(i, o) {
            let thickness = self
                .plane
                .extent_across(&mut words[0..marks], i, o, self.thick_max);
            if thickness <= self.thick_max {
                let at = marks + self.plane.sweep.spot(i, o);
                words[at] += 1;
                return true;
            }
        }
        false
    }
}

impl<'a> Plane<'a> {
    // The extent of an ink dot across its scanline, where it is at most thick_max, else more than thick_max. No more than thick_max dots on
    // either side are looked at; how far they go on and the extent are kept by place, for the scanlines that follow.
    fn extent_across(self, cache: &mut [u32], i: usize, o: usize, thick_max: u32) -> u32
        requires { (i < self.sweep.inner) × (o < self.sweep.outer) × (plane_of self.sweep self.ink.now i o ≡ true) × (Cached self.sweep self.ink.now thick_max o cache.old) }
        ensures { (leb result thick_max ≡ leb (extent (plane_of self.entry.sweep self.entry.ink.now i) self.entry.sweep.outer o) thick_max) × (Cached self.entry.sweep self.entry.ink.now thick_max o cache.new) }
    {
        let inner = self.sweep.inner;
        let kept = cache[i] as usize;
        if o < kept {
            return cache[inner + i];
        }
        let most = thick_max as usize;
        let before = self.ink_before(i, o, most);
        let after = self.ink_after(i, o + 1, most);
        let thickness = capped(before + 1 + after);
        cache[i] = (o + 1 + after) as u32;
        cache[inner + i] = thickness;
        thickness
    }
}
