// An ink plane walked by scanlines. Rows and columns are scanlines of places alike, with a step along the scanline and a step across it.
ghost use Rattle.std.specs.Prelude.{◌≡◌, length};
ghost use Prim.Native.Nat.{◌+◌, ◌-◌, ◌≤◌, ◌<◌, min};
ghost use Rattle.memory.specs.rules.Limits.{max_mask_dots};
ghost use Rattle.extents.specs.rules.Extents.{behind, ahead};
ghost use Rattle.rulings.specs.stages.Sweeps.{sweep_down, sweep_across, spot_of, plane_of, widened_scanline, is_thin, Laid, ScannedBack};

use memory::MAX_EXTENT;

// Place i of scanline o lies at o * across + i * along; there are `outer` scanlines of `inner` places.
#[derive(Clone, Copy, Debug, PartialEq, Eq)]
pub struct Sweep {
    pub along: usize,
    pub across: usize,
    pub inner: usize,
    pub outer: usize,
}

// The ink, and how it is walked: each place has a dot of its own.
#[derive(Clone, Copy, Debug, PartialEq, Eq)]
pub struct Plane<'a> {
    pub ink: &'a [u8],
    pub sweep: Sweep,
    ghost laid: { Laid sweep (length ink.now) },
}

// Thin rulings of a plane: runs of at least run_min, cut where they are at most thick_max thick. The marks start at word `marks`; the
// words before have room for a counter a scanline, and for two words a place.
#[derive(Clone, Copy, Debug, PartialEq, Eq)]
pub struct Rulings<'a> {
    pub plane: Plane<'a>,
    pub run_min: u32,
    pub thick_max: u32,
    pub marks: usize,
    ghost some: { 0 < run_min },
    ghost counters: { plane.sweep.outer ≤ marks },
    ghost cache: { plane.sweep.inner + plane.sweep.inner ≤ marks },
}

impl Sweep {
    // The columns of a plane w wide and h high.
    pub fn down(w: usize, h: usize) -> Sweep
        ensures { result ≡ sweep_down w h }
    {
        Sweep {
            along: w,
            across: 1,
            inner: h,
            outer: w,
        }
    }

    // Its rows.
    pub fn across(w: usize, h: usize) -> Sweep
        ensures { result ≡ sweep_across w h }
    {
        Sweep {
            along: 1,
            across: w,
            inner: w,
            outer: h,
        }
    }

    // Where place i of scanline o lies.
    pub fn spot(self, i: usize, o: usize) -> usize
        requires { spot_of self i o < max_mask_dots }
        ensures { result ≡ spot_of self i o }
    {
        o * self.across + i * self.along
    }
}

impl<'a> Plane<'a> {
    // Ink at place i of scanline o.
    pub fn is_ink(self, i: usize, o: usize) -> bool
        requires { (i < self.sweep.inner) × (o < self.sweep.outer) }
        ensures { result ≡ plane_of self.entry.sweep self.entry.ink.now i o }
    {
        let at = self.sweep.spot(i, o);
        0 < self.ink[at]
    }

    // Ink at place i of scanline o, of the scanline before or of the scanline after.
    pub fn is_widened(self, i: usize, o: usize) -> bool
        requires { (i < self.sweep.inner) × (o < self.sweep.outer) }
        ensures { result ≡ widened_scanline self.entry.sweep self.entry.ink.now o i }
    {
        let before = scanline_before(o);
        let after = scanline_after(o, self.sweep.outer);
        self.is_ink(i, o) | self.is_ink(i, before) | self.is_ink(i, after)
    }

    // The first place, from `from` on, of the widened run that ends before `to`.
    pub fn run_start(self, o: usize, from: usize, to: usize) -> usize
        requires { (o < self.sweep.outer) × (from ≤ to) × (to ≤ self.sweep.inner) }
        ensures { ScannedBack (widened_scanline self.entry.sweep self.entry.ink.now o) from to result }
    {
        for s in (from..to).rev() {
            if !self.is_widened(s, o) {
                return s + 1;
            }
        }
        from
    }

    // How many ink dots in a row end before scanline o at place i, of at most `most`.
    pub fn ink_before(self, i: usize, o: usize, most: usize) -> usize
        requires { (i < self.sweep.inner) × (o < self.sweep.outer) }
        ensures { result ≡ min (behind (plane_of self.entry.sweep self.entry.ink.now i) o) most }
    {
        let end = most.min(o);
        for n in 0..end {
            if !self.is_ink(i, o - 1 - n) {
                return n;
            }
        }
        end
    }

    // How many in a row from scanline o on, of at most `most`.
    pub fn ink_after(self, i: usize, o: usize, most: usize) -> usize
        requires { (i < self.sweep.inner) × (o ≤ self.sweep.outer) }
        ensures { result ≡ min (ahead (plane_of self.entry.sweep self.entry.ink.now i) o (self.entry.sweep.outer - o)) most }
    {
        let end = most.min(self.sweep.outer - o);
        for n in 0..end {
            if !self.is_ink(i, o + n) {
                return n;
            }
        }
        end
    }

    // Whether a dot is ink and its extent across at most thick_max; no more than thick_max dots beside it are looked at.
    pub fn is_thin(self, i: usize, o: usize, thick_max: u32) -> bool
        requires { (i < self.sweep.inner) × (o < self.sweep.outer) }
        ensures { result ≡ is_thin self.entry.sweep self.entry.ink.now thick_max i o }
    {
        if !self.is_ink(i, o) {
            return false;
        }
        if MAX_EXTENT <= thick_max {
            return true;
        }
        let most = thick_max as usize;
        let before = self.ink_before(i, o, most);
        if most <= before {
            return false;
        }
        self.ink_after(i, o + 1, most - before) < most - before
    }
}

// The scanline before, or scanline 0 itself.
fn scanline_before(o: usize) -> usize
    ensures { result ≡ o - 1 }
{
    o.saturating_sub(1)
}

// The scanline after, or the last scanline itself.
fn scanline_after(o: usize, outer: usize) -> usize
    requires { o < outer }
    ensures { (result < outer) × (o + 1 < outer → result ≡ o + 1) × (outer ≤ o + 1 → result ≡ o) }
{
    (o + 1).min(outer - 1)
}
