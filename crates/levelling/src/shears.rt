// Which skew is applied, and the shear of a table of drifts.
ghost use Rattle.std.specs.Prelude.{◌≡◌, ◌+◌, ◌^◌, ◌≤◌, ◌<◌, length, take};
ghost use Rattle.memory.specs.rules.Lists.{table, greatest};
ghost use Rattle.memory.specs.rules.Words.{over, same_words};
ghost use Rattle.rounding.specs.rules.Drift.{WithinOne};
ghost use Rattle.levelling.specs.rules.Shears as Shears;
ghost use Rattle.levelling.specs.rules.Shears.{drift_of, shear_of};
ghost use Rattle.levelling.specs.stages.Entries.{least_end, LeastOf, entry_of};

use memory::fill;
use params::LayoutParams;

// The entries that are found together: at gentle slopes most steps are level.
const STEP: u32 = 16;

// The row drift of a page column, or the column drift of a frame row.
#[derive(Clone, Copy, Debug, PartialEq, Eq)]
pub enum Drift {
    Row,
    Column,
}

// The shear of some drifts under a slope: each of them minus the least.
#[derive(Clone, Copy, Debug, PartialEq)]
struct Shear {
    which: Drift,
    slope: f64,
    least: i64,
}

// v, the skew or the slope, where the skew is applied: its magnitude is at least the sheet's `shear_min_deg`.
pub fn applied(sheet: LayoutParams, skew: f64, v: f64) -> f64
    ensures { result ≡ Shears.applied sheet skew v }
{
    if sheet.shear_min_deg <= skew.abs() {
        v
    } else {
        0.0
    }
}

// The shear of n drifts over the front of out.
pub fn fill_shear(out: &mut [u32], which: Drift, n: u32, slope: f64)
    requires count { (0 < n) × (n ≤ 2 ^ 15) × (n ≤ length out.old) }
    requires slope { WithinOne slope }
    ensures { out.new ≡ over (shear_of (table (drift_of which slope) n)) out.old }
{
    let shear = Shear::new(which, n, slope);
    for step in 0..n.div_ceil(STEP) {
        let c = step * STEP;
        let m = STEP.min(n - c);
        shear.fill_entries(c, &mut out[c as usize..(c + m) as usize]);
    }
}

// Whether the first n words are the shear of n drifts.
pub fn is_shear(words: &[u32], which: Drift, n: u32, slope: f64) -> bool
    requires count { (0 < n) × (n ≤ 2 ^ 15) × (n ≤ length words.now) }
    requires slope { WithinOne slope }
    ensures { result ≡ same_words (take n words.now) (shear_of (table (drift_of which slope) n)) }
{
    let shear = Shear::new(which, n, slope);
    for c in 0..n {
        if words[c as usize] != shear.entry(c) {
            return false;
        }
    }
    true
}

// The greatest entry of the shear of n drifts: it runs one way, so it is the first or the last.
pub fn greatest_entry(which: Drift, n: u32, slope: f64) -> u32
    requires count { (0 < n) × (n ≤ 2 ^ 15) }
    requires slope { WithinOne slope }
    ensures { result ≡ greatest (shear_of (table (drift_of which slope) n)) }
{
    let shear = Shear::new(which, n, slope);
    shear.entry(0).max(shear.entry(n - 1))
}

impl Shear {
    // That of n drifts: they run one way, so the least is the first or the last.
    fn new(which: Drift, n: u32, slope: f64) -> Shear
        requires { 0 < n }
        ensures { (result.which ≡ which) × (result.slope ≡ slope) × (result.least ≡ least_end (drift_of which slope) n) }
    {
        let least = drift_of(which, 0, slope).min(drift_of(which, n - 1, slope));
        Shear {
            which,
            slope,
            least,
        }
    }

    // Entry i: drift i minus the least.
    fn entry(self, i: u32) -> u32
        requires { LeastOf self.which self.slope (i + 1) self.least }
        ensures { result ≡ entry_of self.which self.slope self.least i }
    {
        (drift_of(self.which, i, self.slope) - self.least) as u32
    }

    // The entries from c on over out. The shear runs one way, so where the first and the last are equal all are.
    fn fill_entries(self, c: u32, out: &mut [u32])
        requires count { (0 < length out.old) × (length out.old ≤ 2 ^ 15) }
        requires least { LeastOf self.which self.slope (c + length out.old) self.least }
        ensures { out.new ≡ table (λ i. entry_of self.which self.slope self.least (c + i)) (length out.old) }
    {
        let first = self.entry(c);
        if first == self.entry(c + (out.len() - 1) as u32) {
            fill(out, first);
            return;
        }
        self.each_entry(c, out);
    }

    // The same one by one.
    fn each_entry(self, c: u32, out: &mut [u32])
        requires count { length out.old ≤ 2 ^ 15 }
        requires least { LeastOf self.which self.slope (c + length out.old) self.least }
        ensures { out.new ≡ table (λ i. entry_of self.which self.slope self.least (c + i)) (length out.old) }
    {
        for (i, x) in out.iter_mut().enumerate() {
            *x = self.entry(c + i as u32);
        }
    }
}

// Drift i: the row drift of page column i, or the column drift of frame row i. In place in each loop over a shear, where which it is and the slope
// are known.
#[inline(always)]
fn drift_of(which: Drift, i: u32, slope: f64) -> i64
    ensures { result ≡ drift_of which slope i }
{
    let steps = match which {
        Drift::Row => i as f64,
        Drift::Column => -(i as f64),
    };
    rounding::round_to_i64(steps * slope)
}
