// A span: runs of one component that follow one another in a row. Its dots are absorbed at once, so that a component's record is not read
// and written again for each of them.
ghost use Rattle.std.specs.Prelude.{◌≡◌, true, ℕ, suc, ◌+◌, ◌-◌, ◌*◌, ◌≤◌, ◌<◌, get_or, length, take};
ghost use Rattle.memory.specs.rules.Limits.{max_mask_side};
ghost use Rattle.labelling.specs.stages.Absorbing.{column_sum};
ghost use Rattle.labelling.specs.stages.Spans.{SpanAhead, SpanOf};

// The run after it, the column of its last dot, its dots and the sum of their columns; and up to where the labels are cleared now that
// it is painted.
#[derive(Clone, Copy, Debug, PartialEq, Eq)]
pub struct Span {
    pub next: usize,
    pub last: usize,
    pub dots: usize,
    pub sum: usize,
    pub clear: usize,
}

// The run after it, the column of its last dot and its dots.
#[derive(Clone, Copy, Debug, PartialEq, Eq)]
pub struct Extent {
    pub next: usize,
    pub last: usize,
    pub dots: usize,
}

// How far a sweep over the runs has come: the next run, and how many components it has met.
#[derive(Clone, Copy, Debug, PartialEq, Eq)]
pub struct Reached {
    pub next: usize,
    pub count: usize,
}

// So many runs, in rows of w dots, and their numbers.
#[derive(Clone, Copy, Debug, PartialEq, Eq)]
pub struct NumberedRuns<'a> {
    pub runs: &'a [u32],
    pub numbers: &'a [u32],
    pub c: usize,
    pub w: usize,
}

impl NumberedRuns<'_> {
    // Whether run k is there, has this number and starts before dot `limit`.
    pub fn goes_on(self, k: usize, number: u32, limit: usize) -> bool
        requires { (2 * self.c ≤ length self.runs.now) × (self.c ≤ length self.numbers.now) }
        ensures { result ≡ true → (k < self.entry.c) × (get_or self.entry.numbers.now k 0 ≡ number) × (get_or self.entry.runs.now (2 * k) 0 < limit) }
    {
        k < self.c && self.numbers[k] == number && (self.runs[2 * k] as usize) < limit
    }
}

// The sum of the columns from x to `last`, so many.
pub fn column_sum(x: usize, last: usize, dots: usize) -> usize
    requires { (x ≤ last) × (last < max_mask_side) × (dots ≡ suc (last - x)) }
    ensures { result ≡ column_sum x (suc (last - x)) }
{
    dots * (x + last) / 2
}

// The span that starts with run `first`, one of c, in the row that starts at dot `base`. The words hold the runs and behind them their numbers.
pub fn measure_span(words: &[u32], c: usize, w: usize, base: usize, first: usize) -> Extent
    requires { SpanAhead w c words.now base first }
    ensures { (sum : ℕ) × SpanOf w c (take (2 * c) words.now) first result.next result.last result.dots sum }
{
    let limit = base + w;
    let behind = 2 * c;
    let list = NumberedRuns {
        runs: words,
        numbers: &words[behind..],
        c,
        w,
    };
    let number = words[behind + first];
    let start = words[2 * first] as usize;
    let end = words[2 * first + 1] as usize;
    let mut last = end - base - 1;
    let mut dots = end - start;
    // a walk, not a count: while the runs are of one component
    let mut k = first + 1;
    while list.goes_on(k, number, limit) {
        let from = words[2 * k] as usize;
        let to = words[2 * k + 1] as usize;
        last = to - base - 1;
        dots += to - from;
        k += 1;
    }
    Extent {
        next: k,
        last,
        dots,
    }
}
