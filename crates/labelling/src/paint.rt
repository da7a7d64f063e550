// Painting: the label of each dot and the record of each component, row by row, from a run list whose runs have their numbers. The labels
// are cleared a little ahead of the runs that are painted, so that memory is written while the records are worked on.
ghost use Rattle.std.specs.Prelude.{◌≡◌, ◌+◌, ◌*◌, ◌≤◌, ◌<◌, length, drop};
ghost use Rattle.memory.specs.rules.Limits.{max_mask_dots};
ghost use Rattle.memory.specs.rules.Words.{over};
ghost use Rattle.labelling.specs.stages.Painting.{numbered, Cleared, RunPainted, Paintable, Painted, SpanPaintable, SpanPainted, RowPaintable, RowPainted};
ghost use Rattle.labelling.specs.stages.Tallying.{Tallyable, records};

use crate::span::{NumberedRuns, Span, column_sum};
use crate::tally::tally_span;

// How many labels past a run are cleared with it: about what waits to be written while the work goes on.
const AHEAD: usize = 128;

// How far painting has come: the next run, how many components it has met, and up to where the labels are cleared.
#[derive(Clone, Copy, Debug, PartialEq, Eq)]
pub struct Progress {
    pub next: usize,
    pub count: usize,
    pub clear: usize,
}

// Clears the labels, cleared up to `clear`, at least up to `end` and not past `limit`; answers up to where.
fn clear_to(labels: &mut [u32], clear: usize, end: usize, limit: usize) -> usize
    requires { (clear ≤ limit) × (end ≤ limit) × (limit ≤ length labels.old) × (limit ≤ max_mask_dots) }
    ensures { Cleared labels.old labels.new clear end limit result }
{
    if end <= clear {
        return clear;
    }
    let to = (end + AHEAD).min(limit);
    labels[clear..to].fill(0);
    to
}

// A run's label on its dots, from `start` up to `end`, in labels that are cleared up to `cleared`; answers up to where they are then. The first
// dot by itself: on a crowded page most runs have no other.
fn paint_run(
    labels: &mut [u32],
    cleared: usize,
    start: usize,
    end: usize,
    limit: usize,
    label: u32,
) -> usize
    requires { (start < end) × (cleared ≤ limit) × (end ≤ limit) × (limit ≤ length labels.old) × (limit ≤ max_mask_dots) }
    ensures { RunPainted labels.old labels.new cleared start end limit label result }
{
    let clear = clear_to(labels, cleared, end, limit);
    labels[start] = label;
    let rest = start + 1;
    labels[rest..end].fill(label);
    clear
}

impl NumberedRuns<'_> {
    // Paints the runs from `first` on that have its number and lie in its row, which starts at dot `base`.
    fn paint_span(self, base: usize, first: usize, cleared: usize, labels: &mut [u32]) -> Span
        requires { (2 * self.c ≤ length self.runs.now) × SpanPaintable self.w self.c (numbered self.c self.runs.now self.numbers.now) labels.old base first cleared }
        ensures { SpanPainted self.entry.w self.entry.c (numbered self.entry.c self.entry.runs.now self.entry.numbers.now) labels.old labels.new (base + self.entry.w) first cleared result.next result.clear result.last result.dots result.sum }
    {
        let limit = base + self.w;
        let number = self.numbers[first];
        let start = self.runs[2 * first] as usize;
        let end = self.runs[2 * first + 1] as usize;
        let mut clear = paint_run(labels, cleared, start, end, limit, number);
        let mut last = end - base - 1;
        let mut dots = end - start;
        let mut sum = column_sum(start - base, last, dots);
        // a walk, not a count: while the runs are of one component
        let mut k = first + 1;
        while self.goes_on(k, number, limit) {
            let from = self.runs[2 * k] as usize;
            let to = self.runs[2 * k + 1] as usize;
            clear = paint_run(labels, clear, from, to, limit, number);
            last = to - base - 1;
            sum += column_sum(from - base, last, to - from);
            dots += to - from;
            k += 1;
        }
        Span {
            next: k,
            last,
            dots,
            sum,
            clear,
        }
    }

    // Paints the runs of row y and writes the records of their components, from where painting has come.
    fn paint_row(
        self,
        y: usize,
        from: Progress,
        labels: &mut [u32],
        components: &mut [u32],
    ) -> Progress
        requires { (2 * self.c ≤ length self.runs.now) × RowPaintable self.w self.c (numbered self.c self.runs.now self.numbers.now) labels.old components.old y from.next from.count from.clear }
        ensures { RowPainted self.entry.w self.entry.c (numbered self.entry.c self.entry.runs.now self.entry.numbers.now) labels.old labels.new components.old components.new y from.next from.count from.clear result.next result.count result.clear }
    {
        let base = y * self.w;
        let limit = base + self.w;
        let mut count = from.count;
        let mut clear = from.clear;
        // a walk, not a count: from span to span
        let mut k = from.next;
        while k < self.c {
            let start = self.runs[2 * k] as usize;
            if limit <= start {
                return Progress {
                    next: k,
                    count,
                    clear,
                };
            }
            let number = self.numbers[k] as usize;
            let span = self.paint_span(base, k, clear, labels);
            clear = span.clear;
            k = span.next;
            count = tally_span(components, number, count, start - base, span, y);
        }
        Progress {
            next: k,
            count,
            clear,
        }
    }
}

// Writes the labels of a plane, w wide and h high, on each of the c runs its number and elsewhere 0, and the components' records. The words
// hold the runs, and their numbers from the word `numbers` on.
pub fn paint_runs(
    words: &[u32],
    numbers: usize,
    c: usize,
    w: usize,
    h: usize,
    labels: &mut [u32],
    components: &mut [u32],
)
    requires { (2 * c ≤ numbers) × (numbers ≤ length words.now) × Paintable (numbered c words.now (drop numbers words.now)) c labels.old (w * h) × Tallyable w c (numbered c words.now (drop numbers words.now)) components.old }
    ensures { Painted (numbered c words.now (drop numbers words.now)) c labels.old labels.new (w * h) × (components.new ≡ over (records w c (numbered c words.now (drop numbers words.now)) c) components.old) }
{
    let dots = w * h;
    let list = NumberedRuns {
        runs: words,
        numbers: &words[numbers..],
        c,
        w,
    };
    let mut reached = Progress {
        next: 0,
        count: 0,
        clear: 0,
    };
    // a walk, not a count: a row is as many runs as it has
    while reached.next < c {
        let y = words[2 * reached.next] as usize / w;
        reached = list.paint_row(y, reached, labels, components);
    }
    labels[reached.clear..dots].fill(0);
}
