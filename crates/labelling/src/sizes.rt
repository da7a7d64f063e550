// Labelling a run list in scratch: the number of each run's component, and each component's area and box, five words.
ghost use Rattle.std.specs.Prelude.{◌≡◌, List, ◌++◌, ℕ, ◌≤◌, length, take, drop};
ghost use Rattle.memory.specs.rules.Limits.{max_mask_side, max_mask_dots};
ghost use Rattle.memory.specs.rules.Words.{over};
ghost use Rattle.labelling.specs.stages.Absorbing.{absorbed_span};
ghost use Rattle.labelling.specs.stages.Sizes.{size_words, SizesRoom, SizesLeft};
ghost use Rattle.labelling.specs.stages.Sizing.{size_of, resized, SpanSizable, sizes, Sizable, RowSizable, RowSized, RunsNumberable, RunsNumbered};

use crate::component::Component;
use crate::link::link_runs;
use crate::number::number_runs;
use crate::record::{lower, raise};
use crate::span::{Extent, Reached, measure_span};

// Writes a component's area and box over five words.
fn write_size(words: &mut [u32], c: Component)
    requires { length words.old ≡ 5 }
    ensures { words.new ≡ size_words c }
{
    words[0] = c.area;
    words[1] = c.x0;
    words[2] = c.y0;
    words[3] = c.x1;
    words[4] = c.y1;
}

// The size in five words with the dots of a span of row y more, in its place.
fn widen_size(words: &mut [u32], x: u32, last: u32, dots: u32, y: u32)
    requires { (length words.old ≡ 5) × (dots ≤ max_mask_side) × ((size_of words.old).area ≤ max_mask_dots) }
    ensures { words.new ≡ size_words (absorbed_span (size_of words.old) x last dots 0 y) }
{
    let area = words[0];
    words[0] = area + dots;
    lower(words, 1, x);
    lower(words, 2, y);
    raise(words, 3, last);
    raise(words, 4, y);
}

// The dots of a span absorbed by the size of the component with this number: a new one where `count` have one and this is past them.
// The span lies in row y and starts in column x.
fn size_span(words: &mut [u32], number: usize, count: usize, x: usize, span: Extent, y: usize)
    requires { SpanSizable words.old number count x span.last span.dots y }
    ensures { words.new ≡ resized words.old number count x span.last span.dots y }
{
    let at = (number - 1) * 5;
    let last = span.last as u32;
    let dots = span.dots as u32;
    if count < number {
        let after = Component::none().absorb_span(x as u32, last, dots, 0, y as u32);
        write_size(&mut words[at..at + 5], after);
        return;
    }
    widen_size(&mut words[at..at + 5], x as u32, last, dots, y as u32);
}

// Where sizes are written: c runs have their numbers behind them, in rows of w dots, and the sizes stand from the word `at` on.
#[derive(Clone, Copy, Debug, PartialEq, Eq)]
struct SizeTable {
    c: usize,
    w: usize,
    at: usize,
}

impl SizeTable {
    // Writes the sizes of the components of row y's runs, from where sizing has come.
    fn size_row(self, words: &mut [u32], y: usize, from: Reached) -> Reached
        requires { (h : ℕ) × RowSizable self.w h self.c words.old self.at y from.next from.count }
        ensures { RowSized self.w self.c words.old words.new self.at y from.next from.count result.next result.count }
    {
        let base = y * self.w;
        let limit = base + self.w;
        let mut count = from.count;
        // a walk, not a count: from span to span
        let mut k = from.next;
        while k < self.c {
            let start = words[2 * k] as usize;
            if limit <= start {
                return Reached { next: k, count };
            }
            let number = words[2 * self.c + k] as usize;
            let span = measure_span(words, self.c, self.w, base, k);
            k = span.next;
            size_span(&mut words[self.at..], number, count, start - base, span, y);
            count = count.max(number);
        }
        Reached { next: k, count }
    }

    // Writes the sizes of the components of the runs of a plane, h high.
    fn size_runs(self, words: &mut [u32], h: usize)
        requires { Sizable self.w h self.c words.old self.at }
        ensures { words.new ≡ take self.at words.old ++ over (sizes self.w self.c words.old self.c) (drop self.at words.old) }
    {
        let mut reached = Reached { next: 0, count: 0 };
        for y in 0..h {
            reached = self.size_row(words, y, reached);
        }
    }
}

// Gives each of the c runs the number of its component, behind the runs, and answers how many components there are, or
// capacity + 1 where they are more.
fn number_components(words: &mut [u32], c: usize, w: usize, h: usize, capacity: usize) -> usize
    requires { RunsNumberable w h c capacity words.old }
    ensures { RunsNumbered w c capacity words.old words.new result }
{
    link_runs(words, c, w, h);
    let parents = 2 * c;
    number_runs(&mut words[parents..], c, capacity)
}

// Labels the c runs of a mask, w wide and h high: their numbers stand behind them then, and the sizes of the components from
// `at` on. Answers as above; sizes are written only where there are not more components than the capacity.
pub fn label_sizes(
    words: &mut [u32],
    c: usize,
    w: usize,
    h: usize,
    capacity: usize,
    at: usize,
) -> usize
    requires { (m : List ℕ) × SizesRoom w h m words.old c capacity at }
    ensures { (m : List ℕ) → SizesRoom w h m words.old c capacity at → SizesLeft w h m words.old words.new c capacity at result }
{
    let list = 3 * c;
    let count = number_components(&mut words[0..list], c, w, h, capacity);
    if capacity < count {
        return count;
    }
    SizeTable { c, w, at }.size_runs(words, h);
    count
}
