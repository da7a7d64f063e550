// Components by their sizes in scratch, five words each: the unit, the kinds, the packed boxes and the count of ink dots.
ghost use Rattle.std.specs.Prelude.{◌≡◌, List, cond, ℕ, ◌+◌, ◌*◌, ◌≤◌, ◌<◌, length, get_or, set};
ghost use Rattle.memory.specs.rules.Lists.{table, total};
ghost use Rattle.memory.specs.rules.Rects.{height};
ghost use Rattle.labelling.specs.rules.Components.{box_of};
ghost use Rattle.labelling.specs.declared.component.Component.{Component};
ghost use Rattle.sorting.specs.rules.Units.{unit_of, unit_from, unit_value, measurable};
ghost use Rattle.sorting.specs.rules.Kinds.{kind_of};
ghost use Rattle.sorting.specs.stages.Counts.{CountsOf};
ghost use Rattle.memory.specs.stages.Boxes.{Inside};
ghost use Rattle.memory.specs.stages.Stored.{Within, Stored};
ghost use Rattle.sorting.specs.stages.Measures.{sized_at, sized_from, size_box, SizesInside, HeightsCounted, box_word, unpacked};

use crate::Unit;
use crate::kinds::{is_measurable, kind_of};
use crate::median::median_of_counts;
use crate::plan::Plan;
use labelling::Component;
use memory::{Rect, box_at, fill};
use params::LayoutParams;

// The words of a component's size.
pub const SIZE_WORDS: usize = 5;

// The columns or rows of a box in one word: no side of a frame reaches this.
const SIDE: u32 = 32768;

// The k-th component whose sizes stand from word `at` on; its sums are left out.
pub fn component_at(words: &[u32], at: usize, k: usize) -> Component
    requires { at + 5 * k + 5 ≤ length words.now }
    ensures { result ≡ sized_at words.now at k }
{
    let i = at + SIZE_WORDS * k;
    Component {
        area: words[i],
        x0: words[i + 1],
        y0: words[i + 2],
        x1: words[i + 3],
        y1: words[i + 4],
        sum_x: 0,
        sum_y: 0,
    }
}

// Its box alone.
pub fn size_box(words: &[u32], at: usize, k: usize) -> Rect
    requires { at + 5 * k + 5 ≤ length words.now }
    ensures { result ≡ size_box words.now at k }
{
    box_at(words, at + SIZE_WORDS * k + 1)
}

// The unit that the components give, with counts by height in the h + 1 words from `heights` on.
pub fn measure_unit(
    words: &mut [u32],
    sizes: usize,
    count: usize,
    heights: usize,
    sheet: LayoutParams,
    w: u32,
    h: u32,
) -> Unit
    requires { (SizesInside w h words.old sizes count) × (heights + h + 1 ≤ sizes) × (count ≤ 4294967295) × (h < 4294967295) }
    ensures { (result ≡ unit_of sheet w h (sized_from words.old sizes count)) × (Within heights (heights + h + 1) words.old words.new) }
{
    let rows = h as usize + 1;
    fill(&mut words[heights..heights + rows], 0);
    let counts = Heights {
        at: heights,
        sheet,
        w,
        h,
    };
    let n = counts.count_all(words, sizes, count);
    unit_from(&words[heights..heights + rows], n, sheet)
}

// Counts by height from word `at` on, for a frame w wide and h high: how many components of each height count for the unit.
#[derive(Clone, Copy, Debug, PartialEq)]
struct Heights {
    at: usize,
    sheet: LayoutParams,
    w: u32,
    h: u32,
}

impl Heights {
    // Counts the heights that count for the unit, and answers how many there are.
    fn count_all(self, words: &mut [u32], sizes: usize, count: usize) -> u32
        requires { (SizesInside self.w self.h words.old sizes count) × (self.at + self.h + 1 ≤ sizes) × (count ≤ 4294967295) × (self.h < 4294967295) × (self.w ≤ 4294967295) × ((v : ℕ) → v ≤ self.h → get_or words.old (self.at + v) 0 ≡ 0) }
        ensures { HeightsCounted self.sheet self.w self.h sizes self.at count result words.old words.new }
    {
        let mut n: u32 = 0;
        for k in 0..count {
            let c = component_at(words, sizes, k);
            n += self.count_one(words, c);
        }
        n
    }

    // Counts the height of one component, where it counts; answers 1, or 0 where it does not.
    fn count_one(self, words: &mut [u32], c: Component) -> u32
        requires { (Inside self.w self.h (box_of c)) × (self.at + self.h + 1 ≤ length words.old) × (self.h < 4294967295) × (get_or words.old (self.at + height (box_of c)) 0 < 4294967295) }
        ensures { (result ≡ cond (measurable self.sheet self.w self.h c) 1 0) × (words.new ≡ set words.old (self.at + height (box_of c)) (get_or words.old (self.at + height (box_of c)) 0 + result)) }
    {
        let one = is_measurable(self.sheet, self.w, self.h, c) as u32;
        let at = self.at + c.rect().height() as usize;
        words[at] += one;
        one
    }
}

// The unit by counts of n heights.
fn unit_from(counts: &[u32], n: u32, sheet: LayoutParams) -> Unit
    requires { length counts.now ≤ 4294967295 }
    ensures { (l : List ℕ) → CountsOf counts.now n l → result ≡ unit_from sheet l }
{
    if n == 0 {
        return Unit::Assumed(sheet.xheight_fallback_px);
    }
    Unit::Measured(median_of_counts(counts, n) as f64)
}

// The kind of each of so many components, a word each.
pub fn write_kinds(words: &mut [u32], plan: Plan, count: usize, sheet: LayoutParams, unit: Unit)
    requires { (SizesInside plan.width plan.height words.old plan.sizes count) × (plan.sizes + 5 * count ≤ plan.kinds) × (plan.kinds + count ≤ length words.old) }
    ensures { Stored (λ k. kind_of sheet (unit_value unit) plan.width plan.height (sized_at words.old plan.sizes k)) plan.kinds count words.old words.new }
{
    let kinds = plan.kinds;
    for k in 0..count {
        let c = component_at(words, plan.sizes, k);
        words[kinds + k] = kind_of(sheet, unit, plan.width, plan.height, c);
    }
}

// The box of each component, two words each from `to` on.
pub fn pack_boxes(words: &mut [u32], sizes: usize, count: usize, to: usize)
    requires { (SizesInside 32768 32768 words.old sizes count) × (to + 2 * count ≤ sizes) }
    ensures { Stored (box_word words.old sizes) to (2 * count) words.old words.new }
{
    for k in 0..count {
        let c = component_at(words, sizes, k);
        let at = to + 2 * k;
        words[at] = c.x0 + SIDE * c.x1;
        words[at + 1] = c.y0 + SIDE * c.y1;
    }
}

// The box that the two words at `at` hold.
pub fn packed_box(words: &[u32], at: usize) -> Rect
    requires { at + 2 ≤ length words.now }
    ensures { result ≡ unpacked (get_or words.now at 0) (get_or words.now (at + 1) 0) }
{
    let columns = words[at];
    let rows = words[at + 1];
    Rect {
        x0: columns % SIDE,
        y0: rows % SIDE,
        x1: columns / SIDE,
        y1: rows / SIDE,
    }
}

// The areas of the components, added up.
pub fn total_area(words: &[u32], sizes: usize, count: usize) -> u32
    requires { (sizes + 5 * count ≤ length words.now) × (total (table (λ k. (sized_at words.now sizes k).area) count) ≤ 4294967295) }
    ensures { result ≡ total (table (λ k. (sized_at words.now sizes k).area) count) }
{
    let mut sum: u32 = 0;
    for k in 0..count {
        sum += words[sizes + SIZE_WORDS * k];
    }
    sum
}
