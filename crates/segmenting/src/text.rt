// Glyphs and lines of a segmentation, each in its place in the words lent for results.
ghost use Rattle.std.specs.Prelude.{◌≡◌, List, ℕ, ◌+◌, ◌*◌, ◌≤◌, ◌<◌, length};
ghost use Rattle.labelling.specs.declared.component.Component.{Component};
ghost use Rattle.sorting.specs.rules.Units.{unit_value};
ghost use Rattle.sorting.specs.stages.Scratch.{Planned};
ghost use Rattle.smoothing.specs.rules.Lines.{kept_lines};
ghost use Rattle.smoothing.specs.stages.LineWords.{glyphs_of};
ghost use Rattle.segmenting.specs.stages.Places.{Placed};
ghost use Rattle.segmenting.specs.stages.Writing.{LinesHeld, LinesOrdered, line_places, lines_left};

use crate::places::ResultPlaces;
use params::LayoutParams;
use smoothing::{LinePlaces, number_labels, order_lines, write_glyphs, write_lines};
use sorting::{Plan, SortCounts};

// Writes the labels of the lines in their order and the line of each label, where the boxes of the cuts stood; answers how many lines
// there are.
fn order_labels(
    plan: Plan,
    sheet: LayoutParams,
    unit: f64,
    smears: usize,
    words: &mut [u32],
) -> usize
    requires { (cs : List Component) × (ks : List ℕ) × (labels : ℕ → ℕ) × (rs : List Component) × (w h out : ℕ) × (smears ≡ length rs) × LinesHeld sheet unit cs ks labels rs w h (plan.width * plan.height) plan.capacity words.old out × Planned plan }
    ensures { (cs : List Component) (ks : List ℕ) (labels : ℕ → ℕ) (rs : List Component) (w h out : ℕ) → smears ≡ length rs → LinesHeld sheet unit cs ks labels rs w h (plan.width * plan.height) plan.capacity words.old out
        → LinesOrdered sheet unit cs ks labels rs (plan.width * plan.height) plan.capacity words.old words.new result }
{
    let order = plan.horizontal;
    let lines = order_lines(words, plan.smears, plan.glyphs, smears, sheet, unit, order);
    number_labels(words, order, lines, plan.vertical, smears);
    lines
}

// Where writing the lines finds glyphs and lines, and makes the lists of glyphs: behind the order of the lines and behind the line of
// each label.
fn line_places(plan: Plan, component_count: usize, smears: usize) -> LinePlaces
    requires { (plan.vertical + plan.capacity ≤ 9223372036854775807) × (Planned plan) }
    ensures { result ≡ line_places plan.height (plan.width * plan.height) plan.capacity component_count smears }
{
    let h = plan.height as usize;
    LinePlaces {
        order: plan.horizontal,
        smoothed: plan.smears,
        glyphs: plan.glyphs,
        smears,
        sizes: plan.sizes,
        kinds: plan.kinds,
        count: component_count,
        heads: plan.horizontal + plan.capacity,
        nexts: plan.vertical + plan.capacity,
        heights: 0,
        values: h + 1,
    }
}

// Writes the glyphs, each with its line, and the lines, with 0 for the block of each; answers how many glyphs there are.
pub fn write_glyph_lines(
    plan: Plan,
    sheet: LayoutParams,
    found: SortCounts,
    smears: usize,
    places: ResultPlaces,
    words: &mut [u32],
    results: &mut [u32],
) -> usize
    requires { (cs : List Component) × (ks : List ℕ) × (labels : ℕ → ℕ) × (rs : List Component) × (found.component_count ≡ length cs) × (smears ≡ length rs)
        × LinesHeld sheet (unit_value found.unit) cs ks labels rs plan.width plan.height (plan.width * plan.height) plan.capacity words.old (length results.old) × Planned plan × Placed places plan.width plan.capacity }
    ensures { (cs : List Component) (ks : List ℕ) (labels : ℕ → ℕ) (rs : List Component) → found.component_count ≡ length cs → smears ≡ length rs
        → LinesHeld sheet (unit_value found.unit) cs ks labels rs plan.width plan.height (plan.width * plan.height) plan.capacity words.old (length results.old)
        → (result ≡ length (glyphs_of cs ks labels)) × (length words.new ≡ length words.old)
        × (results.new ≡ lines_left plan.width plan.capacity (glyphs_of cs ks labels) (kept_lines sheet (unit_value found.unit) (glyphs_of cs ks labels) rs) results.old) }
{
    let unit = found.unit;
    let lines = order_labels(plan, sheet, unit.value(), smears, words);
    let n = found.component_count;
    let glyphs_at = places.glyphs;
    let glyphs = write_glyphs(
        &words[..],
        plan.sizes,
        plan.kinds,
        n,
        plan.vertical,
        &mut results[glyphs_at..],
    );
    let lines_at = places.lines;
    let own = line_places(plan, n, smears);
    write_lines(words, own, lines, &mut results[lines_at..]);
    glyphs
}
