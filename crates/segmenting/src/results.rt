// The results of a segmentation, written from what scratch holds: the figures and all lists.
ghost use Rattle.std.specs.Prelude.{◌≡◌, List, ℕ, ◌+◌, ◌*◌, ◌≤◌, length};
ghost use Rattle.sorting.specs.stages.Scratch.{Planned};
ghost use Rattle.segmenting.specs.rules.Layouts.{layout};
ghost use Rattle.segmenting.specs.stages.Held.{held_area};
ghost use Rattle.segmenting.specs.rules.Results.{results_left};
ghost use Rattle.segmenting.specs.rules.Figures.{figures_of};
ghost use Rattle.segmenting.specs.stages.Writing.{counted_figures, ResultsRoom};

use crate::boxes::area_of_kind;
use crate::groups::{GroupCounts, write_groups};
use crate::lists::{BoxCounts, write_box_lists};
use crate::places::result_places;
use crate::text::write_glyph_lines;
use params::LayoutParams;
use smoothing::Smears;
use sorting::{GLYPH, GRAPHIC, Plan, RULE, SPECK, SortCounts, Unit};

// What is told of a segmentation besides its lists: the unit, how long each list is, the dots of ink and of each kind.
#[derive(Clone, Copy, Debug, PartialEq)]
pub struct Segmentation {
    pub unit: Unit,
    pub rules: u32,
    pub graphics: u32,
    pub glyphs: u32,
    pub lines: u32,
    pub blocks: u32,
    pub columns: u32,
    pub ink: u32,
    pub cut: u32,
    pub rule: u32,
    pub graphic: u32,
    pub glyph: u32,
    pub speck: u32,
}

// The dots of each kind.
#[derive(Clone, Copy, Debug, PartialEq, Eq)]
pub struct KindDots {
    pub cut: u32,
    pub rule: u32,
    pub graphic: u32,
    pub glyph: u32,
    pub speck: u32,
}

// Counts the dots of each kind by the areas of the components; what is left of the ink is cut.
fn count_kinds(words: &[u32], sizes: usize, kinds: usize, count: usize, ink: u32) -> KindDots
    requires { (sizes + 5 * count ≤ length words.now) × (kinds + count ≤ length words.now)
        × (held_area words.now sizes kinds 2 count + (held_area words.now sizes kinds 3 count + (held_area words.now sizes kinds 4 count + held_area words.now sizes kinds 5 count)) ≤ ink) }
    ensures { (result.rule ≡ held_area words.now sizes kinds 2 count) × (result.graphic ≡ held_area words.now sizes kinds 3 count)
        × (result.glyph ≡ held_area words.now sizes kinds 4 count) × (result.speck ≡ held_area words.now sizes kinds 5 count)
        × (result.cut + (result.rule + (result.graphic + (result.glyph + result.speck))) ≡ ink) }
{
    let rule = area_of_kind(words, sizes, kinds, count, RULE);
    let graphic = area_of_kind(words, sizes, kinds, count, GRAPHIC);
    let glyph = area_of_kind(words, sizes, kinds, count, GLYPH);
    let speck = area_of_kind(words, sizes, kinds, count, SPECK);
    let cut = ink - rule - graphic - glyph - speck;
    KindDots {
        cut,
        rule,
        graphic,
        glyph,
        speck,
    }
}

// The figures of a segmentation, from what its stages counted.
fn figures(
    unit: Unit,
    ink: u32,
    dots: KindDots,
    boxes: BoxCounts,
    glyphs: usize,
    lines: usize,
    groups: GroupCounts,
) -> Segmentation
    requires { (boxes.rules ≤ 4294967295) × (boxes.graphics ≤ 4294967295) × (glyphs ≤ 4294967295) × (lines ≤ 4294967295) × (groups.blocks ≤ 4294967295) × (groups.columns ≤ 4294967295) }
    ensures { result ≡ counted_figures unit ink dots boxes glyphs lines groups }
{
    Segmentation {
        unit,
        rules: boxes.rules as u32,
        graphics: boxes.graphics as u32,
        glyphs: glyphs as u32,
        lines: lines as u32,
        blocks: groups.blocks as u32,
        columns: groups.columns as u32,
        ink,
        cut: dots.cut,
        rule: dots.rule,
        graphic: dots.graphic,
        glyph: dots.glyph,
        speck: dots.speck,
    }
}

// Writes all lists of a page that scratch holds, and tells its figures.
pub fn write_results(
    plan: Plan,
    sheet: LayoutParams,
    found: SortCounts,
    smears: Smears,
    words: &mut [u32],
    results: &mut [u32],
) -> Segmentation
    requires { (m : List ℕ) × ResultsRoom sheet plan.width plan.height m plan.capacity words.old found smears (length results.old) × Planned plan }
    ensures { (m : List ℕ) → ResultsRoom sheet plan.width plan.height m plan.capacity words.old found smears (length results.old)
        → (result ≡ figures_of (layout sheet plan.width plan.height m))
        × (results.new ≡ results_left plan.width plan.capacity (layout sheet plan.width plan.height m) results.old) }
{
    let n = found.component_count;
    let total = found.ink;
    let places = result_places(plan.width as usize, plan.capacity);
    let areas = count_kinds(&words[..], plan.sizes, plan.kinds, n, total);
    let boxes = write_box_lists(&words[..], plan, found, places, results);
    let glyphs = write_glyph_lines(plan, sheet, found, smears.smears, places, words, results);
    let unit = found.unit;
    let x = unit.value();
    let groups = write_groups(plan, sheet, x, smears.lines, places, words, results);
    figures(unit, total, areas, boxes, glyphs, smears.lines, groups)
}
