// Levelling, segmenting and clearing, under their C names. The answer is document 01's number of a refusal, or 0.
ghost use Rattle.std.specs.Prelude.{◌≡◌, [], length, drop};
ghost use Rattle.params.specs.rules.Sheets.{sheet_of};
ghost use Rattle.judging.specs.rules.Header.{held, scratch_held};
ghost use Rattle.judging.specs.rules.Leaves.{leaf_of};
ghost use Rattle.store.specs.rules.Outcomes.{left, level_left, segment_left, clear_left};

use crate::sheets::{Counts, Lengths, sheet_of};
use memory::number_of;
use store::Handed;

// Levels a mask into a store and an ink plane.
#[unsafe(no_mangle)]
pub extern "C" fn novlizeb_level(
    mask: &[u8],
    width: u32,
    height: u32,
    skew: f64,
    slope: f64,
    glyph_min_area: u32,
    glyph_max_extent_frac: f64,
    xheight_min_area: u32,
    xheight_fallback_px: f64,
    rule_min_len_xh: f64,
    rule_max_thick_xh: f64,
    rule_run_xh: f64,
    graphic_min_xh: f64,
    smear_xh: f64,
    line_min_glyphs: u32,
    line_min_height_xh: f64,
    line_max_height_xh: f64,
    block_min_overlap: f64,
    block_gap_margin_lines: f64,
    block_max_gap_lines: f64,
    column_gap_xh: f64,
    column_cover_frac: f64,
    shear_min_deg: f64,
    capacity: u32,
    store: &mut [u32],
    ink: &mut [u8],
) -> u32
    ensures { left result store.new ink.new ≡ level_left (leaf_of mask.now width height skew slope (sheet_of glyph_min_area glyph_max_extent_frac xheight_min_area xheight_fallback_px rule_min_len_xh rule_max_thick_xh rule_run_xh graphic_min_xh smear_xh line_min_glyphs line_min_height_xh line_max_height_xh block_min_overlap block_gap_margin_lines block_max_gap_lines column_gap_xh column_cover_frac shear_min_deg) capacity) store.old ink.old }
{
    let counts = Counts(glyph_min_area, xheight_min_area, line_min_glyphs);
    let sizes = Lengths(glyph_max_extent_frac, xheight_fallback_px, graphic_min_xh);
    let rules = Lengths(rule_min_len_xh, rule_max_thick_xh, rule_run_xh);
    let lines = Lengths(smear_xh, line_min_height_xh, line_max_height_xh);
    let gaps = Lengths(block_gap_margin_lines, block_max_gap_lines, column_gap_xh);
    let least = Lengths(block_min_overlap, column_cover_frac, shear_min_deg);
    let sheet = sheet_of(counts, sizes, rules, lines, gaps, least);
    let handed = Handed::new(width, height, skew, slope, capacity);
    number_of(store::level(mask, handed, sheet, store, ink))
}

// Segments what a levelled store and its ink plane hold; scratch is worked in.
#[unsafe(no_mangle)]
pub extern "C" fn novlizeb_segment(
    glyph_min_area: u32,
    glyph_max_extent_frac: f64,
    xheight_min_area: u32,
    xheight_fallback_px: f64,
    rule_min_len_xh: f64,
    rule_max_thick_xh: f64,
    rule_run_xh: f64,
    graphic_min_xh: f64,
    smear_xh: f64,
    line_min_glyphs: u32,
    line_min_height_xh: f64,
    line_max_height_xh: f64,
    block_min_overlap: f64,
    block_gap_margin_lines: f64,
    block_max_gap_lines: f64,
    column_gap_xh: f64,
    column_cover_frac: f64,
    shear_min_deg: f64,
    store: &mut [u32],
    ink: &[u8],
    kinds: &mut [u8],
    scratch: &mut [u32],
) -> u32
    ensures { (left result store.new kinds.new ≡ segment_left (sheet_of glyph_min_area glyph_max_extent_frac xheight_min_area xheight_fallback_px rule_min_len_xh rule_max_thick_xh rule_run_xh graphic_min_xh smear_xh line_min_glyphs line_min_height_xh line_max_height_xh block_min_overlap block_gap_margin_lines block_max_gap_lines column_gap_xh column_cover_frac shear_min_deg) store.old ink.now kinds.old (length scratch.old)) × (length scratch.new ≡ length scratch.old) × (drop (scratch_held (held store.old)) scratch.new ≡ drop (scratch_held (held store.old)) scratch.old) }
{
    let counts = Counts(glyph_min_area, xheight_min_area, line_min_glyphs);
    let sizes = Lengths(glyph_max_extent_frac, xheight_fallback_px, graphic_min_xh);
    let rules = Lengths(rule_min_len_xh, rule_max_thick_xh, rule_run_xh);
    let lines = Lengths(smear_xh, line_min_height_xh, line_max_height_xh);
    let gaps = Lengths(block_gap_margin_lines, block_max_gap_lines, column_gap_xh);
    let least = Lengths(block_min_overlap, column_cover_frac, shear_min_deg);
    let sheet = sheet_of(counts, sizes, rules, lines, gaps, least);
    number_of(store::segment(sheet, store, ink, kinds, scratch))
}

// Empties a store.
#[unsafe(no_mangle)]
pub extern "C" fn novlizeb_clear(store: &mut [u32]) -> u32
    ensures { left result store.new [] ≡ clear_left store.old }
{
    number_of(store::clear(store))
}
