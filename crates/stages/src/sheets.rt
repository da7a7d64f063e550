// A sheet of parameters with nothing in it: the calls that want a few parameters write those over it.
use params::LayoutParams;

pub const BLANK_SHEET: LayoutParams = LayoutParams {
    glyph_min_area: 0,
    glyph_max_extent_frac: 0.0,
    xheight_min_area: 0,
    xheight_fallback_px: 0.0,
    rule_min_len_xh: 0.0,
    rule_max_thick_xh: 0.0,
    rule_run_xh: 0.0,
    graphic_min_xh: 0.0,
    smear_xh: 0.0,
    line_min_glyphs: 0,
    line_min_height_xh: 0.0,
    line_max_height_xh: 0.0,
    block_min_overlap: 0.0,
    block_gap_margin_lines: 0.0,
    block_max_gap_lines: 0.0,
    column_gap_xh: 0.0,
    column_cover_frac: 0.0,
    shear_min_deg: 0.0,
};
