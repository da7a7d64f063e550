// A sheet from its eighteen numbers, three at a time: a C name is handed them one by one.
ghost use Rattle.std.specs.Prelude.{◌≡◌};
ghost use Rattle.params.specs.rules.Sheets.{sheet_of};

use params::LayoutParams;

#[derive(Clone, Copy, Debug, PartialEq, Eq)]
pub struct Counts(pub u32, pub u32, pub u32);

#[derive(Clone, Copy, Debug, PartialEq)]
pub struct Lengths(pub f64, pub f64, pub f64);

// The counts, by area of a glyph, area for the x-height, glyphs of a line; then lengths: the greatest extent, the fallback x-height and the
// least graphic; of rules; the smear and the heights of lines; gaps between lines and columns; the least overlap, cover and skew.
pub fn sheet_of(
    counts: Counts,
    sizes: Lengths,
    rules: Lengths,
    lines: Lengths,
    gaps: Lengths,
    least: Lengths,
) -> LayoutParams
    ensures { result ≡ sheet_of counts.0 sizes.0 counts.1 sizes.1 rules.0 rules.1 rules.2 sizes.2 lines.0 counts.2 lines.1 lines.2 least.0 gaps.0 gaps.1 gaps.2 least.1 least.2 }
{
    LayoutParams {
        glyph_min_area: counts.0,
        glyph_max_extent_frac: sizes.0,
        xheight_min_area: counts.1,
        xheight_fallback_px: sizes.1,
        rule_min_len_xh: rules.0,
        rule_max_thick_xh: rules.1,
        rule_run_xh: rules.2,
        graphic_min_xh: sizes.2,
        smear_xh: lines.0,
        line_min_glyphs: counts.2,
        line_min_height_xh: lines.1,
        line_max_height_xh: lines.2,
        block_min_overlap: least.0,
        block_gap_margin_lines: gaps.0,
        block_max_gap_lines: gaps.1,
        column_gap_xh: gaps.2,
        column_cover_frac: least.1,
        shear_min_deg: least.2,
    }
}
