// The parameter sheet of layout.rs, and the test that each sheet has to pass.
#![tactic(auto)]

ghost use Rattle.std.specs.Prelude.{◌≡◌};
ghost use Rattle.params.specs.rules.Valid.{length_ok, lengths_ok, valid};

// The greatest length.
const TOP: f64 = 1.0e4;

// Lengths ending in `_xh` are in x-heights, in `_lines` in line heights, in `_px` in dots, in `_frac` parts of a whole. It is laid out as
// in C, so that an export can take it by value.
#[repr(C)]
#[derive(Clone, Copy, Debug, PartialEq)]
pub struct LayoutParams {
    pub glyph_min_area: u32,
    pub glyph_max_extent_frac: f64,
    pub xheight_min_area: u32,
    pub xheight_fallback_px: f64,
    pub rule_min_len_xh: f64,
    pub rule_max_thick_xh: f64,
    pub rule_run_xh: f64,
    pub graphic_min_xh: f64,
    pub smear_xh: f64,
    pub line_min_glyphs: u32,
    pub line_min_height_xh: f64,
    pub line_max_height_xh: f64,
    pub block_min_overlap: f64,
    pub block_gap_margin_lines: f64,
    pub block_max_gap_lines: f64,
    pub column_gap_xh: f64,
    pub column_cover_frac: f64,
    pub shear_min_deg: f64,
}

impl LayoutParams {
    // Whether the sheet may be used. All tests are made, in the Rust's order: `&` keeps the code straight.
    pub fn validate(self) -> bool
        ensures { result ≡ valid self }
    {
        self.lengths_ok()
            & ((self.glyph_max_extent_frac > 0.0) & (self.glyph_max_extent_frac <= 1.0))
            & !(self.xheight_fallback_px < 1.0)
            & !((self.block_min_overlap > 1.0) | (self.column_cover_frac >= 1.0))
            & !(self.line_min_height_xh > self.line_max_height_xh)
            & !((self.glyph_min_area == 0) | (self.line_min_glyphs == 0))
    }

    // Whether each of the fifteen floats is finite and from 0 to 10,000.
    fn lengths_ok(self) -> bool
        ensures { result ≡ lengths_ok self }
    {
        length_ok(self.glyph_max_extent_frac)
            & length_ok(self.xheight_fallback_px)
            & length_ok(self.rule_min_len_xh)
            & length_ok(self.rule_max_thick_xh)
            & length_ok(self.rule_run_xh)
            & length_ok(self.graphic_min_xh)
            & length_ok(self.smear_xh)
            & length_ok(self.line_min_height_xh)
            & length_ok(self.line_max_height_xh)
            & length_ok(self.block_min_overlap)
            & length_ok(self.block_gap_margin_lines)
            & length_ok(self.block_max_gap_lines)
            & length_ok(self.column_gap_xh)
            & length_ok(self.column_cover_frac)
            & length_ok(self.shear_min_deg)
    }
}

// Neither infinite nor a NaN, nor below 0, nor above the top.
fn length_ok(v: f64) -> bool
    ensures { result ≡ length_ok v }
{
    !(!((v > -1.0 / 0.0) & (v < 1.0 / 0.0)) | (v < 0.0) | (v > TOP))
}
