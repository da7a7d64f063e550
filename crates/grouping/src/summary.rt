// The summary numbers of a segmentation (`summarize` of layout.rs).
ghost use Rattle.std.specs.Prelude.{◌≡◌, ℕ, ◌+◌, ◌*◌, ◌≤◌, ◌<◌, length, get_or};
ghost use Rattle.sorting.specs.rules.Units.{median};
ghost use Rattle.grouping.specs.rules.Readings.{text_share, summarized};
ghost use Rattle.smoothing.specs.rules.LineRecords.{line_words};
ghost use Rattle.memory.specs.rules.Records.{fields};

use crate::counts::count_field;
use sorting::median_of_counts;

// The twelve numbers, in the order in which the Rust puts them.
#[derive(Clone, Copy, Debug, PartialEq)]
pub struct Summary {
    pub xheight_px: f64,
    pub skew_deg_applied: f64,
    pub glyphs: f64,
    pub lines: f64,
    pub blocks: f64,
    pub columns: f64,
    pub rules: f64,
    pub graphics: f64,
    pub glyph_ink_fraction: f64,
    pub text_share_of_ink: f64,
    pub median_line_pitch_xh: f64,
    pub median_glyph_height_xh: f64,
}

// What a segmentation has counted: the entries of its lists, the glyph dots, and the ink before the cut.
#[derive(Clone, Copy, Debug, PartialEq, Eq)]
pub struct Totals {
    pub glyphs: u32,
    pub lines: u32,
    pub blocks: u32,
    pub columns: u32,
    pub rules: u32,
    pub graphics: u32,
    pub glyph_ink: u32,
    pub ink: u32,
}

// The summary of a frame w wide and h high, from its unit, its applied skew, what was counted, the median pitch of its lines and
// their median glyph height.
pub fn summarize(
    xheight: f64,
    skew: f64,
    w: u32,
    h: u32,
    totals: Totals,
    pitch: u32,
    glyph_height: u32,
) -> Summary
    requires { w * h ≤ 4294967295 }
    ensures { result ≡ summarized xheight skew w h totals pitch glyph_height }
{
    let dots = w * h;
    let glyph_ink = totals.glyph_ink as f64;
    Summary {
        xheight_px: xheight,
        skew_deg_applied: skew,
        glyphs: totals.glyphs as f64,
        lines: totals.lines as f64,
        blocks: totals.blocks as f64,
        columns: totals.columns as f64,
        rules: totals.rules as f64,
        graphics: totals.graphics as f64,
        glyph_ink_fraction: glyph_ink / (dots as f64),
        text_share_of_ink: text_share(totals.glyph_ink, totals.ink),
        median_line_pitch_xh: (pitch as f64) / 2.0 / xheight,
        median_glyph_height_xh: (glyph_height as f64) / xheight,
    }
}

// The glyph dots as a part of the ink, 0 without any.
fn text_share(glyph_ink: u32, ink: u32) -> f64
    ensures { result ≡ text_share glyph_ink ink }
{
    if ink == 0 {
        return 0.0;
    }
    (glyph_ink as f64) / (ink as f64)
}

// The median glyph height of the n lines, each at most h.
pub fn median_glyph_height(lines: &[u32], n: usize, h: u32, table: &mut [u32]) -> u32
    requires { (n * line_words ≤ length lines.now) × (n ≤ 4294967295) × (h < 4294967295) × (h + 1 ≤ length table.old) × ((i : ℕ) → i < n → get_or lines.now (i * line_words + 6) 0 ≤ h) }
    ensures { result ≡ median (fields line_words 6 lines.now n) }
{
    let values = (h as usize) + 1;
    count_field(lines, n, 6, table, values);
    median_of_counts(&table[..values], n as u32)
}
