// What the words of a call name: parts of lent memory, floats, a sheet, a box. Every word is taken, whatever it is.
ghost use Rattle.std.specs.Prelude.{◌≡◌, min};
ghost use Rattle.memory.specs.rules.Words.{word_at};
ghost use Rattle.scripts.specs.rules.Scripts.{number_at, bytes_of, sheet_from, box_from};

use crate::words::{
    BOTTOM, BYTES, BYTES_LENGTH, GLYPH_AREA, LEFT, LINE_GLYPHS, RIGHT, SHEET, TOP, XHEIGHT_AREA,
};
use memory::{Rect, word_at};
use params::LayoutParams;

// The float at k, or NaN past the end.
pub fn float_at(floats: &[f64], k: usize) -> f64
    ensures { result ≡ number_at floats.now k }
{
    if k < floats.len() {
        floats[k]
    } else {
        0.0 / 0.0
    }
}

// As much as the word at k says, or all of n.
pub fn cut(call: &[u32], k: usize, n: usize) -> usize
    ensures { result ≡ min (word_at call.now k) n }
{
    (word_at(call, k) as usize).min(n)
}

// Its bytes, cut to what is there.
pub fn bytes_of<'a, 'b>(call: &'a [u32], bytes: &'b [u8]) -> &'b [u8]
    ensures { result.now ≡ bytes_of call.now bytes.now }
{
    let from = cut(call, BYTES, bytes.len());
    let n = cut(call, BYTES_LENGTH, bytes.len() - from);
    let to = from + n;
    &bytes[from..to]
}

// Its box.
pub fn box_from(call: &[u32]) -> Rect
    ensures { result ≡ box_from call.now }
{
    Rect {
        x0: word_at(call, LEFT),
        y0: word_at(call, TOP),
        x1: word_at(call, RIGHT),
        y1: word_at(call, BOTTOM),
    }
}

// Its sheet: fifteen floats that follow each other, and three words.
pub fn sheet_of(call: &[u32], floats: &[f64]) -> LayoutParams
    ensures { result ≡ sheet_from call.now floats.now }
{
    let at = word_at(call, SHEET) as usize;
    LayoutParams {
        glyph_min_area: word_at(call, GLYPH_AREA),
        glyph_max_extent_frac: float_at(floats, at),
        xheight_min_area: word_at(call, XHEIGHT_AREA),
        xheight_fallback_px: float_at(floats, at + 1),
        rule_min_len_xh: float_at(floats, at + 2),
        rule_max_thick_xh: float_at(floats, at + 3),
        rule_run_xh: float_at(floats, at + 4),
        graphic_min_xh: float_at(floats, at + 5),
        smear_xh: float_at(floats, at + 6),
        line_min_glyphs: word_at(call, LINE_GLYPHS),
        line_min_height_xh: float_at(floats, at + 7),
        line_max_height_xh: float_at(floats, at + 8),
        block_min_overlap: float_at(floats, at + 9),
        block_gap_margin_lines: float_at(floats, at + 10),
        block_max_gap_lines: float_at(floats, at + 11),
        column_gap_xh: float_at(floats, at + 12),
        column_cover_frac: float_at(floats, at + 13),
        shear_min_deg: float_at(floats, at + 14),
    }
}
