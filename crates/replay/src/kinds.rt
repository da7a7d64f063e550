// What each kind of case is, and whether this project answers as the Rust did.
//
// To add a kind: a function, here or in a file of its own, from the digits of the words to a bool, and
// its line in agrees. The words of a kind are said above its function; a part of compare/ writes them.
use crate::{histories, levels, masks, segments, shows, text};
use params::LayoutParams;

// The most values of a sum: what fits a case beside the answer.
const MOST_VALUES: usize = 4096;

// Whether the case of this kind has the Rust's answer. A kind that is not known has not.
pub fn agrees(kind: u64, body: &[u8]) -> bool {
    match kind {
        1 => round(body),
        2 => round_to_u32(body),
        3 => round_to_usize(body),
        4 => round_to_i32(body),
        5 => round_to_i64(body),
        6 => round_output(body),
        7 => pairwise_sum(body),
        8 => validate(body),
        9 => masks::label(body),
        10 => masks::extents(body),
        11 => levels::level(body),
        12 => segments::segment(body),
        13 => histories::history(body),
        14 => shows::show(body),
        15 => masks::full_run(body),
        _ => false,
    }
}

// The float that is the word at i.
fn float(body: &[u8], i: usize) -> f64 {
    memory::from_bits(text::word(body, i))
}

// Whether there are two words, and the second is this one.
fn is_told(body: &[u8], ours: u64) -> bool {
    (text::count(body) == 2) & (ours == text::word(body, 1))
}

// The same of a word that has a sign.
fn is_told_signed(body: &[u8], ours: i64) -> bool {
    (text::count(body) == 2) & (ours == text::signed(text::word(body, 1)))
}

// 01: x, round(x).
fn round(body: &[u8]) -> bool {
    is_told(body, memory::bits_of(rounding::round(float(body, 0))))
}

// 02: x, round(x) as u32.
fn round_to_u32(body: &[u8]) -> bool {
    is_told(body, rounding::round_to_u32(float(body, 0)).into())
}

// 03: x, round(x) as usize.
fn round_to_usize(body: &[u8]) -> bool {
    is_told(body, rounding::round_to_usize(float(body, 0)) as u64)
}

// 04: x, round(x) as i32, at 64 bits.
fn round_to_i32(body: &[u8]) -> bool {
    is_told_signed(body, rounding::round_to_i32(float(body, 0)).into())
}

// 05: x, round(x) as i64.
fn round_to_i64(body: &[u8]) -> bool {
    is_told_signed(body, rounding::round_to_i64(float(body, 0)))
}

// 06: x, round_output(x).
fn round_output(body: &[u8]) -> bool {
    is_told(
        body,
        memory::bits_of(rounding::round_output(float(body, 0))),
    )
}

// The first of the words as floats, as many as there are values.
pub fn read_floats(body: &[u8], values: &mut [f64]) {
    for (i, value) in values.iter_mut().enumerate() {
        *value = float(body, i);
    }
}

// The sum of the first n words as floats, of at most as many as there are values.
fn sum(body: &[u8], n: usize, values: &mut [f64]) -> f64 {
    if n <= values.len() {
        read_floats(body, &mut values[0..n]);
        rounding::pairwise_sum(&values[0..n])
    } else {
        0.0 / 0.0
    }
}

// 07: the values, their pairwise_sum.
fn pairwise_sum(body: &[u8]) -> bool {
    let words = text::count(body);
    if words == 0 {
        return false;
    }
    let n = words - 1;
    let mut values = [0.0f64; MOST_VALUES];
    let ours = memory::bits_of(sum(body, n, &mut values));
    ours == text::word(body, n)
}

// The sheet that the first 18 words are, in the order of its fields.
pub fn sheet(body: &[u8]) -> LayoutParams {
    LayoutParams {
        glyph_min_area: text::whole(body, 0),
        glyph_max_extent_frac: float(body, 1),
        xheight_min_area: text::whole(body, 2),
        xheight_fallback_px: float(body, 3),
        rule_min_len_xh: float(body, 4),
        rule_max_thick_xh: float(body, 5),
        rule_run_xh: float(body, 6),
        graphic_min_xh: float(body, 7),
        smear_xh: float(body, 8),
        line_min_glyphs: text::whole(body, 9),
        line_min_height_xh: float(body, 10),
        line_max_height_xh: float(body, 11),
        block_min_overlap: float(body, 12),
        block_gap_margin_lines: float(body, 13),
        block_max_gap_lines: float(body, 14),
        column_gap_xh: float(body, 15),
        column_cover_frac: float(body, 16),
        shear_min_deg: float(body, 17),
    }
}

// 08: the eighteen fields of a sheet, 1 where it is valid and else 0.
fn validate(body: &[u8]) -> bool {
    let ours = if sheet(body).validate() { 1 } else { 0 };
    (text::count(body) == 19) & (ours == text::word(body, 18))
}
