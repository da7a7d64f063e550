// The show program's input.
ghost use Rattle.std.specs.Prelude.{◌≡◌, ◌≤◌, length};
ghost use Rattle.memory.specs.rules.Words.{over};
ghost use Rattle.showing.specs.rules.Inputs.{rows_at, head_good, sides_good, well_made, parsed, mask_of};
ghost use Rattle.showing.specs.stages.Rooms.{most_dots};

use crate::reading::{digits_at, number_at};
use crate::rows::{ROWS_AT, fill_mask, rows_good};
use listing::LINE_FEED;

// Where the numbers of line one stand, and how many digits they have; its line feed stands behind them.
const WIDTH_AT: usize = 0;

const HEIGHT_AT: usize = 4;

const SIDE_DIGITS: usize = 4;

const SKEW_AT: usize = 8;

const SLOPE_AT: usize = 24;

const FLOAT_DIGITS: usize = 16;

const HEAD_DIGITS: usize = 40;

// The longest side.
const MOST_SIDE: usize = 16;

// What a well made input says: a page's sides, and its skew and slope as f64 bits.
#[derive(Clone, Copy, Debug, PartialEq, Eq)]
pub struct Page {
    pub width: u32,
    pub height: u32,
    pub skew: u64,
    pub slope: u64,
}

// Whether line one is well made.
fn head_good(s: &[u8]) -> bool
    ensures { result ≡ head_good s.now }
{
    if s.len() < ROWS_AT {
        return false;
    }
    digits_at(s, 0, HEAD_DIGITS) & (s[HEAD_DIGITS] == LINE_FEED)
}

// Whether the sides are within their limit, and the bytes as many as they ask.
fn sides_good(s: &[u8]) -> bool
    requires { rows_at ≤ length s.now }
    ensures { result ≡ sides_good s.now }
{
    let w = number_at(s, WIDTH_AT, SIDE_DIGITS) as usize;
    let h = number_at(s, HEIGHT_AT, SIDE_DIGITS) as usize;
    (w <= MOST_SIDE) & (h <= MOST_SIDE) & (s.len() == ROWS_AT + h * ((w + 3) / 4 + 1))
}

// Whether the input is well made.
fn well_made(s: &[u8]) -> bool
    ensures { result ≡ well_made s.now }
{
    if !head_good(s) || !sides_good(s) {
        return false;
    }
    let w = number_at(s, WIDTH_AT, SIDE_DIGITS) as usize;
    let h = number_at(s, HEIGHT_AT, SIDE_DIGITS) as usize;
    rows_good(s, w, h)
}

// What the input says, where it is well made; the dots of its page over the front of the mask.
pub fn parse_page(input: &[u8], mask: &mut [u8]) -> Option<Page>
    requires { most_dots ≤ length mask.old }
    ensures { (result ≡ parsed input.now) × (mask.new ≡ over (mask_of input.now) mask.old) }
{
    if !well_made(input) {
        return None;
    }
    let width = number_at(input, WIDTH_AT, SIDE_DIGITS) as u32;
    let height = number_at(input, HEIGHT_AT, SIDE_DIGITS) as u32;
    let skew = number_at(input, SKEW_AT, FLOAT_DIGITS);
    let slope = number_at(input, SLOPE_AT, FLOAT_DIGITS);
    fill_mask(input, width as usize, height as usize, mask);
    Some(Page {
        width,
        height,
        skew,
        slope,
    })
}
