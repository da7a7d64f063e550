// The rows of the show program's input.
ghost use Rattle.std.specs.Prelude.{◌≡◌, ◌+◌, ◌*◌, ◌<◌, ◌≤◌, length};
ghost use Rattle.memory.specs.rules.Words.{over};
ghost use Rattle.judging.specs.rules.Spoiled.{every};
ghost use Rattle.showing.specs.rules.Inputs.{row_digits, row_at, row_good, dot_at, dots_in};

use crate::reading::{digits_at, number_at, power};
use listing::LINE_FEED;

// Where the first row stands: behind the forty digits of line one and their line feed.
pub const ROWS_AT: usize = 41;

// Whether row y is well made.
fn row_good(s: &[u8], w: usize, y: usize) -> bool
    requires { (w ≤ 16) × (row_at w y + row_digits w < length s.now) }
    ensures { result ≡ row_good s.now w y }
{
    let n = (w + 3) / 4;
    let at = ROWS_AT + y * (n + 1);
    let row = number_at(s, at, n);
    let pad = 4 * n - w;
    let padded = row % power(pad) == 0;
    digits_at(s, at, n) & (s[at + n] == LINE_FEED) & padded
}

// Whether all h rows are.
pub fn rows_good(s: &[u8], w: usize, h: usize) -> bool
    requires { (w ≤ 16) × (row_at w h ≤ length s.now) }
    ensures { result ≡ every (row_good s.now w) h }
{
    // `(0..h).all(..)` says as much, and its promise was not proved of it
    for y in 0..h {
        if !row_good(s, w, y) {
            return false;
        }
    }
    true
}

// Dot i of the page.
fn dot_at(s: &[u8], w: usize, h: usize, i: usize) -> u8
    requires { (w ≤ 16) × (i < w * h) × (row_at w h ≤ length s.now) }
    ensures { result ≡ dot_at s.now w i }
{
    let n = (w + 3) / 4;
    let y = i / w;
    let x = i % w;
    let row = number_at(s, ROWS_AT + y * (n + 1), n);
    (row / power(4 * n - 1 - x) % 2) as u8
}

// The dots of the page, row by row, over the front of the mask.
pub fn fill_mask(s: &[u8], w: usize, h: usize, mask: &mut [u8])
    requires { (w ≤ 16) × (row_at w h ≤ length s.now) × (w * h ≤ length mask.old) }
    ensures { mask.new ≡ over (dots_in s.now w h) mask.old }
{
    let n = w * h;
    let page = &mut mask[..n];
    for (i, dot) in page.iter_mut().enumerate() {
        *dot = dot_at(s, w, h, i);
    }
}
