// The kind of case that is a whole segmentation.
use crate::kinds::sheet;
use crate::{masks, text};
use params::LayoutParams;

// The most dots of a page.
const MOST_DOTS: usize = 4096;

// The digits before the sheet, those of two words, and before the page, those of 21.
const SHEET_FROM: usize = 32;

const PAGE_FROM: usize = 336;

// Scratch for as many dots and a capacity of 64, and results at the greatest width.
const SCRATCH_WORDS: usize = 17472;

const RESULT_WORDS: usize = 10432;

const FIGURES: usize = 15;

// Segments the page that the digits spell, of as many dots as there are kinds.
fn segment_page(body: &[u8], width: u32, height: u32, ink: &mut [u8], kinds: &mut [u8]) -> bool {
    if body.len() < PAGE_FROM {
        return false;
    }
    masks::read_mask(&body[PAGE_FROM..], ink);
    let p = sheet(&body[SHEET_FROM..]);
    let capacity = text::whole(body, 20);
    let mut scratch = [0u32; SCRATCH_WORDS];
    let mut results = [0u32; RESULT_WORDS];
    let mut figures = [0u32; FIGURES];
    let number = stages::novlizeb_segment_plane(
        ink,
        width,
        height,
        p,
        capacity,
        &mut scratch,
        &mut results,
        kinds,
        &mut figures,
    );
    let words = segmenting::result_words(width as usize, capacity as usize);
    masks::ends_with(
        body,
        &[
            number as u64,
            masks::hash_of(&figures, FIGURES),
            masks::hash_of(&results, words),
            masks::hash(kinds),
        ],
    )
}

// 0C: width, height, the eighteen fields of a sheet, capacity, the page, 64 dots a word; the refusal's number or 0, the hash of
// the figures, of the lists' words and of the plane of kinds, all 0 before the call.
pub fn segment(body: &[u8]) -> bool {
    let width = text::whole(body, 0);
    let height = text::whole(body, 1);
    let n = masks::dots(width, height);
    if n > MOST_DOTS {
        return false;
    }
    if text::count(body) != 25 + (n + 63) / 64 {
        return false;
    }
    let mut ink = [0u8; MOST_DOTS];
    let mut kinds = [0u8; MOST_DOTS];
    segment_page(body, width, height, &mut ink[0..n], &mut kinds[0..n])
}
