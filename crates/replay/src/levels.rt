// The kind of case that has a page and a slope: levelling called by itself.
use crate::{masks, text};

// The most dots of a page.
const MOST_DOTS: usize = 2048;

// Room for a frame and for both shears.
const FRAME_BYTES: usize = 49152;

const SHEAR_WORDS: usize = 512;

// Whether the frame of this size, and what was lent for it, are as the last three words have them.
fn is_answered(body: &[u8], size: u64, width: u32, shears: &[u32], plane: &[u8]) -> bool {
    let w = (size % 4294967296) as u32;
    let h = (size / 4294967296) as u32;
    let n = masks::dots(w, h);
    if n > plane.len() {
        return false;
    }
    masks::ends_with(
        body,
        &[
            size,
            masks::hash_of(shears, width as usize + h as usize),
            masks::hash(&plane[0..n]),
        ],
    )
}

// Levels the page that the digits spell, of as many dots as the mask has.
fn level_page(body: &[u8], width: u32, height: u32, slope: f64, mask: &mut [u8]) -> bool {
    let mut shears = [0u32; SHEAR_WORDS];
    let mut plane = [0u8; FRAME_BYTES];
    if body.len() < masks::MASK_FROM {
        return false;
    }
    masks::read_mask(&body[masks::MASK_FROM..], mask);
    let size = stages::novlizeb_plane_size(width, height, slope);
    let done = stages::novlizeb_level_plane(mask, 0, width, height, slope, &mut shears, &mut plane);
    done & is_answered(body, size, width, &shears, &plane)
}

// 0B: width, height, slope, the mask, 64 dots a word; the frame's height x 2^32 + its width, the hash of both shears, the hash of the
// frame's plane.
pub fn level(body: &[u8]) -> bool {
    let width = text::whole(body, 0);
    let height = text::whole(body, 1);
    let n = masks::dots(width, height);
    if n > MOST_DOTS {
        return false;
    }
    if text::count(body) != 6 + (n + 63) / 64 {
        return false;
    }
    let slope = memory::from_bits(text::word(body, 2));
    let mut mask = [0u8; MOST_DOTS];
    level_page(body, width, height, slope, &mut mask[0..n])
}
