// Document 01's limits, each under the name that specs/rules/Limits gives it, and the lengths of lent memory. Every crate takes them from here.
ghost use Rattle.std.specs.Prelude.{◌≡◌, ◌≤◌};
ghost use Rattle.memory.specs.rules.Limits.{max_page_side, max_frame_width, max_frame_height, max_mask_dots, store_words, scratch_words};

pub const MAX_PAGE_SIDE: u32 = 8192;

pub const MAX_FRAME_WIDTH: u32 = 24574;

pub const MAX_FRAME_HEIGHT: u32 = 16383;

pub const MAX_CAPACITY: u32 = 65535;

pub const MAX_LINES: u32 = 4095;

pub const NO_LINE: u32 = 4095;

pub const MAX_MASK_SIDE: u32 = 131072;

pub const MAX_MASK_DOTS: usize = 1073741824;

pub const MAX_EXTENT: u32 = 65534;

pub const COMPONENT_WORDS: usize = 9;

// The words of a store for a page and a frame with these sides.
pub fn store_words(page_w: u32, w: u32, h: u32, capacity: u32) -> usize
    ensures { result ≡ store_words page_w w h capacity }
{
    64 + page_w as usize + h as usize + 2 * (w as usize) + 40 * (capacity as usize)
}

// The words of scratch for so many dots.
pub fn scratch_words(dots: usize, capacity: u32) -> usize
    requires { dots ≤ max_mask_dots }
    ensures { result ≡ scratch_words dots capacity }
{
    4 * dots + 16 * (capacity as usize) + 64
}
