// The places of the header's words (specs/rules/Header).
pub const STATE: usize = 0;

pub const PAGE_WIDTH: usize = 1;

pub const PAGE_HEIGHT: usize = 2;

pub const FRAME_WIDTH: usize = 3;

pub const FRAME_HEIGHT: usize = 4;

pub const CAPACITY: usize = 5;

pub const SKEW: usize = 6;

pub const SLOPE: usize = 8;

pub const FIGURES: usize = 10;

pub const UNIT: usize = 11;

pub const RULES: usize = 13;

pub const GRAPHICS: usize = 14;

pub const GLYPHS: usize = 15;

pub const LINES: usize = 16;

pub const BLOCKS: usize = 17;

pub const COLUMNS: usize = 18;

pub const INK_DOTS: usize = 19;

pub const GLYPH_DOTS: usize = 23;

pub const FIGURES_END: usize = 25;

pub const HEADER: usize = 64;

// How many words the figures take.
pub const FIGURES_LENGTH: usize = 15;

// Words of a record: a glyph's line, a line's glyph height and block, a block's count of lines.
pub const GLYPH_LINE: usize = 5;

pub const GLYPH_HEIGHT: usize = 6;

pub const LINE_BLOCK: usize = 7;

pub const BLOCK_LINES: usize = 4;

// The states.
pub const EMPTY: u32 = 0;

pub const LEVELLED: u32 = 1;

pub const SEGMENTED: u32 = 2;
