// The words of a call: how many they are, and what stands at each place (specs/rules/Scripts). Every word is taken, whatever it is.

pub const CALL_WORDS: usize = 21;

// What is called.
pub const OP: usize = 0;

// How much it is lent.
pub const STORE: usize = 1;

pub const INK: usize = 2;

pub const KINDS: usize = 3;

pub const SCRATCH: usize = 4;

pub const OUT: usize = 5;

// Page sides, capacity, kind of dots.
pub const WIDTH: usize = 6;

pub const HEIGHT: usize = 7;

pub const CAPACITY: usize = 8;

pub const KIND: usize = 9;

// A box, or a point as its first corner.
pub const LEFT: usize = 10;

pub const TOP: usize = 11;

pub const RIGHT: usize = 12;

pub const BOTTOM: usize = 13;

// Where its bytes begin, and how many they are.
pub const BYTES: usize = 14;

pub const BYTES_LENGTH: usize = 15;

// Where skew and slope stand among the floats.
pub const TURNS: usize = 16;

// Where the sheet's floats begin; its areas and counts.
pub const SHEET: usize = 17;

pub const GLYPH_AREA: usize = 18;

pub const XHEIGHT_AREA: usize = 19;

pub const LINE_GLYPHS: usize = 20;
