// Lent memory: words, floats in two words, refusals and the numbers that answers tell; masks, boxes of dots, and the limits that all share. Every crate above keeps its records in
// memory that the caller lends, and says what that memory holds by the definitions in specs/.
#![tactic(auto)]

mod floats;
mod limits;
mod masks;
mod numbers;
mod rect;
mod refusals;
mod words;

pub use floats::{bits_of, float_at, from_bits, put_float};
pub use limits::{
    COMPONENT_WORDS, MAX_CAPACITY, MAX_EXTENT, MAX_FRAME_HEIGHT, MAX_FRAME_WIDTH, MAX_LINES,
    MAX_MASK_DOTS, MAX_MASK_SIDE, MAX_PAGE_SIDE, NO_LINE, scratch_words, store_words,
};
pub use masks::{is_mask, judge_sides};
pub use numbers::area;
pub use rect::{Rect, box_at, put_box};
pub use refusals::{Refusal, number_of, word_of};
pub use words::{copy_over, fill, word_at};
