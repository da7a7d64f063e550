// What a store holds, and what turns a call back: the words of its header, and the judges of every entry. The numbers are document 01's; the
// definitions are in specs/rules.
#![tactic(auto)]

mod judging;
mod levels;
mod results;
mod segments;
mod shears;
mod spoiled;
mod words;

pub use judging::{is_page, judge_leaf, judge_place, lists_at};
pub use levels::{frame_held, judge_frame, level_head};
pub use segments::judge_segment;
pub use spoiled::judge_reading;
pub use words::{
    BLOCKS, CAPACITY, COLUMNS, EMPTY, FIGURES, FIGURES_END, FIGURES_LENGTH, FRAME_HEIGHT,
    FRAME_WIDTH, GLYPH_DOTS, GLYPHS, GRAPHICS, HEADER, INK_DOTS, LEVELLED, LINES, PAGE_HEIGHT,
    PAGE_WIDTH, RULES, SEGMENTED, SKEW, SLOPE, STATE, UNIT,
};
