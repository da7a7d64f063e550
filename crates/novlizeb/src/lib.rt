// What a host program calls, under plain C names: the store's entries and readings, each with the entry's own promise. A slice comes as a
// pointer to its first element and then a length, the pointer valid for that many elements (and never null, not even for the length 0).
// No function asks anything else of its caller.
#![tactic(auto)]

mod frames;
mod pages;
mod results;
mod sheets;

pub use frames::{
    novlizeb_frame_size, novlizeb_level_gray, novlizeb_read_frame, novlizeb_rect_to_page,
    novlizeb_to_page,
};
pub use pages::{novlizeb_clear, novlizeb_level, novlizeb_segment};
pub use results::{
    novlizeb_count_dots, novlizeb_read_blocks, novlizeb_read_columns, novlizeb_read_dots,
    novlizeb_read_figures, novlizeb_read_glyphs, novlizeb_read_graphics, novlizeb_read_lines,
    novlizeb_read_rules, novlizeb_read_summary, novlizeb_twenty_line_measure, novlizeb_write_sheet,
};
