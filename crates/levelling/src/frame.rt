// The levelled frame: its sides, and its two shears.
ghost use Rattle.std.specs.Prelude.{◌≡◌, ◌++◌, ◌+◌, ◌≤◌, length};
ghost use Rattle.memory.specs.rules.Limits.{max_frame_width, max_frame_height};
ghost use Rattle.memory.specs.rules.Words.{over};
ghost use Rattle.rounding.specs.rules.Drift.{WithinOne};
ghost use Rattle.levelling.specs.rules.Frames.{PageSides, frame};

use crate::shears::{Drift, fill_shear, greatest_entry};

// The sides of the frame.
#[derive(Clone, Copy, Debug, PartialEq, Eq)]
pub struct FrameSize {
    pub w: u32,
    pub h: u32,
}

// The sides of a page and of its frame, as lengths.
#[derive(Clone, Copy, Debug, PartialEq, Eq)]
pub struct Sides {
    pub page_w: usize,
    pub page_h: usize,
    pub w: usize,
    pub h: usize,
}

// The page's sides and what the two shears add.
pub fn frame_size(page_w: u32, page_h: u32, slope: f64) -> FrameSize
    requires sides { PageSides page_w page_h }
    requires slope { WithinOne slope }
    ensures sides { (result.w ≡ (frame page_w page_h slope).w) × (result.h ≡ (frame page_w page_h slope).h) }
    ensures limits { (result.w ≤ max_frame_width) × (result.h ≤ max_frame_height) }
{
    let h = page_h + greatest_entry(Drift::Row, page_w, slope);
    let w = page_w + greatest_entry(Drift::Column, h, slope);
    FrameSize { w, h }
}

// The shear of each page column over the front of words, and behind it the shear of each frame row.
pub fn fill_shears(words: &mut [u32], page_w: u32, page_h: u32, slope: f64)
    requires sides { PageSides page_w page_h }
    requires slope { WithinOne slope }
    requires room { page_w + (frame page_w page_h slope).h ≤ length words.old }
    ensures { words.new ≡ over ((frame page_w page_h slope).shear ++ (frame page_w page_h slope).shear_x) words.old }
{
    let size = frame_size(page_w, page_h, slope);
    let h = size.h;
    let at = page_w as usize;
    fill_shear(words, Drift::Row, page_w, slope);
    fill_shear(&mut words[at..], Drift::Column, h, slope);
}
