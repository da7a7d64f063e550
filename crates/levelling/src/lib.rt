// Levelling: the two shears that make text lines level, the frame they give, a page plane moved into it, and the way back to
// the page (layout.rs).
#![tactic(auto)]

mod frame;
mod mapping;
mod page_plane;
mod plane;
mod plateaus;
mod shears;
mod tiles;

pub use frame::{FrameSize, Sides, fill_shears, frame_size};
pub use mapping::{rect_to_page, to_page};
pub use plane::level_plane;
pub use shears::{Drift, applied, is_shear};

// A point in page coordinates. It may lie outside the page, so its coordinates are signed.
#[derive(Clone, Copy, Debug, PartialEq, Eq)]
pub struct Point {
    pub x: i64,
    pub y: i64,
}
