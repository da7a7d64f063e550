// A page plane moved into the frame, in one of two ways that meet one equation: which is taken carries no promise.
ghost use Rattle.std.specs.Prelude.{◌≡◌, ◌≤◌};
ghost use Rattle.memory.specs.rules.Limits.{max_page_side};
ghost use Rattle.memory.specs.rules.Words.{over};
ghost use Rattle.levelling.specs.rules.Frames.{frame_of};
ghost use Rattle.levelling.specs.stages.Rooms.{PlaneFits};
ghost use Rattle.levelling.specs.rules.Planes.{levelled};

use crate::Sides;
use crate::page_plane::PagePlane;

// Plateaus shorter than this on the average are slower than tiles: measured, no promise goes by it.
const SHORT: usize = 16;

// A page plane moved into the frame of these shears: the ink mask, where added dots are 0, and `level_gray`, where they are 255.
pub fn level_plane(
    page: &[u8],
    fill: u8,
    sides: Sides,
    shear: &[u32],
    shear_x: &[u32],
    out: &mut [u8],
)
    requires { (PlaneFits (frame_of sides.page_w sides.page_h shear.now shear_x.now sides.w sides.h) page.now out.old) × (sides.page_w ≤ max_page_side) }
    ensures { out.new ≡ over (levelled (frame_of sides.page_w sides.page_h shear.now shear_x.now sides.w sides.h) fill page.now) out.old }
{
    let plane = PagePlane {
        page,
        fill,
        sides,
        shear,
        shear_x,
    };
    if is_steep(shear) {
        plane.level_by_tiles(out);
    } else {
        plane.level_by_plateaus(out);
    }
}

// Whether a shear's plateaus are short: it runs one way, so it has one more than its ends differ.
fn is_steep(shear: &[u32]) -> bool {
    match (shear.first(), shear.last()) {
        (Some(first), Some(last)) => shear.len() / SHORT < first.abs_diff(*last) as usize,
        _ => false,
    }
}
