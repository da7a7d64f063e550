// Where a segmentation keeps what it finds in scratch: made once for a frame and handed on by value.
ghost use Rattle.std.specs.Prelude.{◌≡◌, ◌*◌, ◌≤◌};
ghost use Rattle.memory.specs.rules.Limits.{max_mask_dots, max_capacity};
ghost use Rattle.sorting.specs.stages.Scratch.{plan_of};

use memory::area;

// The sides of the frame, its dots, how many components each labelling may have, and the first word of each list.
#[derive(Clone, Copy, Debug, PartialEq, Eq)]
pub struct Plan {
    pub width: u32,
    pub height: u32,
    pub dots: usize,
    pub capacity: usize,
    pub marks: usize,
    pub horizontal: usize,
    pub vertical: usize,
    pub sizes: usize,
    pub kinds: usize,
    pub smears: usize,
    pub glyphs: usize,
}

// The plan for a frame with these sides.
pub fn plan_of(width: u32, height: u32, capacity: usize) -> Plan
    requires { (width * height ≤ max_mask_dots) × (capacity ≤ max_capacity) }
    ensures { result ≡ plan_of width height capacity }
{
    let dots = area(width, height);
    let tail = 4 * dots + 64;
    Plan {
        width,
        height,
        dots,
        capacity,
        marks: 3 * dots + 64,
        horizontal: tail,
        vertical: tail + 2 * capacity,
        sizes: tail + 4 * capacity,
        kinds: tail + 9 * capacity,
        smears: tail + 10 * capacity,
        glyphs: tail + 15 * capacity,
    }
}
