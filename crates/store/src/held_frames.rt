// The frame that a store holds, by its words.
ghost use Rattle.std.specs.Prelude.{◌≡◌, ◌+◌, ◌≤◌, length, take, drop, get_or};
ghost use Rattle.judging.specs.rules.Header.{header_words};
ghost use Rattle.store.specs.stages.Areas.{HeaderJudged};

use judging::{FRAME_HEIGHT, FRAME_WIDTH, HEADER, PAGE_HEIGHT, PAGE_WIDTH, frame_held, level_head};
use levelling::{FrameSize, Sides};
use memory::Refusal;

// The sides of page and frame, and the two shears that stand behind the header.
#[derive(Clone, Copy, Debug, PartialEq, Eq)]
pub struct HeldFrame<'a> {
    pub sides: Sides,
    pub shear: &'a [u32],
    pub shear_x: &'a [u32],
}

// Reads and cuts them out.
pub fn held_frame(store: &[u32]) -> HeldFrame<'_>
    requires { header_words + (get_or store.now 1 0 + get_or store.now 4 0) ≤ length store.now }
    ensures sides { result.sides ≡ record { page_w = get_or store.now 1 0; page_h = get_or store.now 2 0; w = get_or store.now 3 0; h = get_or store.now 4 0 } }
    ensures shear { result.shear.now ≡ take (get_or store.now 1 0) (drop header_words store.now) }
    ensures shear_x { result.shear_x.now ≡ take (get_or store.now 4 0) (drop (header_words + get_or store.now 1 0) store.now) }
    ensures lengths { (length result.shear.now ≡ get_or store.now 1 0) × (length result.shear_x.now ≡ get_or store.now 4 0) }
{
    let sides = Sides {
        page_w: store[PAGE_WIDTH] as usize,
        page_h: store[PAGE_HEIGHT] as usize,
        w: store[FRAME_WIDTH] as usize,
        h: store[FRAME_HEIGHT] as usize,
    };
    let start = HEADER + sides.page_w;
    let end = start + sides.h;
    HeldFrame {
        sides,
        shear: &store[HEADER..start],
        shear_x: &store[start..end],
    }
}

// The size of the frame that the held slope gives, or the header's refusal.
pub(crate) fn level_size(store: &[u32]) -> Result<FrameSize, Refusal>
    ensures { HeaderJudged store.now result }
{
    level_head(store)?;
    Ok(frame_held(store))
}
