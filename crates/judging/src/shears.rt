// Whether a store holds the frame and the shears that its slope gives.
ghost use Rattle.std.specs.Prelude.{◌≡◌, ◌+◌, ◌≤◌, length};
ghost use Rattle.rounding.specs.rules.Drift.{WithinOne};
ghost use Rattle.levelling.specs.rules.Frames.{PageSides, frame};
ghost use Rattle.judging.specs.rules.Header.{header_words, held};
ghost use Rattle.judging.specs.rules.Spoiled.{frame_spoiled};

use crate::words::{FRAME_HEIGHT, FRAME_WIDTH, HEADER};
use levelling::{Drift, is_shear};

// Whether the held frame words or the words of the shears are other than the held slope gives, for a page so wide and high and the
// frame of that slope.
pub fn frame_differs(store: &[u32], page_w: u32, page_h: u32, slope: f64, w: u32, h: u32) -> bool
    requires sides { PageSides page_w page_h }
    requires slope { WithinOne slope }
    requires frame_sides { (w ≡ (frame page_w page_h slope).w) × (h ≡ (frame page_w page_h slope).h) × (header_words + (page_w + h) ≤ length store.now) }
    requires as_held { (page_w ≡ (held store.now).page_w) × (page_h ≡ (held store.now).page_h) × (slope ≡ (held store.now).slope) }
    ensures { result ≡ frame_spoiled store.now }
{
    let behind = HEADER + page_w as usize;
    let rows = is_shear(&store[HEADER..], Drift::Row, page_w, slope);
    let columns = is_shear(&store[behind..], Drift::Column, h, slope);
    let wide = store[FRAME_WIDTH] == w;
    let high = store[FRAME_HEIGHT] == h;
    !(wide & high & (rows & columns))
}
