// Levelling a page plane, and the way back. What is outside document 01's limits, or lent too short,
// gets 0 or false, and nothing is written.
ghost use Rattle.std.specs.Prelude.{◌≡◌, ◌++◌, ◌+◌, ◌*◌, ◌≤◌, length};
ghost use Rattle.memory.specs.rules.Words.{over};
ghost use Rattle.rounding.specs.rules.Drift.{WithinOne};
ghost use Rattle.levelling.specs.rules.Shears as Shears;
ghost use Rattle.levelling.specs.rules.Frames.{PageSides, frame};
ghost use Rattle.levelling.specs.rules.Planes.{levelled};
ghost use Rattle.stages.specs.rules.Levels.{skew_sheet, in_limits, frame_word, lent_fits, is_levelled, PlaneTold, holds_row, point_in, rect_in, corner_word};

use crate::sheets::BLANK_SHEET;
use levelling::{FrameSize, Point, Sides};
use memory::{MAX_PAGE_SIDE, Rect, area};
use params::LayoutParams;

// The value where the skew is applied, else 0.
pub fn novlizeb_applied(least: f64, skew: f64, value: f64) -> f64
    ensures { result ≡ Shears.applied (skew_sheet least) skew value }
{
    let sheet = LayoutParams {
        shear_min_deg: least,
        ..BLANK_SHEET
    };
    levelling::applied(sheet, skew, value)
}

fn in_limits(page_w: u32, page_h: u32, slope: f64) -> bool
    ensures { result ≡ in_limits page_w page_h slope }
{
    (0 < page_w)
        & (page_w <= MAX_PAGE_SIDE)
        & (0 < page_h)
        & (page_h <= MAX_PAGE_SIDE)
        & (-1.0 <= slope)
        & (slope <= 1.0)
}

// The frame's height times 2^32, and its width.
pub fn novlizeb_plane_size(page_w: u32, page_h: u32, slope: f64) -> u64
    ensures { result ≡ frame_word page_w page_h slope }
{
    if !in_limits(page_w, page_h, slope) {
        return 0;
    }
    let size = levelling::frame_size(page_w, page_h, slope);
    size.h as u64 * 4294967296 + size.w as u64
}

// A page, and the frame that its slope gives.
#[derive(Clone, Copy, Debug, PartialEq)]
struct PageFrame {
    page_w: u32,
    page_h: u32,
    slope: f64,
    size: FrameSize,
}

impl PageFrame {
    // Whether a plane has the page's size, and there is room for both shears and the frame.
    fn lent_fits(self, page: usize, shears: usize, out: usize) -> bool
        ensures { result ≡ lent_fits page self.page_w self.page_h self.size.w self.size.h shears out }
    {
        let rows = self.size.h as usize;
        (page == area(self.page_w, self.page_h))
            & (self.page_w as usize + rows <= shears)
            & (area(self.size.w, self.size.h) <= out)
    }

    // Both shears, and the plane moved by them.
    fn level(self, page: &[u8], fill: u8, shears: &mut [u32], out: &mut [u8])
        requires sides { PageSides self.page_w self.page_h }
        requires slope { WithinOne self.slope }
        requires frame_sides { (self.size.w ≡ (frame self.page_w self.page_h self.slope).w) × (self.size.h ≡ (frame self.page_w self.page_h self.slope).h) }
        requires room { (length page.now ≡ self.page_w * self.page_h) × (self.page_w + self.size.h ≤ length shears.old) × (self.size.w * self.size.h ≤ length out.old) }
        ensures { (shears.new ≡ over ((frame self.page_w self.page_h self.slope).shear ++ (frame self.page_w self.page_h self.slope).shear_x) shears.old)
            × (out.new ≡ over (levelled (frame self.page_w self.page_h self.slope) fill page.now) out.old) }
    {
        let pw = self.page_w as usize;
        let sides = Sides {
            page_w: pw,
            page_h: self.page_h as usize,
            w: self.size.w as usize,
            h: self.size.h as usize,
        };
        let end = pw + sides.h;
        levelling::fill_shears(shears, self.page_w, self.page_h, self.slope);
        levelling::level_plane(page, fill, sides, &shears[0..pw], &shears[pw..end], out);
    }
}

// A page plane moved into its frame, `fill` in the dots that are added; both shears, one after the
// other, are written too.
pub fn novlizeb_level_plane(
    page: &[u8],
    fill: u8,
    page_w: u32,
    page_h: u32,
    slope: f64,
    shears: &mut [u32],
    out: &mut [u8],
) -> bool
    ensures { PlaneTold (is_levelled page_w page_h slope (length page.now) (length shears.old) (length out.old)) page_w page_h slope fill page.now shears.old out.old result shears.new out.new }
{
    if !in_limits(page_w, page_h, slope) {
        return false;
    }
    let frame = PageFrame {
        page_w,
        page_h,
        slope,
        size: levelling::frame_size(page_w, page_h, slope),
    };
    if !frame.lent_fits(page.len(), shears.len(), out.len()) {
        return false;
    }
    frame.level(page, fill, shears, out);
    true
}

// Whether the words hold the shears of a page's columns and of the frame's rows up to y.
fn holds_row(words: usize, page_w: u32, y: u32) -> bool
    ensures { result ≡ holds_row words page_w y }
{
    (0 < page_w) & (page_w as usize + (y as usize) < words)
}

// Frame point (x, y) on the page.
fn point(shears: &[u32], page_w: u32, x: u32, y: u32) -> Point
    ensures { result ≡ point_in shears.now page_w x y }
{
    if !holds_row(shears.len(), page_w, y) {
        return Point { x: 0, y: 0 };
    }
    let pw = page_w as usize;
    levelling::to_page(&shears[0..pw], &shears[pw..], page_w, x, y)
}

// The page column of frame point (x, y), by the shears that levelling wrote.
pub fn novlizeb_to_page_x(shears: &[u32], page_w: u32, x: u32, y: u32) -> i64
    ensures { result ≡ (point_in shears.now page_w x y).x }
{
    point(shears, page_w, x, y).x
}

// Its page row.
pub fn novlizeb_to_page_y(shears: &[u32], page_w: u32, x: u32, y: u32) -> i64
    ensures { result ≡ (point_in shears.now page_w x y).y }
{
    point(shears, page_w, x, y).y
}

// A frame box on the page.
fn page_rect(shears: &[u32], page_w: u32, page_h: u32, r: Rect) -> Rect
    ensures { result ≡ rect_in shears.now page_w page_h r }
{
    let above = holds_row(shears.len(), page_w, r.y0);
    let below = holds_row(shears.len(), page_w, r.y1);
    if !(above & below & (0 < page_h)) {
        return Rect {
            x0: 0,
            y0: 0,
            x1: 0,
            y1: 0,
        };
    }
    let pw = page_w as usize;
    levelling::rect_to_page(&shears[0..pw], &shears[pw..], page_w, page_h, r)
}

// A corner of a page box: its row times 2^32, and its column.
fn corner(x: u32, y: u32) -> u64
    ensures { result ≡ corner_word x y }
{
    y as u64 * 4294967296 + x as u64
}

// The first corner of the page box of a frame box, by the shears that levelling wrote: its row times 2^32,
// and its column.
pub fn novlizeb_rect_to_page_start(
    shears: &[u32],
    page_w: u32,
    page_h: u32,
    x0: u32,
    y0: u32,
    x1: u32,
    y1: u32,
) -> u64
    ensures { result ≡ corner_word (rect_in shears.now page_w page_h (record { x0 = x0; y0 = y0; x1 = x1; y1 = y1 })).x0 (rect_in shears.now page_w page_h (record { x0 = x0; y0 = y0; x1 = x1; y1 = y1 })).y0 }
{
    let b = page_rect(shears, page_w, page_h, Rect { x0, y0, x1, y1 });
    corner(b.x0, b.y0)
}

// Its last corner.
pub fn novlizeb_rect_to_page_end(
    shears: &[u32],
    page_w: u32,
    page_h: u32,
    x0: u32,
    y0: u32,
    x1: u32,
    y1: u32,
) -> u64
    ensures { result ≡ corner_word (rect_in shears.now page_w page_h (record { x0 = x0; y0 = y0; x1 = x1; y1 = y1 })).x1 (rect_in shears.now page_w page_h (record { x0 = x0; y0 = y0; x1 = x1; y1 = y1 })).y1 }
{
    let b = page_rect(shears, page_w, page_h, Rect { x0, y0, x1, y1 });
    corner(b.x1, b.y1)
}
