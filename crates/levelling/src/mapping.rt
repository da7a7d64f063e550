// The way back from the frame to the page.
ghost use Rattle.std.specs.Prelude.{◌≡◌, ℕ, min, ◌-◌, ◌<◌, length};
ghost use Rattle.std.proofs.Math.IntN.{sub_ℕ};
ghost use Rattle.levelling.specs.rules.Frames.{frame_of};
ghost use Rattle.levelling.specs.rules.Mapping.{to_page, rect_to_page};
ghost use Rattle.levelling.specs.stages.Corners.{dot_to_page};

use crate::Point;
use memory::Rect;

// The way back: the shear of each page column and of each frame row, and the page's sides.
#[derive(Clone, Copy, Debug, PartialEq, Eq)]
struct Back<'a> {
    shear: &'a [u32],
    shear_x: &'a [u32],
    page_w: u32,
    page_h: u32,
}

// Frame point (x, y) in page coordinates; it may lie outside the page.
pub fn to_page(shear: &[u32], shear_x: &[u32], page_w: u32, x: u32, y: u32) -> Point
    requires { (0 < page_w) × (length shear.now ≡ page_w) × (y < length shear_x.now) }
    ensures { (page_h w h : ℕ) → result ≡ to_page (frame_of page_w page_h shear.now shear_x.now w h) x y }
{
    let left = shear_x[y as usize];
    let column = onto_side(x, left, page_w);
    Point {
        x: difference(x, left),
        y: difference(y, shear[column as usize]),
    }
}

// The page box of a frame box: the box around its four corners, each mapped back and moved onto the page.
pub fn rect_to_page(shear: &[u32], shear_x: &[u32], page_w: u32, page_h: u32, r: Rect) -> Rect
    requires { (0 < page_w) × (0 < page_h) × (length shear.now ≡ page_w) × (r.y0 < length shear_x.now) × (r.y1 < length shear_x.now) }
    ensures { (w h : ℕ) → result ≡ rect_to_page (frame_of page_w page_h shear.now shear_x.now w h) r }
{
    let back = Back {
        shear,
        shear_x,
        page_w,
        page_h,
    };
    let above = back.dot(r.x0, r.y0).union(back.dot(r.x1, r.y0));
    let below = back.dot(r.x0, r.y1).union(back.dot(r.x1, r.y1));
    above.union(below)
}

impl Back<'_> {
    // The page dot that frame point (x, y) maps to, moved onto the page, as a box.
    fn dot(&self, x: u32, y: u32) -> Rect
        requires { (0 < self.now.page_w) × (0 < self.now.page_h) × (length self.now.shear.now ≡ self.now.page_w) × (y < length self.now.shear_x.now) }
        ensures { (w h : ℕ) → result ≡ dot_to_page (frame_of self.now.page_w self.now.page_h self.now.shear.now self.now.shear_x.now w h) x y }
    {
        let column = onto_side(x, self.shear_x[y as usize], self.page_w);
        let row = onto_side(y, self.shear[column as usize], self.page_h);
        Rect {
            x0: column,
            y0: row,
            x1: column,
            y1: row,
        }
    }
}

// a - b moved onto a side of n dots.
fn onto_side(a: u32, b: u32, n: u32) -> u32
    requires { 0 < n }
    ensures { result ≡ min (a - b) (n - 1) }
{
    a.saturating_sub(b).min(n - 1)
}

// a - b, which may lie below 0.
fn difference(a: u32, b: u32) -> i64
    ensures { result ≡ sub_ℕ a b }
{
    a as i64 - b as i64
}
