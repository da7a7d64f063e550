// The page dots of one kind inside a frame box, by page row and then page column.
ghost use Rattle.std.specs.Prelude.{◌≡◌, cond, List, [], ◌∷◌, ℕ, ◌+◌, ◌*◌, ◌≤◌, ◌<◌, length};
ghost use Rattle.std.proofs.lemmas.List.Edits.{sets};
ghost use Rattle.memory.specs.rules.Lists.{count_if, keep, upto};
ghost use Rattle.memory.specs.rules.Words.{over};
ghost use Rattle.grouping.specs.rules.Readings.{in_box, listed, columns_and_rows, dot_list};
ghost use Rattle.grouping.specs.stages.Dots.{frame_by, page_frame, asked, listed_at, FrameWords, OneWay};

use crate::spans::{Page, Point};
use levelling::Sides;
use memory::Rect;

// The dots asked for: those of one kind inside a frame box, with the kinds of all frame dots.
#[derive(Clone, Copy, Debug, PartialEq, Eq)]
struct DotQuery<'a> {
    page: Page<'a>,
    kinds: &'a [u8],
    kind: u8,
    r: Rect,
}

impl<'a> DotQuery<'a> {
    // How many dots with those of page row y, where n are before it.
    fn count_row(&self, y: usize, n: usize) -> usize
        requires { FrameWords (page_frame self.now.page) self.now.kinds.now × OneWay (page_frame self.now.page) × (y < self.now.page.sides.page_h)
            × (n ≡ count_if (asked self.now) (y * self.now.page.sides.page_w)) }
        ensures { result ≡ count_if (asked self.now) ((y + 1) * self.now.page.sides.page_w) }
    {
        let columns = self.page.column_span(self.r, y);
        let mut m = n;
        for c in columns.from..columns.to {
            m += usize::from(self.is_listed(c, y));
        }
        m
    }

    // Writes those of page row y behind the n before it, and answers how many there are with them.
    // Beside `count_row` and not one with it: a closure for both would be asked for room after each dot, which its caller can't say plainer.
    fn write_row(&self, y: usize, n: usize, out: &mut [u32]) -> usize
        requires { FrameWords (page_frame self.now.page) self.now.kinds.now × OneWay (page_frame self.now.page) × (y < self.now.page.sides.page_h) × (n ≡ count_if (asked self.now) (y * self.now.page.sides.page_w))
            × (2 * count_if (asked self.now) (self.now.page.sides.page_w * self.now.page.sides.page_h) ≤ length out.old) }
        ensures { (result ≡ count_if (asked self.now) ((y + 1) * self.now.page.sides.page_w))
            × ((s : List ℕ) → out.old ≡ over (columns_and_rows self.now.page.sides.page_w (keep (asked self.now) (upto (y * self.now.page.sides.page_w)))) s
            → out.new ≡ over (columns_and_rows self.now.page.sides.page_w (keep (asked self.now) (upto ((y + 1) * self.now.page.sides.page_w)))) s) }
    {
        let columns = self.page.column_span(self.r, y);
        let mut m = n;
        for c in columns.from..columns.to {
            if self.is_listed(c, y) {
                put_dot(out, m, c as u32, y as u32);
                m += 1;
            }
        }
        m
    }

    // Whether the page dot in column c and row y is of this kind and in the box.
    fn is_listed(&self, c: usize, y: usize) -> bool
        requires { FrameWords (page_frame self.now.page) self.now.kinds.now × OneWay (page_frame self.now.page) × (c < self.now.page.sides.page_w) × (y < self.now.page.sides.page_h) }
        ensures { result ≡ listed_at (page_frame self.now.page) self.now.kinds.now self.now.kind self.now.r c y }
    {
        let p = self.page.point(c, y);
        let at = p.y as usize * self.page.sides.w + p.x as usize;
        (self.kinds[at] == self.kind) & in_box(self.r, p)
    }
}

// How many dots of the page are of this kind and in the box.
pub fn count_dots(
    shear: &[u32],
    shear_x: &[u32],
    kinds: &[u8],
    sides: Sides,
    kind: u8,
    r: Rect,
) -> usize
    requires { FrameWords (frame_by sides shear.now shear_x.now) kinds.now × OneWay (frame_by sides shear.now shear_x.now) }
    ensures { result ≡ count_if (listed (frame_by sides shear.now shear_x.now) kinds.now kind r) (sides.page_w * sides.page_h) }
{
    let page = Page {
        shear,
        shear_x,
        sides,
    };
    let q = DotQuery {
        page,
        kinds,
        kind,
        r,
    };
    let rows = page.row_span(r);
    let mut n = 0;
    for y in rows.from..=rows.to {
        n = q.count_row(y, n);
    }
    n
}

// Writes these dots over the front of `out`, page column and then page row of each, and answers how many there are.
pub fn write_dots(
    shear: &[u32],
    shear_x: &[u32],
    kinds: &[u8],
    sides: Sides,
    kind: u8,
    r: Rect,
    out: &mut [u32],
) -> usize
    requires { FrameWords (frame_by sides shear.now shear_x.now) kinds.now × OneWay (frame_by sides shear.now shear_x.now) × (2 * count_if (listed (frame_by sides shear.now shear_x.now) kinds.now kind r) (sides.page_w * sides.page_h) ≤ length out.old) }
    ensures { (result ≡ count_if (listed (frame_by sides shear.now shear_x.now) kinds.now kind r) (sides.page_w * sides.page_h))
        × (out.new ≡ over (dot_list (frame_by sides shear.now shear_x.now) kinds.now kind r) out.old) }
{
    let page = Page {
        shear,
        shear_x,
        sides,
    };
    let q = DotQuery {
        page,
        kinds,
        kind,
        r,
    };
    let rows = page.row_span(r);
    let mut n = 0;
    for y in rows.from..=rows.to {
        n = q.write_row(y, n, out);
    }
    n
}

// Dot n of the list.
fn put_dot(out: &mut [u32], n: usize, c: u32, y: u32)
    requires { 2 * n + 2 ≤ length out.old }
    ensures { out.new ≡ sets out.old (2 * n) (c ∷ y ∷ []) }
{
    let at = 2 * n;
    out[at] = c;
    out[at + 1] = y;
}

// Whether a frame point lies in a box.
fn in_box(r: Rect, p: Point) -> bool
    ensures { result ≡ in_box r p.x p.y }
{
    (r.x0 <= p.x) & (p.x <= r.x1) & (r.y0 <= p.y) & (p.y <= r.y1)
}
