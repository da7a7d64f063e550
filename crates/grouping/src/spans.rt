// Where the page dots of a frame box can lie: a range of page rows, and in each of these a range of page columns.
ghost use Rattle.std.specs.Prelude.{◌≡◌, ◌-◌, ◌<◌, min, max, get_or, length, ltb};
ghost use Rattle.levelling.specs.rules.Frames.{row_of, column_of};
ghost use Rattle.grouping.specs.stages.Dots.{page_frame, Sheared, RowSpan, ColumnSpan, is_short, FirstReached};

use levelling::Sides;
use memory::Rect;

// From one number to another.
#[derive(Clone, Copy, Debug, PartialEq, Eq)]
pub struct Span {
    pub from: usize,
    pub to: usize,
}

// A page over its frame: the two shears, which lead each page dot to its frame point, and the sides of both.
#[derive(Clone, Copy, Debug, PartialEq, Eq)]
pub struct Page<'a> {
    pub shear: &'a [u32],
    pub shear_x: &'a [u32],
    pub sides: Sides,
}

// A point of the frame.
#[derive(Clone, Copy, Debug, PartialEq, Eq)]
pub struct Point {
    pub x: u32,
    pub y: u32,
}

// An end of a box on the way of a page row, which goes up where the shear falls: where the box starts, or where it ends.
#[derive(Clone, Copy, Debug, PartialEq, Eq)]
struct BoxEnd {
    r: Rect,
    falls: bool,
    start: bool,
}

impl<'a> Page<'a> {
    // The frame point of the page dot in column c and row y.
    pub fn point(&self, c: usize, y: usize) -> Point
        requires { Sheared (page_frame self.now) × (c < self.now.sides.page_w) × (y < self.now.sides.page_h) }
        ensures { (result.x ≡ column_of (page_frame self.now) c y) × (result.y ≡ row_of (page_frame self.now) c y) }
    {
        let row = y + self.shear[c] as usize;
        let column = c + self.shear_x[row] as usize;
        Point {
            x: column as u32,
            y: row as u32,
        }
    }

    // The page rows, from the first to the last, that can hold a dot of the box. Shears run one way, so over a range each is greatest
    // and least at the range's ends.
    pub fn row_span(&self, r: Rect) -> Span
        requires { Sheared (page_frame self.now) }
        ensures { RowSpan (page_frame self.now) r result.from result.to }
    {
        let sides = self.sides;
        let top = (r.y0 as usize).min(sides.h - 1);
        let bottom = (r.y1 as usize).min(sides.h - 1);
        let columns = reach(
            r.x0,
            r.x1,
            ends(self.shear_x, top, bottom),
            sides.page_w - 1,
        );
        let rows = ends(self.shear, columns.from, columns.to);
        reach(r.y0, r.y1, rows, sides.page_h - 1)
    }

    // The columns of page row y, from the first up to the second, that can hold a dot of the box.
    pub fn column_span(&self, r: Rect, y: usize) -> Span
        requires { Sheared (page_frame self.now) × (y < self.now.sides.page_h) }
        ensures { ColumnSpan (page_frame self.now) r y result.from result.to }
    {
        let last = self.sides.page_w - 1;
        let falls = self.shear[last] < self.shear[0];
        let start = BoxEnd {
            r,
            falls,
            start: true,
        };
        let end = BoxEnd {
            r,
            falls,
            start: false,
        };
        Span {
            from: self.first_reached(start, y),
            to: self.first_reached(end, y),
        }
    }

    // The first column of page row y whose dot is no longer before the box (`start`), or no longer short of its end.
    // A search by hand: `partition_point` would give its closure a word of the shear and not the word's column, which the test needs.
    fn first_reached(&self, end: BoxEnd, y: usize) -> usize
        requires { Sheared (page_frame self.now) × (end.falls ≡ ltb (get_or self.now.shear.now (self.now.sides.page_w - 1) 0) (get_or self.now.shear.now 0 0)) × (y < self.now.sides.page_h) }
        ensures { FirstReached (page_frame self.now) end.r end.falls end.start y result }
    {
        let mut low = 0;
        let mut high = self.sides.page_w;
        while low < high {
            let middle = (low + high) / 2;
            if is_short(end, self.point(middle, y)) {
                low = middle + 1;
            } else {
                high = middle;
            }
        }
        low
    }
}

// The lesser and the greater of two entries.
fn ends(table: &[u32], a: usize, b: usize) -> Span
    requires { (a < length table.now) × (b < length table.now) }
    ensures { (result.from ≡ min (get_or table.now a 0) (get_or table.now b 0)) × (result.to ≡ max (get_or table.now a 0) (get_or table.now b 0)) }
{
    let p = table[a] as usize;
    let q = table[b] as usize;
    Span {
        from: p.min(q),
        to: p.max(q),
    }
}

// The places up to `last` from which a move by `by` leads to between `low` and `high`.
fn reach(low: u32, high: u32, by: Span, last: usize) -> Span
    ensures { (result.from ≡ min (low - by.to) last) × (result.to ≡ min (high - by.from) last) }
{
    Span {
        from: (low as usize).saturating_sub(by.to).min(last),
        to: (high as usize).saturating_sub(by.from).min(last),
    }
}

// Whether a frame point is before the box (`start`), or short of its end. It moves right along the page row, and up where the shear
// falls, else down.
fn is_short(end: BoxEnd, p: Point) -> bool
    ensures { result ≡ is_short end.r end.falls end.start p.x p.y }
{
    let r = end.r;
    if end.start {
        if end.falls {
            return (p.x < r.x0) | (r.y1 < p.y);
        }
        return (p.x < r.x0) | (p.y < r.y0);
    }
    if end.falls {
        return (p.x <= r.x1) & (r.y0 <= p.y);
    }
    (p.x <= r.x1) & (p.y <= r.y1)
}
