// One component: its area, its box and the sums of its dots' coordinates (01's piece).
ghost use Rattle.std.specs.Prelude.{◌≡◌, ◌+◌, ◌≤◌, ◌<◌, ◌^◌};
ghost use Rattle.memory.specs.rules.Limits.{max_mask_side, max_mask_dots};
ghost use Rattle.labelling.specs.rules.Components.{no_dots, absorbed, box_of};
ghost use Rattle.labelling.specs.stages.Absorbing.{absorbed_span};

use memory::Rect;

#[derive(Clone, Copy, Debug, PartialEq, Eq)]
pub struct Component {
    pub area: u32,
    pub x0: u32,
    pub y0: u32,
    pub x1: u32,
    pub y1: u32,
    pub sum_x: u64,
    pub sum_y: u64,
}

impl Component {
    // No dot yet.
    pub fn none() -> Component
        ensures { result ≡ no_dots }
    {
        Component {
            area: 0,
            x0: u32::MAX,
            y0: u32::MAX,
            x1: 0,
            y1: 0,
            sum_x: 0,
            sum_y: 0,
        }
    }

    // The component with the dot in column x and row y more.
    pub fn absorb(self, x: u32, y: u32) -> Component
        requires area { self.area < 4294967295 }
        requires sum_x { self.sum_x + x ≤ 18446744073709551615 }
        requires sum_y { self.sum_y + y ≤ 18446744073709551615 }
        ensures { result ≡ absorbed self x y }
    {
        Component {
            area: self.area + 1,
            x0: self.x0.min(x),
            y0: self.y0.min(y),
            x1: self.x1.max(x),
            y1: self.y1.max(y),
            sum_x: self.sum_x + u64::from(x),
            sum_y: self.sum_y + u64::from(y),
        }
    }

    // The component with the dots of a span of row y more: so many, from column x to column `last`, whose columns add up to `sum`. Its
    // box takes in the two end dots.
    pub fn absorb_span(self, x: u32, last: u32, dots: u32, sum: u64, y: u32) -> Component
        requires { (self.area ≤ max_mask_dots) × (self.sum_x ≤ 2 ^ 60) × (self.sum_y ≤ 2 ^ 60) × (dots ≤ max_mask_side) × (sum ≤ 2 ^ 60) × (y ≤ max_mask_dots) × (x ≤ last) }
        ensures { result ≡ absorbed_span self x last dots sum y }
    {
        let ends = self.absorb(x, y).absorb(last, y);
        Component {
            area: self.area + dots,
            sum_x: self.sum_x + sum,
            sum_y: self.sum_y + u64::from(dots) * u64::from(y),
            ..ends
        }
    }

    pub fn rect(self) -> Rect
        ensures { result ≡ box_of self }
    {
        Rect {
            x0: self.x0,
            y0: self.y0,
            x1: self.x1,
            y1: self.y1,
        }
    }
}
