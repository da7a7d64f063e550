// The kind of a component by its size, against the x-height; which components give the x-height.
ghost use Rattle.std.specs.Prelude.{◌≡◌};
ghost use Rattle.sorting.specs.rules.Units.{unit_value, measurable};
ghost use Rattle.sorting.specs.rules.Kinds.{is_rule, is_graphic, kind_by_size, kind_of};
ghost use Rattle.sorting.specs.stages.KindNumbers.{number_of};
ghost use Rattle.memory.specs.stages.Boxes.{Inside};
ghost use Rattle.labelling.specs.rules.Components.{box_of};

use crate::Unit;
use labelling::Component;
use params::LayoutParams;

// The kinds, each by the number that specs/rules/Kinds gives it; 0 is blank.
#[derive(Clone, Copy, Debug, PartialEq, Eq)]
pub enum Kind {
    Cut = 1,
    Rule = 2,
    Graphic = 3,
    Glyph = 4,
    Speck = 5,
}

impl From<Kind> for u32 {
    ghost from_gives = { λ k n. n ≡ number_of k };

    fn from(kind: Kind) -> u32 {
        kind as u32
    }
}

// The words and bytes that hold a kind are told as numbers.
pub const CUT: u32 = Kind::Cut as u32;

pub const RULE: u32 = Kind::Rule as u32;

pub const GRAPHIC: u32 = Kind::Graphic as u32;

pub const GLYPH: u32 = Kind::Glyph as u32;

pub const SPECK: u32 = Kind::Speck as u32;

// The kind of a component, in a frame w wide and h high.
pub fn kind_of(p: LayoutParams, unit: Unit, w: u32, h: u32, c: Component) -> u32
    requires { Inside 4294967295 4294967295 (box_of c) }
    ensures { result ≡ kind_of p (unit_value unit) w h c }
{
    let r = c.rect();
    kind_by_size(p, unit, w, h, c.area, r.width(), r.height())
}

// The kind by area, width and height: whether the unit was measured does not matter.
pub fn kind_by_size(
    p: LayoutParams,
    unit: Unit,
    w: u32,
    h: u32,
    area: u32,
    width: u32,
    height: u32,
) -> u32
    ensures { result ≡ kind_by_size p (unit_value unit) w h area width height }
{
    let (Unit::Measured(unit) | Unit::Assumed(unit)) = unit;
    let scale = Scale {
        sheet: p,
        unit,
        w,
        h,
    };
    u32::from(scale.kind(area, width, height))
}

// What a component is held against: the thresholds, the unit that they are multiples of, and the sides of the frame.
#[derive(Clone, Copy, Debug, PartialEq)]
struct Scale {
    sheet: LayoutParams,
    unit: f64,
    w: u32,
    h: u32,
}

impl Scale {
    // Tested in this order: rule, graphic, speck, glyph.
    fn kind(self, area: u32, width: u32, height: u32) -> Kind
        ensures { number_of result ≡ kind_by_size self.sheet self.unit self.w self.h area width height }
    {
        // every test is made, and the kinds chosen after: a branch a test would be guessed wrong where sizes alternate
        let small = if area < self.sheet.glyph_min_area {
            Kind::Speck
        } else {
            Kind::Glyph
        };
        let rest = if self.is_graphic(width, height) {
            Kind::Graphic
        } else {
            small
        };
        if self.is_rule(width, height) | self.is_rule(height, width) {
            Kind::Rule
        } else {
            rest
        }
    }

    fn is_rule(self, long: u32, thin: u32) -> bool
        ensures { result ≡ is_rule self.sheet self.unit long thin }
    {
        (self.sheet.rule_min_len_xh * self.unit <= long as f64)
            & (thin as f64 <= self.sheet.rule_max_thick_xh * self.unit)
    }

    fn is_graphic(self, width: u32, height: u32) -> bool
        ensures { result ≡ is_graphic self.sheet self.unit self.w self.h width height }
    {
        let least = self.sheet.graphic_min_xh * self.unit;
        let most = self.sheet.glyph_max_extent_frac;
        ((least <= width as f64) & (least <= height as f64))
            | (most * self.w as f64 <= width as f64)
            | (most * self.h as f64 <= height as f64)
    }
}

// A component whose height counts for the x-height.
pub fn is_measurable(p: LayoutParams, w: u32, h: u32, c: Component) -> bool
    requires { Inside 4294967295 4294967295 (box_of c) }
    ensures { result ≡ measurable p w h c }
{
    let r = c.rect();
    let width = r.width();
    let height = r.height();
    (p.glyph_min_area <= c.area)
        & (p.xheight_min_area <= c.area)
        & (((width as f64) < p.glyph_max_extent_frac * w as f64)
            & ((height as f64) < p.glyph_max_extent_frac * h as f64))
}
