// Sorting: the x-height and the kind of each component, and a whole ink plane sorted (layout.rs). What the functions must do is in
// specs/.

#![tactic(auto)]

ghost use Rattle.std.specs.Prelude.{◌≡◌};
ghost use Rattle.sorting.specs.rules.Units.{unit_value};

mod kinds;
mod measure;
mod median;
mod plan;
mod sort;

pub use kinds::{CUT, GLYPH, GRAPHIC, Kind, RULE, SPECK, is_measurable, kind_by_size, kind_of};
pub use measure::{
    SIZE_WORDS, component_at, measure_unit, pack_boxes, packed_box, size_box, total_area,
    write_kinds,
};
pub use median::median_of_counts;
pub use plan::{Plan, plan_of};
pub use sort::{Cuts, SortCounts, cut_ink, label_rulings, sort_ink};

// The x-height of the page, 01's unit: the length that every threshold is a multiple of, and whether it was measured.
#[derive(Clone, Copy, Debug, PartialEq)]
pub enum Unit {
    Measured(f64),
    Assumed(f64),
}

impl Unit {
    pub fn value(self) -> f64
        ensures { result ≡ unit_value self }
    {
        match self {
            Unit::Measured(v) => v,
            Unit::Assumed(v) => v,
        }
    }
}
