// The lists of boxes of a segmentation: rules and graphics, each in its place in the words lent for results.
ghost use Rattle.std.specs.Prelude.{◌*◌, length};
ghost use Rattle.sorting.specs.stages.Scratch.{Planned};
ghost use Rattle.segmenting.specs.stages.Places.{Placed};
ghost use Rattle.segmenting.specs.stages.Writing.{BoxRoom, BoxesLeft};

use crate::boxes::{write_boxes, write_rules};
use crate::places::ResultPlaces;
use sorting::{GRAPHIC, Plan, SortCounts};

// How many rules and graphics there are.
#[derive(Clone, Copy, Debug, PartialEq, Eq)]
pub struct BoxCounts {
    pub rules: usize,
    pub graphics: usize,
}

// Writes the rules and the graphics in their places.
pub fn write_box_lists(
    words: &[u32],
    plan: Plan,
    found: SortCounts,
    places: ResultPlaces,
    results: &mut [u32],
) -> BoxCounts
    requires { (BoxRoom plan.width (plan.width * plan.height) plan.capacity found.horizontal found.vertical found.component_count (length words.now) (length results.old)) × (Planned plan) × (Placed places plan.width plan.capacity) }
    ensures { BoxesLeft plan.width (plan.width * plan.height) plan.capacity found.horizontal found.vertical found.component_count words.now results.old results.new result.rules result.graphics }
{
    let rules_at = places.rules;
    let graphics_at = places.graphics;
    let n = found.component_count;
    let rules = write_rules(words, plan, found, &mut results[rules_at..]);
    let graphics = write_boxes(
        words,
        plan.sizes,
        plan.kinds,
        n,
        GRAPHIC,
        &mut results[graphics_at..],
    );
    BoxCounts { rules, graphics }
}
