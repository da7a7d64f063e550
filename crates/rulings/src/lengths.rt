// The two lengths of a thin ruling, by the sheet and the unit, and the rulings that they give.
ghost use Rattle.std.specs.Prelude.{◌≡◌, length};
ghost use Rattle.rulings.specs.rules.Rulings.{run_min, thick_max};
ghost use Rattle.rulings.specs.stages.Marks.{RulingsMarked};
ghost use Rattle.rulings.specs.stages.Sweeps.{RulingsRoom};

use crate::scanlines::{Found, mark_rulings};
use params::LayoutParams;
use rounding::round_to_u32;

// The thin rulings of an ink plane whose unit is `unit`, marked as by `mark_rulings`.
pub fn thin_rulings(
    ink: &[u8],
    width: u32,
    height: u32,
    sheet: LayoutParams,
    unit: f64,
    words: &mut [u32],
    marks: usize,
) -> Found
    requires { RulingsRoom width height (length ink.now) marks (length words.old) }
    ensures { RulingsMarked (run_min sheet unit) (thick_max sheet unit) width height ink.now marks words.old words.new result }
{
    let run = run_min(sheet, unit);
    let thick = thick_max(sheet, unit);
    mark_rulings(ink, width, height, run, thick, words, marks)
}

// The least run of a thin ruling, in dots.
pub fn run_min(sheet: LayoutParams, unit: f64) -> u32
    ensures { result ≡ run_min sheet unit }
{
    round_to_u32(sheet.rule_run_xh * unit).max(2)
}

// Its greatest thickness.
pub fn thick_max(sheet: LayoutParams, unit: f64) -> u32
    ensures { result ≡ thick_max sheet unit }
{
    round_to_u32(sheet.rule_max_thick_xh * unit).max(1)
}
