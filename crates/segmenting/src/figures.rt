// The figures of a segmentation in words.
ghost use Rattle.std.specs.Prelude.{◌≡◌, ◌≤◌, length};
ghost use Rattle.memory.specs.rules.Words.{over};
ghost use Rattle.segmenting.specs.rules.Figures.{figures_length, measured_word, figure_words};

use crate::results::Segmentation;
use memory::put_float;
use sorting::Unit;

// 1 where the unit is measured.
pub fn measured_word(unit: Unit) -> u32
    ensures { result ≡ measured_word unit }
{
    match unit {
        Unit::Measured(_) => 1,
        Unit::Assumed(_) => 0,
    }
}

// The figures over the front of the words lent for them.
pub fn write_figures(found: Segmentation, figures: &mut [u32])
    requires { figures_length ≤ length figures.old }
    ensures { figures.new ≡ over (figure_words found) figures.old }
{
    let unit = found.unit;
    figures[0] = measured_word(unit);
    put_float(figures, 1, unit.value());
    figures[3] = found.rules;
    figures[4] = found.graphics;
    figures[5] = found.glyphs;
    figures[6] = found.lines;
    figures[7] = found.blocks;
    figures[8] = found.columns;
    figures[9] = found.ink;
    figures[10] = found.cut;
    figures[11] = found.rule;
    figures[12] = found.graphic;
    figures[13] = found.glyph;
    figures[14] = found.speck;
}
