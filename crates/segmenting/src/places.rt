// Where each list of results stands in the words lent for them: columns first, then rules, graphics, glyphs, lines and blocks.
ghost use Rattle.std.specs.Prelude.{◌≡◌, ◌≤◌};
ghost use Rattle.segmenting.specs.rules.Results.{result_words};
ghost use Rattle.segmenting.specs.stages.Places.{result_places};

// The words of a column, of which there is at most one a frame column; behind them, in words a component, where the lists behind the rules
// begin and where the last of them ends.
pub const COLUMN_WORDS: usize = 2;

const GRAPHICS_AT: usize = 12;

const GLYPHS_AT: usize = 16;

const LINES_AT: usize = 22;

const BLOCKS_AT: usize = 30;

const RESULTS_END: usize = 35;

// The first word of each list.
#[derive(Clone, Copy, Debug, PartialEq, Eq)]
pub struct ResultPlaces {
    pub columns: usize,
    pub rules: usize,
    pub graphics: usize,
    pub glyphs: usize,
    pub lines: usize,
    pub blocks: usize,
}

// The places for a frame w wide and so many components.
pub fn result_places(w: usize, capacity: usize) -> ResultPlaces
    requires { (w ≤ 4294967295) × (capacity ≤ 4294967295) }
    ensures { result ≡ result_places w capacity }
{
    let rules = COLUMN_WORDS * w;
    ResultPlaces {
        columns: 0,
        rules,
        graphics: rules + GRAPHICS_AT * capacity,
        glyphs: rules + GLYPHS_AT * capacity,
        lines: rules + LINES_AT * capacity,
        blocks: rules + BLOCKS_AT * capacity,
    }
}

// How many words all lists take.
pub fn result_words(w: usize, capacity: usize) -> usize
    requires { (w ≤ 4294967295) × (capacity ≤ 4294967295) }
    ensures { result ≡ result_words w capacity }
{
    COLUMN_WORDS * w + RESULTS_END * capacity
}
