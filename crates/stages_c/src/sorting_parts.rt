// Thin rulings, the dots and the cuts of an ink plane, and the kind of a component by its size.
ghost use Rattle.std.specs.Prelude.{◌≡◌, ◌*◌, ◌-◌, length, drop};
ghost use Rattle.memory.specs.rules.Limits.{scratch_words};
ghost use Rattle.params.specs.rules.Valid.{float_zero};
ghost use Rattle.sorting.specs.rules.Kinds.{kind_by_size};
ghost use Rattle.rulings.specs.rules.Rulings.{run_min, thick_max};
ghost use Rattle.stages.specs.rules.Frames.{told};
ghost use Rattle.stages.specs.rules.Sorting.{rulings_fit, RulingsTold, cut_rulings, size_sheet};

// The dots of thin rulings, a word a dot from word `marks` on: 1 in a horizontal one, 2 in a vertical one, 3 in
// both; the words before are worked in. False, and nothing written, where something is outside its limits or too short.
#[unsafe(no_mangle)]
pub extern "C" fn novlizeb_thin_rulings(
    ink: &[u8],
    width: u32,
    height: u32,
    run_min: u32,
    thick_max: u32,
    words: &mut [u32],
    marks: u32,
) -> bool
    ensures { RulingsTold (rulings_fit (length ink.now) width height run_min (length words.old - marks) marks) run_min thick_max width height marks ink.now words.old result words.new }
{
    stages::novlizeb_thin_rulings(ink, width, height, run_min, thick_max, words, marks)
}

// The thin rulings of an ink plane, cut and labelled: counts then holds how many components the horizontal cut mask has, and the
// vertical one. Any byte but 0 is ink, and a least run below 2 counts as 2. The words are worked in. The answer is 0, or document
// 01's number of a refusal, which writes nothing but scratch, and that only with 20.
#[unsafe(no_mangle)]
pub extern "C" fn novlizeb_cut_rulings(
    ink: &[u8],
    width: u32,
    height: u32,
    run_min: u32,
    thick_max: u32,
    capacity: u32,
    words: &mut [u32],
    counts: &mut [u32],
) -> u32
    ensures { told result counts.new (length words.new) (drop (scratch_words (width * height) capacity) words.new) ≡ cut_rulings run_min thick_max width height ink.now capacity words.old counts.old }
{
    stages::novlizeb_cut_rulings(
        ink, width, height, run_min, thick_max, capacity, words, counts,
    )
}

// The least run of a thin ruling, in dots.
#[unsafe(no_mangle)]
pub extern "C" fn novlizeb_run_min(rule_run_xh: f64, unit: f64) -> u32
    ensures { result ≡ run_min (size_sheet 0 float_zero float_zero float_zero rule_run_xh float_zero) unit }
{
    stages::novlizeb_run_min(rule_run_xh, unit)
}

// Its greatest thickness.
#[unsafe(no_mangle)]
pub extern "C" fn novlizeb_thick_max(rule_max_thick_xh: f64, unit: f64) -> u32
    ensures { result ≡ thick_max (size_sheet 0 float_zero float_zero rule_max_thick_xh float_zero float_zero) unit }
{
    stages::novlizeb_thick_max(rule_max_thick_xh, unit)
}

// The kind of a component of this area, width and height, in a frame w wide and h high: 2 rule, 3
// graphic, 4 glyph, 5 speck. `value` is the unit, which does not show whether it was measured.
#[unsafe(no_mangle)]
pub extern "C" fn novlizeb_kind_by_size(
    glyph_min_area: u32,
    glyph_max_extent_frac: f64,
    rule_min_len_xh: f64,
    rule_max_thick_xh: f64,
    graphic_min_xh: f64,
    measured: bool,
    value: f64,
    w: u32,
    h: u32,
    area: u32,
    width: u32,
    height: u32,
) -> u32
    ensures { result ≡ kind_by_size (size_sheet glyph_min_area glyph_max_extent_frac rule_min_len_xh rule_max_thick_xh float_zero graphic_min_xh) value w h area width height }
{
    stages::novlizeb_kind_by_size(
        glyph_min_area,
        glyph_max_extent_frac,
        rule_min_len_xh,
        rule_max_thick_xh,
        graphic_min_xh,
        measured,
        value,
        w,
        h,
        area,
        width,
        height,
    )
}
