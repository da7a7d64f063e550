// Levelling a page plane, and the way back. What is outside document 01's limits, or lent too short,
// gets 0 or false, and nothing is written.
ghost use Rattle.std.specs.Prelude.{◌≡◌, length};
ghost use Rattle.levelling.specs.rules.Shears as Shears;
ghost use Rattle.stages.specs.rules.Levels.{skew_sheet, frame_word, is_levelled, PlaneTold, point_in, rect_in, corner_word};

// The value where the skew is applied, else 0.
#[unsafe(no_mangle)]
pub extern "C" fn novlizeb_applied(least: f64, skew: f64, value: f64) -> f64
    ensures { result ≡ Shears.applied (skew_sheet least) skew value }
{
    stages::novlizeb_applied(least, skew, value)
}

// The frame's height times 2^32, and its width.
#[unsafe(no_mangle)]
pub extern "C" fn novlizeb_plane_size(page_w: u32, page_h: u32, slope: f64) -> u64
    ensures { result ≡ frame_word page_w page_h slope }
{
    stages::novlizeb_plane_size(page_w, page_h, slope)
}

// A page plane moved into its frame, `fill` in the dots that are added; both shears, one after the
// other, are written too.
#[unsafe(no_mangle)]
pub extern "C" fn novlizeb_level_plane(
    page: &[u8],
    fill: u8,
    page_w: u32,
    page_h: u32,
    slope: f64,
    shears: &mut [u32],
    out: &mut [u8],
) -> bool
    ensures { PlaneTold (is_levelled page_w page_h slope (length page.now) (length shears.old) (length out.old)) page_w page_h slope fill page.now shears.old out.old result shears.new out.new }
{
    stages::novlizeb_level_plane(page, fill, page_w, page_h, slope, shears, out)
}

// The page column of frame point (x, y), by the shears that levelling wrote.
#[unsafe(no_mangle)]
pub extern "C" fn novlizeb_to_page_x(shears: &[u32], page_w: u32, x: u32, y: u32) -> i64
    ensures { result ≡ (point_in shears.now page_w x y).x }
{
    stages::novlizeb_to_page_x(shears, page_w, x, y)
}

// Its page row.
#[unsafe(no_mangle)]
pub extern "C" fn novlizeb_to_page_y(shears: &[u32], page_w: u32, x: u32, y: u32) -> i64
    ensures { result ≡ (point_in shears.now page_w x y).y }
{
    stages::novlizeb_to_page_y(shears, page_w, x, y)
}

// The first corner of the page box of a frame box, by the shears that levelling wrote: its row times 2^32,
// and its column.
#[unsafe(no_mangle)]
pub extern "C" fn novlizeb_rect_to_page_start(
    shears: &[u32],
    page_w: u32,
    page_h: u32,
    x0: u32,
    y0: u32,
    x1: u32,
    y1: u32,
) -> u64
    ensures { result ≡ corner_word (rect_in shears.now page_w page_h (record { x0 = x0; y0 = y0; x1 = x1; y1 = y1 })).x0 (rect_in shears.now page_w page_h (record { x0 = x0; y0 = y0; x1 = x1; y1 = y1 })).y0 }
{
    stages::novlizeb_rect_to_page_start(shears, page_w, page_h, x0, y0, x1, y1)
}

// Its last corner.
#[unsafe(no_mangle)]
pub extern "C" fn novlizeb_rect_to_page_end(
    shears: &[u32],
    page_w: u32,
    page_h: u32,
    x0: u32,
    y0: u32,
    x1: u32,
    y1: u32,
) -> u64
    ensures { result ≡ corner_word (rect_in shears.now page_w page_h (record { x0 = x0; y0 = y0; x1 = x1; y1 = y1 })).x1 (rect_in shears.now page_w page_h (record { x0 = x0; y0 = y0; x1 = x1; y1 = y1 })).y1 }
{
    stages::novlizeb_rect_to_page_end(shears, page_w, page_h, x0, y0, x1, y1)
}
