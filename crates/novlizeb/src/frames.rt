// The frame and the way back to the page, under their C names.
ghost use Rattle.std.specs.Prelude.{◌≡◌};
ghost use Rattle.store.specs.rules.Outcomes.{told, level_told};
ghost use Rattle.store.specs.rules.Readings.{LevelReading};
ghost use Rattle.store.specs.rules.Readings.Output.{words, integers};
ghost use Rattle.novlizeb.specs.rules.Boxes.{rect_of};
ghost use Rattle.novlizeb.specs.rules.Frames.{frame_size};

use memory::{Rect, number_of};

// The page's column and row of a frame point: two numbers.
#[unsafe(no_mangle)]
pub extern "C" fn novlizeb_to_page(store: &[u32], x: u32, y: u32, point: &mut [i32]) -> u32
    ensures { told result 0 (integers point.new) ≡ level_told (LevelReading.point x y point.old) store.now }
{
    number_of(store::to_page(store, x, y, point))
}

// The page box of a frame box: four numbers.
#[unsafe(no_mangle)]
pub extern "C" fn novlizeb_rect_to_page(
    store: &[u32],
    x0: u32,
    y0: u32,
    x1: u32,
    y1: u32,
    rect: &mut [i32],
) -> u32
    ensures { told result 0 (integers rect.new) ≡ level_told (LevelReading.box (rect_of x0 y0 x1 y1) rect.old) store.now }
{
    number_of(store::rect_to_page(store, Rect { x0, y0, x1, y1 }, rect))
}

// A gray plane of the page moved into the frame; dots that the frame adds are 255.
#[unsafe(no_mangle)]
pub extern "C" fn novlizeb_level_gray(store: &[u32], gray: &[u8], out: &mut [u8]) -> u32
    ensures { told result 0 (words out.new) ≡ level_told (LevelReading.gray gray.now out.old) store.now }
{
    number_of(store::level_gray(store, gray, out))
}

// Page sides, frame sides, applied skew and applied slope: eight words.
#[unsafe(no_mangle)]
pub extern "C" fn novlizeb_read_frame(store: &[u32], out: &mut [u32]) -> u32
    ensures { told result 0 (words out.new) ≡ level_told (LevelReading.frame_figures out.old) store.now }
{
    number_of(store::read_frame(store, out))
}

// The height times 2^32, and the width, of the frame that a page of these sides has under a slope; 0 outside the limits.
#[unsafe(no_mangle)]
pub extern "C" fn novlizeb_frame_size(width: u32, height: u32, slope: f64) -> u64
    ensures { result ≡ frame_size width height slope }
{
    if !judging::is_page(width, height, slope) {
        return 0;
    }
    let size = levelling::frame_size(width, height, slope);
    (size.h as u64) * 4294967296 + size.w as u64
}
