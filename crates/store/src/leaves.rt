// Levelling a leaf into a store and its ink plane.
ghost use Rattle.std.specs.Prelude.{◌≡◌, ◌∷◌, ◌++◌, ◌+◌, ◌*◌, ◌≤◌, length};
ghost use Rattle.memory.specs.rules.Words.{over, put_at};
ghost use Rattle.rounding.specs.rules.Drift.{WithinOne};
ghost use Rattle.levelling.specs.rules.Frames.{PageSides, frame};
ghost use Rattle.levelling.specs.rules.Planes.{levelled};
ghost use Rattle.judging.specs.rules.Header.{header_words, figures_at};
ghost use Rattle.store.specs.rules.Written.{head_words};
ghost use Rattle.store.specs.rules.Handed.{leaf_handed};
ghost use Rattle.store.specs.rules.Outcomes.{left, level_left};
ghost use Rattle.memory.specs.rules.Refusals.{answer_number};

use judging::{
    CAPACITY, FRAME_HEIGHT, FRAME_WIDTH, HEADER, LEVELLED, PAGE_HEIGHT, PAGE_WIDTH, SKEW, SLOPE,
    STATE, judge_leaf, judge_place,
};
use memory::{Refusal, copy_over, put_float};
use params::LayoutParams;

// What levelling is handed beside mask and sheet (01, part 3).
#[derive(Clone, Copy, Debug, PartialEq)]
pub struct Handed {
    pub width: u32,
    pub height: u32,
    pub skew: f64,
    pub slope: f64,
    pub capacity: u32,
}

impl Handed {
    pub fn new(width: u32, height: u32, skew: f64, slope: f64, capacity: u32) -> Self
        ensures { result ≡ record { width = width; height = height; skew = skew; slope = slope; capacity = capacity } }
    {
        Self {
            width,
            height,
            skew,
            slope,
            capacity,
        }
    }
}

// What the store's head says of a levelled leaf: the sides of page and frame, the capacity, the applied skew and slope.
#[derive(Clone, Copy, Debug, PartialEq)]
struct Head {
    page_w: u32,
    page_h: u32,
    w: u32,
    h: u32,
    capacity: u32,
    skew: f64,
    slope: f64,
}

// State and words 1 to 9 over the front.
fn write_head(a: Head, store: &mut [u32])
    requires { figures_at ≤ length store.old }
    ensures { store.new ≡ over (1 ∷ head_words a.page_w a.page_h a.w a.h a.capacity a.skew a.slope) store.old }
{
    let mut head = [0u32; 10];
    head[STATE] = LEVELLED;
    head[PAGE_WIDTH] = a.page_w;
    head[PAGE_HEIGHT] = a.page_h;
    head[FRAME_WIDTH] = a.w;
    head[FRAME_HEIGHT] = a.h;
    head[CAPACITY] = a.capacity;
    put_float(&mut head, SKEW, a.skew);
    put_float(&mut head, SLOPE, a.slope);
    copy_over(store, &head);
}

// Both shears, and the mask moved by them.
fn move_page(mask: &[u8], a: Head, shears: &mut [u32], ink: &mut [u8])
    requires sides { PageSides a.page_w a.page_h }
    requires slope { WithinOne a.slope }
    requires frame_sides { (a.w ≡ (frame a.page_w a.page_h a.slope).w) × (a.h ≡ (frame a.page_w a.page_h a.slope).h) }
    requires room { (length mask.now ≡ a.page_w * a.page_h) × (a.page_w + a.h ≤ length shears.old) × (a.w * a.h ≤ length ink.old) }
    ensures { (shears.new ≡ over ((frame a.page_w a.page_h a.slope).shear ++ (frame a.page_w a.page_h a.slope).shear_x) shears.old) × (ink.new ≡ over (levelled (frame a.page_w a.page_h a.slope) 0 mask.now) ink.old) }
{
    let pw = a.page_w as usize;
    let ph = a.page_h as usize;
    let w = a.w as usize;
    let h = a.h as usize;
    let end = pw + h;
    levelling::fill_shears(shears, a.page_w, a.page_h, a.slope);
    let sides = levelling::Sides {
        page_w: pw,
        page_h: ph,
        w,
        h,
    };
    levelling::level_plane(mask, 0, sides, &shears[0..pw], &shears[pw..end], ink);
}

// Header, shears and ink plane of a leaf that is accepted.
fn write_leaf(mask: &[u8], a: Head, store: &mut [u32], ink: &mut [u8])
    requires sides { PageSides a.page_w a.page_h }
    requires slope { WithinOne a.slope }
    requires frame_sides { (a.w ≡ (frame a.page_w a.page_h a.slope).w) × (a.h ≡ (frame a.page_w a.page_h a.slope).h) }
    requires room { (length mask.now ≡ a.page_w * a.page_h) × (header_words + (a.page_w + a.h) ≤ length store.old) × (a.w * a.h ≤ length ink.old) }
    ensures { (store.new ≡ put_at header_words ((frame a.page_w a.page_h a.slope).shear ++ (frame a.page_w a.page_h a.slope).shear_x) (over (1 ∷ head_words a.page_w a.page_h a.w a.h a.capacity a.skew a.slope) store.old)) × (ink.new ≡ over (levelled (frame a.page_w a.page_h a.slope) 0 mask.now) ink.old) }
{
    write_head(a, store);
    move_page(mask, a, &mut store[HEADER..], ink);
}

// Levels a mask: the refusal, or the leaf in the store and the ink plane.
pub fn level(
    mask: &[u8],
    a: Handed,
    sheet: LayoutParams,
    store: &mut [u32],
    ink: &mut [u8],
) -> Result<(), Refusal>
    ensures { left (answer_number result) store.new ink.new ≡ level_left (leaf_handed mask.now a sheet) store.old ink.old }
{
    judge_leaf(mask, a.width, a.height, a.skew, a.slope, sheet, a.capacity)?;
    let skew = levelling::applied(sheet, a.skew, a.skew);
    let slope = levelling::applied(sheet, a.skew, a.slope);
    let size = levelling::frame_size(a.width, a.height, slope);
    judge_place(a.width, size.w, size.h, a.capacity, store, ink.len())?;
    let head = Head {
        page_w: a.width,
        page_h: a.height,
        w: size.w,
        h: size.h,
        capacity: a.capacity,
        skew,
        slope,
    };
    write_leaf(mask, head, store, ink);
    Ok(())
}
