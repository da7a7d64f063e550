// The printed sheet, out of a store.
ghost use Rattle.std.specs.Prelude.{◌≡◌, ◌<◌, ◌≤◌, length};
ghost use Rattle.memory.specs.rules.Words.{over};
ghost use Rattle.store.specs.rules.Readings.{ResultReading};
ghost use Rattle.store.specs.rules.Readings.Output.{words};
ghost use Rattle.store.specs.rules.Outcomes.{told, result_told};
ghost use Rattle.memory.specs.rules.Refusals.{answer_number, answer_value};
ghost use Rattle.store.specs.stages.Areas.{ListsAt, sheet_read};

use judging::{
    CAPACITY, FIGURES, FIGURES_END, FRAME_HEIGHT, FRAME_WIDTH, PAGE_HEIGHT, PAGE_WIDTH,
    judge_reading, lists_at,
};
use listing::{SheetSides, sheet_length, write_sheet_text};
use memory::Refusal;
use segmenting::result_places;

// How long the sheet is.
fn sheet_size(store: &[u32]) -> usize
    requires { ListsAt store.now }
    ensures { (result ≡ length (sheet_read store.now)) × (result < 4294967296) }
{
    sheet_length(&store[FIGURES..FIGURES_END])
}

// The sheet over the front of the bytes lent.
fn put_sheet(store: &[u32], out: &mut [u8])
    requires lists { ListsAt store.now }
    requires room { length (sheet_read store.now) ≤ length out.old }
    ensures { out.new ≡ over (sheet_read store.now) out.old }
{
    let w = store[FRAME_WIDTH];
    let h = store[FRAME_HEIGHT];
    let page_w = store[PAGE_WIDTH];
    let page_h = store[PAGE_HEIGHT];
    let sides = SheetSides {
        w,
        h,
        page_w,
        page_h,
    };
    let at = lists_at(page_w, h);
    let places = result_places(w as usize, store[CAPACITY] as usize);
    write_sheet_text(
        out,
        sides,
        &store[FIGURES..FIGURES_END],
        &store[at..],
        places,
    );
}

// Writes the sheet: how many bytes it has, and these over the front of the bytes lent.
pub fn write_sheet(store: &[u32], ink: &[u8], kinds: &[u8], out: &mut [u8]) -> Result<u32, Refusal>
    ensures { told (answer_number result) (answer_value result) (words out.new) ≡ result_told (ResultReading.listing out.old) store.now ink.now kinds.now }
{
    judge_reading(store, ink, kinds, false)?;
    let size = sheet_size(store);
    if out.len() < size {
        return Err(Refusal::Lent);
    }
    put_sheet(store, out);
    Ok(size as u32)
}
