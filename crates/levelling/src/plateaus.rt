// A page plane moved into the frame by frame row, for gentle slopes, where columns next to each other mostly move by the same
// number of rows: such a plateau is copied at once, 64 bytes or a multiple where that fits the row. What a copy writes behind its plateau
// the next one writes anew.
ghost use Rattle.std.specs.Prelude.{◌≡◌, ◌+◌, ◌*◌, ◌^◌, ◌≤◌, ◌<◌, length, get_or};
ghost use Rattle.memory.specs.rules.Limits.{max_page_side};
ghost use Rattle.memory.specs.rules.Lists.{table};
ghost use Rattle.memory.specs.rules.Words.{over};
ghost use Rattle.levelling.specs.rules.Planes.{levelled};
ghost use Rattle.levelling.specs.stages.Rooms.{PlaneFits};
ghost use Rattle.levelling.specs.stages.Moves.{Plateau, Plateaus, column_at};
ghost use Rattle.levelling.specs.stages.Held.{frame_held};

use crate::page_plane::PagePlane;
use memory::{MAX_PAGE_SIDE, copy_over, fill};

// The columns of the widest page.
const COLUMNS: usize = MAX_PAGE_SIDE as usize;

// What is copied is a multiple of this where it can be: so many bytes are copied without a loop, and an odd rest one by one.
const CHUNK: usize = 64;

impl PagePlane<'_> {
    // The plane moved into the frame, row by row.
    pub fn level_by_plateaus(&self, out: &mut [u8])
        requires planes { PlaneFits (frame_held self.now) self.now.page.now out.old }
        requires narrow { self.now.sides.page_w ≤ max_page_side }
        ensures { out.new ≡ over (levelled (frame_held self.now) self.now.fill self.now.page.now) out.old }
    {
        let mut ends = [0u32; COLUMNS];
        plateau_ends(self.shear, &mut ends);
        self.level_rows(&ends, out);
    }

    // The rows of the frame, one after the other: the page's columns between added dots.
    fn level_rows(&self, ends: &[u32], out: &mut [u8])
        requires planes { PlaneFits (frame_held self.now) self.now.page.now out.old }
        requires room { self.now.sides.page_w ≤ length ends.now }
        requires plateaus { Plateaus self.now.shear.now ends.now 0 }
        ensures { out.new ≡ over (levelled (frame_held self.now) self.now.fill self.now.page.now) out.old }
    {
        let w = self.sides.w;
        for r in 0..self.sides.h {
            let start = r * w;
            let left = start + self.shear_x[r] as usize;
            let right = left + self.sides.page_w;
            fill(&mut out[start..left], self.fill);
            self.level_columns(ends, r, &mut out[left..right]);
            fill(&mut out[right..start + w], self.fill);
        }
    }

    // The page's columns in frame row r, plateau by plateau.
    fn level_columns(&self, ends: &[u32], r: usize, out: &mut [u8])
        requires room { (length self.now.page.now ≡ self.now.sides.page_w * self.now.sides.page_h) × (length self.now.shear.now ≡ self.now.sides.page_w) × (length out.old ≡ self.now.sides.page_w) × (self.now.sides.page_w ≤ length ends.now) }
        requires plateaus { Plateaus self.now.shear.now ends.now 0 }
        ensures { out.new ≡ table (λ c. column_at self.now.page.now self.now.fill self.now.sides.page_w self.now.sides.page_h r (get_or self.now.shear.now c 0) c) self.now.sides.page_w }
    {
        let page_w = self.sides.page_w;
        let mut c = 0;
        // a walk from plateau to plateau: no range gives its columns
        while c < page_w {
            let e = ends[c] as usize;
            let s = self.shear[c] as usize;
            let to = chunk_end(c, e, page_w);
            self.level_plateau(r, s, c, &mut out[c..to]);
            c = e;
        }
    }

    // The columns c, c + 1, .. of frame row r, which all move by s rows.
    fn level_plateau(&self, r: usize, s: usize, c: usize, out: &mut [u8])
        requires page_size { length self.now.page.now ≡ self.now.sides.page_w * self.now.sides.page_h }
        requires inside { c + length out.old ≤ self.now.sides.page_w }
        ensures { out.new ≡ table (λ i. column_at self.now.page.now self.now.fill self.now.sides.page_w self.now.sides.page_h r s (c + i)) (length out.old) }
    {
        if r < s || self.sides.page_h <= r - s {
            fill(out, self.fill);
            return;
        }
        let from = (r - s) * self.sides.page_w + c;
        copy_columns(out, &self.page[from..from + out.len()]);
    }
}

// Where a copy of the columns from c up to e may end: what lies behind e comes after it and is written anew.
fn chunk_end(c: usize, e: usize, page_w: usize) -> usize
    requires { (c ≤ e) × (e ≤ page_w) × (e < 2 ^ 32) }
    ensures { (e ≤ result) × (result ≤ page_w) }
{
    let n = (e - c).next_multiple_of(CHUNK);
    if n <= page_w - c { c + n } else { e }
}

// The whole of src over the front of dst: most plateaus are one chunk, and its known length spares the loop.
fn copy_columns(dst: &mut [u8], src: &[u8])
    requires { length src.now ≤ length dst.old }
    ensures { dst.new ≡ over src.now dst.old }
{
    if src.len() == CHUNK {
        copy_chunk(dst, src);
        return;
    }
    copy_over(dst, src);
}

// The same of one chunk, all of it read before any of it is written: then the machine moves it in its widest steps.
fn copy_chunk(dst: &mut [u8], src: &[u8])
    requires { (length src.now ≡ 64) × (length src.now ≤ length dst.old) }
    ensures { dst.new ≡ over src.now dst.old }
{
    let mut chunk = [0u8; CHUNK];
    copy_over(&mut chunk, &src[0..CHUNK]);
    copy_over(dst, &chunk);
}

// The end of the plateau that begins at each column, the last column first.
fn plateau_ends(shear: &[u32], ends: &mut [u32])
    requires { (length shear.now ≤ length ends.old) × (length shear.now ≤ max_page_side) }
    ensures { Plateaus shear.now ends.new 0 }
{
    for c in (0..shear.len()).rev() {
        ends[c] = plateau_end(shear, ends, c);
    }
}

// The end of the plateau that begins at column c, by the one that begins behind it.
fn plateau_end(shear: &[u32], ends: &[u32], c: usize) -> u32
    requires room { (c < length shear.now) × (length shear.now ≤ length ends.now) × (length shear.now ≤ max_page_side) }
    requires plateaus { Plateaus shear.now ends.now (c + 1) }
    ensures { Plateau shear.now c result }
{
    let next = c + 1;
    if next < shear.len() && shear[next] == shear[c] {
        ends[next]
    } else {
        next as u32
    }
}
