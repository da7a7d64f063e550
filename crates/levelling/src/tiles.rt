// A page plane moved into the frame by page dot, for steep slopes, where columns next to each other move by different numbers of
// rows. A chunk of dots that are as added dots are lies at its places already and is passed over.
// Filling and moving the frame band by band was slower, since the page is then read in short parts, and so were narrower tiles.
ghost use Rattle.std.specs.Prelude.{◌≡◌, Bool, true, List, ℕ, ◌+◌, ◌≤◌, ◌<◌, length, get_or};
ghost use Rattle.memory.specs.rules.Words.{over};
ghost use Rattle.levelling.specs.rules.Planes.{levelled};
ghost use Rattle.levelling.specs.stages.Rooms.{PlaneFits};
ghost use Rattle.levelling.specs.stages.Moves.{partly, or_rows};
ghost use Rattle.levelling.specs.stages.Held.{frame_held, frame_moved, FitsPart, MovesHeld};

use crate::page_plane::PagePlane;
use memory::fill;

// The columns of a tile, and the most frame rows that one tile goes to at a time: more are slow to store to, which was measured.
const TILE: usize = 1024;

// The dots of a chunk, and of a quarter of one: what is blank is found by its known length, without a loop.
const CHUNK: usize = 64;

const QUARTER: usize = 16;

// A part of a page row: n dots of row y, from column c on.
#[derive(Clone, Copy, Debug, PartialEq, Eq)]
struct Part {
    y: usize,
    c: usize,
    n: usize,
}

// A way to move a part of a page row: each dot that is not as added dots are goes to its place.
trait Way {
    fn move_part(&self, plane: &PagePlane, part: Part, out: &mut [u8])
        requires fits { FitsPart plane.now part out.old }
        ensures { MovesHeld plane.now part out.old out.new };
}

// Dot by dot.
#[derive(Clone, Copy, Debug, PartialEq, Eq)]
struct Dots;

// Piece by piece of N dots, the finer way. A piece of dots that are as added dots are lies at its places already.
#[derive(Drop)]
struct Pieces<const N: usize, W> {
    finer: W,
    ghost some: { 0 < N },
}

impl PagePlane<'_> {
    // The plane moved into the frame, tile by tile, or at once where the shear adds few rows.
    pub fn level_by_tiles(&self, out: &mut [u8])
        requires { PlaneFits (frame_held self.now) self.now.page.now out.old }
        ensures { out.new ≡ over (levelled (frame_held self.now) self.now.fill self.now.page.now) out.old }
    {
        let page_w = self.sides.page_w;
        let dots = self.sides.w * self.sides.h;
        fill(&mut out[..dots], self.fill);
        if self.sides.h - self.sides.page_h <= TILE {
            self.move_tile(0, page_w, out);
            return;
        }
        for tile in 0..page_w.div_ceil(TILE) {
            let c = tile * TILE;
            self.move_tile(c, TILE.min(page_w - c), out);
        }
    }

    // The n columns from c on, page row by page row.
    fn move_tile(&self, c: usize, n: usize, out: &mut [u8])
        requires planes { PlaneFits (frame_moved self.now) self.now.page.now out.old }
        requires inside { c + n ≤ self.now.sides.page_w }
        ensures { (done : ℕ → Bool) (s : List ℕ) → out.old ≡ partly (frame_moved self.now) self.now.fill self.now.page.now done s → out.new ≡ partly (frame_moved self.now) self.now.fill self.now.page.now (or_rows done self.now.sides.page_w c n self.now.sides.page_h) s }
    {
        let way = Pieces::<CHUNK, Pieces<QUARTER, Dots>> {
            finer: Pieces { finer: Dots },
        };
        // a copy, which no store to `out` can change: its fields are read once
        let plane = *self;
        for y in 0..plane.sides.page_h {
            way.move_part(&plane, Part { y, c, n }, out);
        }
    }
}

impl Way for Dots {
    fn move_part(&self, plane: &PagePlane, part: Part, out: &mut [u8]) {
        let from = part.y * plane.sides.page_w;
        for i in 0..part.n {
            let column = part.c + i;
            let dot = plane.page[from + column];
            if dot != plane.fill {
                let r = part.y + plane.shear[column] as usize;
                let x = column + plane.shear_x[r] as usize;
                out[r * plane.sides.w + x] = dot;
            }
        }
    }
}

impl<const N: usize, W: Way> Way for Pieces<N, W> {
    fn move_part(&self, plane: &PagePlane, part: Part, out: &mut [u8]) {
        let row = part.y * plane.sides.page_w;
        let whole = part.n / N;
        for piece in 0..whole {
            let c = part.c + piece * N;
            let from = row + c;
            if !all_equal(&plane.page[from..from + N], plane.fill) {
                self.finer
                    .move_part(plane, Part { y: part.y, c, n: N }, out);
            }
        }
        let done = whole * N;
        let rest = Part {
            y: part.y,
            c: part.c + done,
            n: part.n - done,
        };
        Dots.move_part(plane, rest, out);
    }
}

// Whether every byte is v: no early end, so that the machine looks at many at once.
fn all_equal(part: &[u8], v: u8) -> bool
    ensures { result ≡ true → (i : ℕ) → i < length part.now → get_or part.now i 0 ≡ v }
{
    let mut equal = true;
    for x in part {
        equal &= *x == v;
    }
    equal
}
