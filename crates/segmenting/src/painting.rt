// The plane of kinds: the ink, with the kind of its component on the dots of each run.
ghost use Rattle.std.specs.Prelude.{◌≡◌, List, ℕ, ◌*◌};
ghost use Rattle.memory.specs.rules.Lists.{table};
ghost use Rattle.memory.specs.rules.Words.{over};
ghost use Rattle.labelling.specs.rules.Labels.{labelling};
ghost use Rattle.segmenting.specs.stages.Painting.{painted_kind, RunPaintable, RunPainted, Paintable};

use memory::copy_over;

// The ink from dot `done` up to run k, and the kind of its component on the run; answers where the run ends.
fn paint_run(
    ink: &[u8],
    words: &[u32],
    runs: usize,
    kinds: usize,
    k: usize,
    done: usize,
    out: &mut [u8],
) -> usize
    requires { RunPaintable words.now runs kinds k done ink.now out.old }
    ensures { RunPainted words.now runs kinds k done ink.now out.old out.new result }
{
    let start = words[2 * k] as usize;
    let end = words[2 * k + 1] as usize;
    let number = words[2 * runs + k] as usize;
    let kind = words[kinds + (number - 1)] % 8;
    copy_over(&mut out[done..start], &ink[done..start]);
    out[start..end].fill(kind as u8);
    end
}

// Paints the plane of kinds of an ink plane, whose components have their numbers behind the runs and their kinds from word `kinds` on.
pub fn paint_kinds(ink: &[u8], words: &[u32], runs: usize, kinds: usize, out: &mut [u8])
    requires { (w h : ℕ) × (m : List ℕ) × Paintable w h m ink.now words.now runs kinds out.old }
    ensures { (w h : ℕ) (m : List ℕ) → Paintable w h m ink.now words.now runs kinds out.old
        → out.new ≡ over (table (painted_kind m (labelling w h m).labels words.now kinds ink.now) (w * h)) out.old }
{
    let mut done = 0;
    for k in 0..runs {
        done = paint_run(ink, words, runs, kinds, k, done, out);
    }
    copy_over(&mut out[done..ink.len()], &ink[done..]);
}
