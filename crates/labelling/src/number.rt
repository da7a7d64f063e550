// Numbering: each run gets the number of its component in the place of its parent, counted from 1 by first run.
ghost use Rattle.std.specs.Prelude.{◌≡◌, ℕ, ◌+◌, ◌≤◌, ◌<◌, length, get_or};
ghost use Rattle.memory.specs.rules.Limits.{max_capacity};
ghost use Rattle.labelling.specs.stages.Numbering.{NumberedOne, Numbered};

// Run k gets its number, the runs before it having theirs: a root the next after `count`, else its parent's. Answers the count then.
fn number_one(parents: &mut [u32], k: usize, count: usize) -> usize
    requires { (k < length parents.old) × (get_or parents.old k 0 ≤ k) × (count < 4294967295) }
    ensures { NumberedOne parents.old parents.new k count result }
{
    let parent = parents[k] as usize;
    if parent == k {
        parents[k] = (count + 1) as u32;
        return count + 1;
    }
    parents[k] = parents[parent];
    count
}

// The numbers of c runs, and how many components there are; capacity + 1 as soon as there are more than that.
pub fn number_runs(parents: &mut [u32], c: usize, capacity: usize) -> usize
    requires { (c ≤ length parents.old) × (capacity ≤ max_capacity) × ((j : ℕ) → j < c → get_or parents.old j 0 ≤ j) }
    ensures { Numbered c capacity parents.old parents.new result }
{
    let mut count = 0;
    for k in 0..c {
        count = number_one(parents, k, count);
        if capacity < count {
            return count;
        }
    }
    count
}
