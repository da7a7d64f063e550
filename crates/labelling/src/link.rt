// Linking: a parent for each run of ink, by union-find over the runs. A run list of c runs is 3c words: start and end of each run
// (the end excluded), then the parent of each, from the word `parents` on. Nothing here sees a mask: any run list is linked so, and one
// of which only the first c runs are known too. A run that touches one run above it takes that run's parent, or that run itself where the
// parent lies far back; roots are searched only where a run touches two with different parents.
ghost use Rattle.std.specs.Prelude.{◌≡◌, ℕ, ◌+◌, ◌*◌, ◌≤◌, ◌<◌, max, length, get_or, take, drop};
ghost use Rattle.memory.specs.rules.Limits.{max_mask_side};
ghost use Rattle.union_find.specs.stages.Forests.{Found, United, Joined, Kin};
ghost use Rattle.labelling.specs.stages.InkRuns.{start_of, end_of};
ghost use Rattle.labelling.specs.stages.Linking.{RunList, Linkable, Joinable, Skipped, Parented, LinkedOne, RowAhead, RowLinked, AllLinked};

use union_find::{find, unite};

// How many runs back a parent is near. One farther off lies in slower memory when the numbering reads it.
const NEAR: usize = 65536;

// Where a run list lies in its words: c runs are known, their parents begin at the word `parents`, and the rows are w dots wide.
#[derive(Clone, Copy, Debug, PartialEq, Eq)]
pub struct RunTable {
    pub c: usize,
    pub parents: usize,
    pub w: usize,
}

// The first run, from i on, that does not end left of the dot `start`, which is a run's first dot, moved up one row. It is run `to` at the
// latest, the first of that run's own row, so that no bound is looked at, as a `for` or `find` would.
fn skip_left(runs: &[u32], i: usize, to: usize, start: usize) -> usize
    requires { (i ≤ to) × (2 * to + 1 < length runs.now) × (start ≤ end_of runs.now 0 to) }
    ensures { Skipped i to start runs.now result }
{
    let mut k = i;
    while (runs[2 * k + 1] as usize) < start {
        k += 1;
    }
    k
}

// The classes of run k and of `member` become one; answers a run of it. Two runs with one parent need no search for their root, which may lie far off.
fn join(parents: &mut [u32], member: usize, k: usize) -> usize
    requires { (k < length parents.old) × (member < length parents.old) × (k < 4294967296) × (member < 4294967296) × ((i : ℕ) → i ≤ max member k → get_or parents.old i 0 ≤ i) }
    ensures { Joined parents.old parents.new member k result }
{
    if parents[k] as usize == member {
        return member;
    }
    let root = find(parents, member);
    unite(parents, root, k)
}

impl RunTable {
    // Joins the runs from `first` up to `to`, in the row above, that run j touches, `first` among them; answers a run of their class. Run j
    // ends at the dot `end`, moved up one row.
    fn join_touching(
        self,
        words: &mut [u32],
        first: usize,
        to: usize,
        j: usize,
        end: usize,
    ) -> usize
        requires { Joinable self.w self.c self.parents words.old first to j × (first < to) × (start_of (take (2 * self.c) words.old) first ≤ end) × (end + self.w ≡ end_of (take (2 * self.c) words.old) 0 j) }
        ensures { Parented self.w self.c self.parents words.old words.new j result }
    {
        let mut member = words[self.parents + first] as usize;
        for k in first + 1..to {
            if end < words[2 * k] as usize {
                return member;
            }
            member = join(&mut words[self.parents..], member, k);
        }
        member
    }

    // A run of the class of run k: its parent, unless that is far off; then run k itself.
    fn near_parent(self, words: &[u32], k: usize) -> usize
        requires { (self.parents + k < length words.now) × (get_or words.now (self.parents + k) 0 ≤ k) }
        ensures { Kin (drop self.parents words.now) k result }
    {
        let parent = words[self.parents + k] as usize;
        if parent + NEAR < k {
            return k;
        }
        parent
    }

    // A parent for run j, from the runs of the row above, `first` up to `to`: itself where it touches none of them. Run j ends at the dot
    // `end`, moved up one row.
    fn parent_of(self, words: &mut [u32], first: usize, to: usize, j: usize, end: usize) -> usize
        requires { Joinable self.w self.c self.parents words.old first to j × (end + self.w ≡ end_of (take (2 * self.c) words.old) 0 j) }
        ensures { Parented self.w self.c self.parents words.old words.new j result }
    {
        if to <= first {
            return j;
        }
        if end < words[2 * first] as usize {
            return j;
        }
        let next = first + 1;
        if to <= next {
            return self.near_parent(words, first);
        }
        if end < words[2 * next] as usize {
            return self.near_parent(words, first);
        }
        self.join_touching(words, first, to, j, end)
    }

    // Gives run j its parent, from the runs of the row above, i up to `to`; answers where the next run of the row may look from. Run j is
    // moved up one row, so that it is held against those runs as it is; with none of them left it is its own parent.
    fn link_one(self, words: &mut [u32], i: usize, to: usize, j: usize) -> usize
        requires { Linkable self.w self.c self.parents words.old i to j }
        ensures { LinkedOne self.w self.c self.parents words.old words.new i to j result }
    {
        if to <= i {
            words[self.parents + j] = j as u32;
            return i;
        }
        let start = words[2 * j] as usize - self.w;
        let end = words[2 * j + 1] as usize - self.w;
        let first = skip_left(words, i, to, start);
        let parent = self.parent_of(words, first, to, j, end);
        words[self.parents + j] = parent as u32;
        first
    }

    // Gives the runs of a row, those from `here` on that start before dot `limit`, their parents, and answers where they end; the runs of
    // the row above are `above` up to `here`.
    pub fn link_row(self, words: &mut [u32], above: usize, here: usize, limit: usize) -> usize
        requires { RowAhead self.w self.c self.parents limit words.old above here }
        ensures { RowLinked self.w self.c self.parents limit words.old words.new here result }
    {
        let mut i = above;
        for j in here..self.c {
            if limit <= words[2 * j] as usize {
                return j;
            }
            i = self.link_one(words, i, here, j);
        }
        self.c
    }
}

// Gives each of the c runs of a plane, w wide and h high, its parent.
pub fn link_runs(words: &mut [u32], c: usize, w: usize, h: usize)
    requires { RunList w c words.old × (h ≤ max_mask_side) × ((k : ℕ) → k < c → start_of words.old k < h * w) }
    ensures { AllLinked w c words.old words.new }
{
    let parents = 2 * c;
    let list = RunTable { c, parents, w };
    let mut above = 0;
    let mut here = 0;
    let mut base = 0;
    for y in 0..h {
        let next = list.link_row(words, above, here, base + w);
        above = here;
        here = next;
        base += w;
    }
}
