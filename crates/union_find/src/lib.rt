// Union-find: a parent for each of some numbers, none above the number itself; each class is named by its first, its root. Runs of ink and lines of
// type are joined by it.
#![tactic(auto)]

ghost use Rattle.std.specs.Prelude.{ℕ, ◌≤◌, ◌<◌, length, get_or};
ghost use Rattle.union_find.specs.stages.Forests.{Found, United};

// The root of x; each second parent on the way is passed over from now on.
pub fn find(parents: &mut [u32], x: usize) -> usize
    requires { (x < length parents.old) × ((j : ℕ) → j ≤ x → get_or parents.old j 0 ≤ j) }
    ensures { Found parents.old parents.new x result }
{
    // a walk, not a count: from parent to parent
    let mut i = x;
    let mut parent = parents[i] as usize;
    while parent != i {
        let grand = parents[parent];
        parents[i] = grand;
        i = grand as usize;
        parent = parents[i] as usize;
    }
    i
}

// The classes of a root and of k become one: the larger root gets the smaller for its parent, which is the answer.
pub fn unite(parents: &mut [u32], root: usize, k: usize) -> usize
    requires { (k < length parents.old) × (root < length parents.old) × (k < 4294967296) × (root < 4294967296) × ((j : ℕ) → j ≤ k → get_or parents.old j 0 ≤ j) }
    ensures { United parents.old parents.new root k result }
{
    let other = find(parents, k);
    if other < root {
        parents[root] = other as u32;
        return other;
    }
    parents[other] = root as u32;
    root
}
