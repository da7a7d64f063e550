// A box of dots, its corners inclusive.
ghost use Rattle.std.specs.Prelude.{◌≡◌, ◌+◌, ◌≤◌, length};
ghost use Rattle.std.proofs.lemmas.List.Edits.{sets};
ghost use Rattle.memory.specs.rules.Rects.{width, height, union, box_words, box_at};

#[derive(Clone, Copy, Debug, PartialEq, Eq)]
pub struct Rect {
    pub x0: u32,
    pub y0: u32,
    pub x1: u32,
    pub y1: u32,
}

impl Rect {
    pub fn width(self) -> u32
        requires { (self.x0 ≤ self.x1) × (self.x1 + 1 ≤ 4294967295) }
        ensures { result ≡ width self }
    {
        self.x1 + 1 - self.x0
    }

    pub fn height(self) -> u32
        requires { (self.y0 ≤ self.y1) × (self.y1 + 1 ≤ 4294967295) }
        ensures { result ≡ height self }
    {
        self.y1 + 1 - self.y0
    }

    pub fn union(self, other: Rect) -> Rect
        ensures { result ≡ union self other }
    {
        Rect {
            x0: self.x0.min(other.x0),
            y0: self.y0.min(other.y0),
            x1: self.x1.max(other.x1),
            y1: self.y1.max(other.y1),
        }
    }
}

// The box in the four words from `at` on.
pub fn box_at(words: &[u32], at: usize) -> Rect
    requires { at + 4 ≤ length words.now }
    ensures { result ≡ box_at words.now at }
{
    Rect {
        x0: words[at],
        y0: words[at + 1],
        x1: words[at + 2],
        y1: words[at + 3],
    }
}

// The box into the four words from `at` on.
pub fn put_box(words: &mut [u32], at: usize, r: Rect)
    requires { at + 4 ≤ length words.old }
    ensures { words.new ≡ sets words.old at (box_words r) }
{
    words[at] = r.x0;
    words[at + 1] = r.y0;
    words[at + 2] = r.x1;
    words[at + 3] = r.y1;
}
