// Words and bytes of a lent slice.
ghost use Rattle.std.specs.Prelude.{◌≡◌, ◌≤◌, length};
ghost use Rattle.memory.specs.rules.Lists.{table};
ghost use Rattle.memory.specs.rules.Words.{word_at, over};

// The word at k, 0 past the end: a header can be judged before its length is.
pub fn word_at(s: &[u32], k: usize) -> u32
    ensures { result ≡ word_at s.now k }
{
    if k < s.len() { s[k] } else { 0 }
}

// The whole of src over the front of dst; what lies past it stays.
pub fn copy_over<T: Copy>(dst: &mut [T], src: &[T])
    requires { length src.now ≤ length dst.old }
    ensures { dst.new ≡ over src.now dst.old }
{
    // word by word: the library's copy calls `memmove`, which an archive for C would have to be given
    for i in 0..src.len() {
        dst[i] = src[i];
    }
}

// v in every place.
pub fn fill<T: Copy>(dst: &mut [T], v: T)
    ensures { dst.new ≡ table (λ _. v) (length dst.old) }
{
    for i in 0..dst.len() {
        dst[i] = v;
    }
}
