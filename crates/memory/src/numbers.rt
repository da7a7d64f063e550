// Numbers' work that every crate shares.
ghost use Rattle.std.specs.Prelude.{◌≡◌, ◌*◌};

// The product of two numbers of 32 bits, which 64 bits hold.
pub fn area(width: u32, height: u32) -> usize
    ensures { result ≡ width * height }
{
    (width as usize) * (height as usize)
}
