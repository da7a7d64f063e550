// The digits of each word of an entry, by kind.
ghost use Rattle.std.specs.Prelude.{◌≡◌, ◌<◌};
ghost use Rattle.listing.specs.rules.Sheets.{field_count, field_digits};
ghost use Rattle.listing.specs.stages.Parts.{entry_length};

// How many words an entry of a kind has.
const COUNTS: [u32; 8] = [7, 8, 5, 4, 4, 6, 2, 6];

// The digits of each of its words, a hexadecimal digit a word, from the first on.
const FORMATS: [u32; 8] = [
    0x2444_4880,
    0x4444_8843,
    0x4444_3000,
    0x4444_0000,
    0x4444_0000,
    0x4444_8300,
    0x4400_0000,
    0x8888_8800,
];

// How many words an entry of a kind has.
pub fn field_count(kind: usize) -> usize
    requires { kind < 8 }
    ensures { result ≡ field_count kind }
{
    COUNTS[kind] as usize
}

// The digits of its word j.
pub fn field_digits(kind: usize, j: usize) -> usize
    requires { (kind < 8) × (j < 8) }
    ensures { result ≡ field_digits kind j }
{
    let shift = 28 - 4 * j;
    let format = FORMATS[kind] as usize;
    (format >> shift) % 16
}

// The bytes of an entry of a kind: two digits of kind, its words, a line feed.
pub fn entry_length(kind: usize) -> usize
    requires { kind < 8 }
    ensures { (result ≡ entry_length kind) × (result < 256) }
{
    let mut bytes = 3;
    for j in 0..field_count(kind) {
        bytes += field_digits(kind, j);
    }
    bytes
}
