// The kinds of case that have a mask: labelling and run extents called by themselves.
ghost use Rattle.std.specs.Prelude.{◌<◌};

use crate::text;
use extents::Along;
use memory::{Refusal, word_of};

// The most dots of a mask.
const MOST_DOTS: usize = 5120;

// The most dots of a full run.
const MOST_RUN: usize = 70000;

// The digits before a mask: those of three words.
pub const MASK_FROM: usize = 48;

// The words of a piece's record.
const RECORD: usize = 9;

// The records of 64 pieces, and scratch for them and MOST_DOTS dots.
const RECORD_WORDS: usize = 576;

const SCRATCH_WORDS: usize = 21568;

// The sides of a mask.
#[derive(Clone, Copy, Debug, PartialEq, Eq)]
struct Size {
    width: u32,
    height: u32,
}

// How many dots they have: two numbers of 32 bits have a product of 64.
pub fn dots(width: u32, height: u32) -> usize {
    (width as usize) * (height as usize)
}

// One of the four dots of a digit, the left one highest.
fn dot_of(digit: u8, k: usize) -> u8 {
    match k {
        0 => digit / 8 % 2,
        1 => digit / 4 % 2,
        2 => digit / 2 % 2,
        _ => digit % 2,
    }
}

// Dot i of the mask that the digits spell, four dots a digit; blank past the last.
pub fn dot(digits: &[u8], i: usize) -> u8 {
    let at = i / 4;
    if at < digits.len() {
        text::digit(digits[at]).map_or(0, |d| dot_of(d, i % 4))
    } else {
        0
    }
}

// The mask that the digits spell, as many dots as there is room.
pub fn read_mask(digits: &[u8], mask: &mut [u8]) {
    for (i, place) in mask.iter_mut().enumerate() {
        *place = dot(digits, i);
    }
}

// One word more in a hash.
pub fn hash_step(h: u64, word: u32) -> u64
    requires { h < 4294967291 }
    ensures { result < 4294967291 }
{
    (h * 16777619 + word as u64) % 4294967291
}

// Many words or bytes as one word, as compare/src/list.rs has it.
pub fn hash<T: Copy + Into<u32>>(values: &[T]) -> u64 {
    let mut h = 1;
    for value in values {
        h = hash_step(h, (*value).into());
    }
    h
}

// The hash of the first n words, 0 where there are fewer.
pub fn hash_of(words: &[u32], n: usize) -> u64 {
    if n <= words.len() {
        hash(&words[0..n])
    } else {
        0
    }
}

// Whether the last words are these.
pub fn ends_with(body: &[u8], answers: &[u64]) -> bool {
    let words = text::count(body);
    if words < answers.len() {
        return false;
    }
    let from = words - answers.len();
    answers
        .iter()
        .enumerate()
        .all(|(i, answer)| *answer == text::word(body, from + i))
}

// Whether the answer and what was lent for it are as the last three words have them.
fn is_answered(
    body: &[u8],
    answer: Result<u32, Refusal>,
    labels: &[u32],
    components: &[u32],
) -> bool {
    match answer {
        Ok(count) => ends_with(
            body,
            &[
                count as u64,
                hash(labels),
                hash_of(components, RECORD * count as usize),
            ],
        ),
        Err(_) => ends_with(body, &[word_of(answer), 0, 0]),
    }
}

// Labels the mask that the digits spell, of as many dots as there are labels.
fn label_mask(body: &[u8], size: Size, capacity: u32, mask: &mut [u8], labels: &mut [u32]) -> bool {
    let mut components = [0u32; RECORD_WORDS];
    let mut scratch = [0u32; SCRATCH_WORDS];
    if body.len() < MASK_FROM {
        return false;
    }
    read_mask(&body[MASK_FROM..], mask);
    let answer = labelling::label(
        mask,
        size.width,
        size.height,
        capacity,
        labels,
        &mut components,
        &mut scratch,
    );
    is_answered(body, answer, labels, &components)
}

// 09: width, height, capacity, the mask, 64 dots a word; the refusal's number x 2^32 + the count of
// pieces, the hash of the labels, the hash of the records. A refusal has 0 for the last two.
pub fn label(body: &[u8]) -> bool {
    let size = Size {
        width: text::whole(body, 0),
        height: text::whole(body, 1),
    };
    let n = dots(size.width, size.height);
    if n > MOST_DOTS {
        return false;
    }
    if text::count(body) != 6 + (n + 63) / 64 {
        return false;
    }
    let mut mask = [0u8; MOST_DOTS];
    let mut labels = [0u32; MOST_DOTS];
    let capacity = text::whole(body, 2);
    label_mask(body, size, capacity, &mut mask[0..n], &mut labels[0..n])
}

// The extents of the mask that the digits spell, of as many dots as there are extents; compares with
// the last word.
fn extents_of_mask(
    body: &[u8],
    size: Size,
    along: Along,
    mask: &mut [u8],
    extents: &mut [u32],
) -> bool {
    let words = text::count(body);
    if words < 4 {
        return false;
    }
    if body.len() < MASK_FROM {
        return false;
    }
    read_mask(&body[MASK_FROM..], mask);
    let answer = extents::run_extents(mask, size.width, size.height, along, extents);
    match answer {
        Ok(()) => hash(extents) == text::word(body, words - 1),
        Err(_) => false,
    }
}

// 1 for the columns, else the rows.
fn along_of(word: u32) -> Along {
    if word == 1 {
        Along::Columns
    } else {
        Along::Rows
    }
}

// 0A: width, height, 1 for extents along the columns and 0 along the rows, the mask, 64 dots a word; the
// hash of the extents.
pub fn extents(body: &[u8]) -> bool {
    let size = Size {
        width: text::whole(body, 0),
        height: text::whole(body, 1),
    };
    let n = dots(size.width, size.height);
    if n > MOST_DOTS {
        return false;
    }
    if text::count(body) != 4 + (n + 63) / 64 {
        return false;
    }
    let mut mask = [0u8; MOST_DOTS];
    let mut words = [0u32; MOST_DOTS];
    let along = along_of(text::whole(body, 2));
    extents_of_mask(body, size, along, &mut mask[0..n], &mut words[0..n])
}

// Whether every word is this one.
fn are_all(words: &[u32], word: u32) -> bool {
    words.iter().all(|w| *w == word)
}

// The extents of a mask of nothing but ink; whether all are as the last word has it.
fn extents_of_run(body: &[u8], size: Size, ink: &[u8], extents: &mut [u32]) -> bool {
    let along = along_of(text::whole(body, 2));
    let answer = extents::run_extents(ink, size.width, size.height, along, extents);
    match answer {
        Ok(()) => are_all(extents, text::whole(body, 3)),
        Err(_) => false,
    }
}

// 0F: width and height of a mask of nothing but ink, 1 for extents along the columns and 0 along the rows; the extent that every dot has.
pub fn full_run(body: &[u8]) -> bool {
    let size = Size {
        width: text::whole(body, 0),
        height: text::whole(body, 1),
    };
    let n = dots(size.width, size.height);
    if n > MOST_RUN {
        return false;
    }
    if text::count(body) != 4 {
        return false;
    }
    let ink = [1u8; MOST_RUN];
    let mut words = [0u32; MOST_RUN];
    extents_of_run(body, size, &ink[0..n], &mut words[0..n])
}
