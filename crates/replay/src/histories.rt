// The kind of case that is a history: a script of calls, played on one store.
ghost use Rattle.std.specs.Prelude.{◌<◌, ◌≤◌};

use crate::kinds::read_floats;
use crate::masks::{dot, hash, hash_step};
use crate::text::{behind, half, signed, word};

// The numbers before the script: how many are the script's, its floats and its dots, and the lengths of store, planes, scratch and outputs.
const HEAD: usize = 11;

// The most words of a script, its floats, and its bytes, of which there are always so many.
const SCRIPT: usize = 840;

const FLOATS: usize = 1024;

const BYTES: usize = 65536;

// The words of a call, and the most words of the log: two a call.
const CALL_WORDS: usize = 21;

const LOG: usize = 80;

// The most words, bytes and numbers of store, planes, scratch and outputs.
const STORE: usize = 172032;

const PLANE: usize = 20480;

const SCRATCH: usize = 150016;

const WORDS: usize = 16384;

const INTEGERS: usize = 32;

const NUMBERS: usize = 64;

// What stands in all of it at first; the state word alone is 0.
const OLD_WORD: u32 = 0xa5a5_a5a5;

const OLD_BYTE: u8 = 0x5a;

// The length that stands at k of the head, and no more than there is room for.
fn size(body: &[u8], k: usize, most: usize) -> usize
    ensures { result ≤ most }
{
    (half(body, k) as usize).min(most)
}

// How many words of the log the calls of a script fill.
fn log_size(script: &[u32]) -> usize
    ensures { result ≤ 80 }
{
    (script.len() / CALL_WORDS * 2).min(LOG)
}

// The first of the numbers, as many as there is room for.
fn read_numbers(text: &[u8], out: &mut [u32]) {
    for (i, number) in out.iter_mut().enumerate() {
        *number = half(text, i);
    }
}

// The byte so far behind the dots, as compare/src/parts/store/listed.rs has it.
fn byte_behind(i: usize) -> u8 {
    let n = i % 65536;
    ((n * 73 + n / 16 * 29 + 2) % 256) as u8
}

// Byte i of a script whose digits spell so many dots.
fn byte_at(text: &[u8], dots: usize, i: usize) -> u8 {
    if i < dots {
        dot(text, i)
    } else {
        byte_behind(i - dots)
    }
}

// All bytes of a script: its dots, and a pattern behind them.
fn read_bytes(text: &[u8], dots: usize, out: &mut [u8]) {
    for (i, byte) in out.iter_mut().enumerate() {
        *byte = byte_at(text, dots, i);
    }
}

// Whether the first of the numbers are these.
fn are_next(text: &[u8], words: &[u32]) -> bool {
    words
        .iter()
        .enumerate()
        .all(|(i, word)| *word == half(text, i))
}

// Whether an integer is the one whose two's complement at 64 bits the word is.
fn is_integer(x: i32, word: u64) -> bool {
    i64::from(x) == signed(word)
}

// Whether the first of the words are these integers.
fn are_integers(text: &[u8], integers: &[i32]) -> bool {
    integers
        .iter()
        .enumerate()
        .all(|(i, x)| is_integer(*x, word(text, i)))
}

// One float more in a hash: both halves of its bits, the high one first.
fn hash_float(h: u64, x: f64) -> u64
    requires { h < 4294967291 }
    ensures { result < 4294967291 }
{
    let bits = memory::bits_of(x);
    let high = (bits / 0x1_0000_0000) as u32;
    let low = (bits % 0x1_0000_0000) as u32;
    hash_step(hash_step(h, high), low)
}

// Many floats as one word.
fn hash_floats(floats: &[f64]) -> u64 {
    let mut h = 1;
    for x in floats {
        h = hash_float(h, *x);
    }
    h
}

// A script with its floats and its bytes.
#[derive(Clone, Copy, Debug, PartialEq)]
struct Script<'a> {
    calls: &'a [u32],
    floats: &'a [f64],
    bytes: &'a [u8],
}

// The outputs that the calls of a script are lent.
#[derive(Drop)]
struct Outputs<'a> {
    words: &'a mut [u32],
    gray: &'a mut [u8],
    integers: &'a mut [i32],
    numbers: &'a mut [f64],
}

// The store, its planes and scratch.
#[derive(Drop)]
struct Memory<'a> {
    store: &'a mut [u32],
    ink: &'a mut [u8],
    kinds: &'a mut [u8],
    scratch: &'a mut [u32],
}

// Whether the hashes of all that is left but the integers are the first six of the numbers, and the integers the words behind them.
fn is_left(text: &[u8], memory: &Memory, outputs: &Outputs) -> bool {
    (hash(memory.store) == half(text, 0) as u64)
        & (hash(memory.ink) == half(text, 1) as u64)
        & (hash(memory.kinds) == half(text, 2) as u64)
        & (hash(outputs.words) == half(text, 3) as u64)
        & (hash(outputs.gray) == half(text, 4) as u64)
        & (hash_floats(outputs.numbers) == half(text, 5) as u64)
        & are_integers(behind(text, 6), outputs.integers)
}

// Plays a script; whether the log and what is left are as told behind the script.
fn is_played(
    told: &[u8],
    script: Script,
    memory: &mut Memory,
    outputs: &mut Outputs,
    log: &mut [u32],
) -> bool {
    scripts::play(
        script.calls,
        script.floats,
        script.bytes,
        memory.store,
        memory.ink,
        memory.kinds,
        memory.scratch,
        outputs.words,
        outputs.gray,
        outputs.integers,
        outputs.numbers,
        log,
    );
    let left = behind(told, log.len());
    are_next(told, log) & is_left(left, memory, outputs)
}

// The same on these outputs, with a store and planes as the head has them.
fn with_store(body: &[u8], told: &[u8], script: Script, outputs: &mut Outputs) -> bool {
    let mut store = [OLD_WORD; STORE];
    let mut ink = [OLD_BYTE; PLANE];
    let mut kinds = [OLD_BYTE; PLANE];
    let mut scratch = [OLD_WORD; SCRATCH];
    let mut log = [OLD_WORD; LOG];
    store[0] = 0;
    let s = size(body, 3, STORE);
    let i = size(body, 4, PLANE);
    let k = size(body, 5, PLANE);
    let x = size(body, 6, SCRATCH);
    let n = log_size(script.calls);
    let mut memory = Memory {
        store: &mut store[0..s],
        ink: &mut ink[0..i],
        kinds: &mut kinds[0..k],
        scratch: &mut scratch[0..x],
    };
    is_played(told, script, &mut memory, outputs, &mut log[0..n])
}

// The same with outputs as the head has them.
fn with_outputs(body: &[u8], told: &[u8], script: Script) -> bool {
    let mut words = [OLD_WORD; WORDS];
    let mut gray = [OLD_BYTE; PLANE];
    let mut integers = [7i32; INTEGERS];
    let mut numbers = [0.5f64; NUMBERS];
    let w = size(body, 7, WORDS);
    let g = size(body, 8, PLANE);
    let i = size(body, 9, INTEGERS);
    let n = size(body, 10, NUMBERS);
    let mut outputs = Outputs {
        words: &mut words[0..w],
        gray: &mut gray[0..g],
        integers: &mut integers[0..i],
        numbers: &mut numbers[0..n],
    };
    with_store(body, told, script, &mut outputs)
}

// Reads a script with its floats and bytes, as many as there is room for, and plays it.
fn with_script(body: &[u8], calls: &mut [u32], floats: &mut [f64], bytes: &mut [u8]) -> bool {
    let dots = size(body, 2, BYTES);
    let at_script = behind(body, HEAD);
    let at_floats = behind(at_script, size(body, 0, SCRIPT));
    let at_dots = behind(at_floats, 2 * size(body, 1, FLOATS));
    let told = behind(at_dots, dots / 32);
    read_numbers(at_script, calls);
    read_floats(at_floats, floats);
    read_bytes(at_dots, dots, bytes);
    let script = Script {
        calls,
        floats,
        bytes,
    };
    with_outputs(body, told, script)
}

// 0D: the eleven numbers of the head; the script, its floats, two numbers each, its dots, 32 a number; the log, the hashes of store,
// ink, kinds, words, gray bytes and numbers, and the integers, a word each.
pub fn history(body: &[u8]) -> bool {
    let mut script = [0u32; SCRIPT];
    let mut floats = [0.0f64; FLOATS];
    let mut bytes = [0u8; BYTES];
    let s = size(body, 0, SCRIPT);
    let f = size(body, 1, FLOATS);
    with_script(body, &mut script[0..s], &mut floats[0..f], &mut bytes)
}
