// A script of calls, played on one store, its planes and four outputs: what each word of a call means is in specs/rules/Scripts.
ghost use Rattle.std.specs.Prelude.{◌≡◌, List, ℕ, ◌+◌, ◌*◌, ◌≤◌, min, ℤ, Float, length};
ghost use Rattle.memory.specs.rules.Words.{word_at};
ghost use Rattle.memory.specs.rules.Refusals.{answer_number, answer_value};
ghost use Rattle.store.specs.rules.Readings.{ResultReading};
ghost use Rattle.store.specs.rules.Readings.Output.{words};
ghost use Rattle.store.specs.rules.Outcomes.{left, level_left, segment_left, told, level_told, result_told};
ghost use Rattle.account.specs.rules.Calls.{Act, world};
ghost use Rattle.scripts.specs.rules.Scripts.{script_of, outputs, memory, call_words, store_at, ink_at, kinds_at, scratch_at, words_of, lent_of, sheet_from, leaf_from, list_named, level_reading, words_reading, result_reading, fills_bytes, Played};
ghost use Rattle.scripts.specs.stages.Playing.{left_back, Filled, Did};

use crate::calls::Call;
use crate::script::{box_from, bytes_of, cut, float_at, sheet_of};
use crate::words::{
    CALL_WORDS, CAPACITY, HEIGHT, INK, KIND, KINDS, LEFT, OP, OUT, SCRATCH, STORE, TOP, TURNS,
    WIDTH,
};
use memory::{Refusal, number_of, word_at};
use store::{
    Handed, clear, count_dots, level, level_gray, read_blocks, read_columns, read_dots,
    read_figures, read_frame, read_glyphs, read_graphics, read_lines, read_rules, read_summary,
    rect_to_page, segment, to_page, twenty_line_measure, write_sheet,
};

// What the log gets of a call.
#[derive(Clone, Copy, Debug, PartialEq, Eq)]
struct Logged {
    number: u32,
    value: u32,
}

// Of a call that gives no value.
fn log_outcome(o: Result<(), Refusal>) -> Logged
    ensures { (result.number ≡ answer_number o) × (result.value ≡ 0) }
{
    Logged {
        number: number_of(o),
        value: 0,
    }
}

// Of a call that gives a value.
fn log_answer(a: Result<u32, Refusal>) -> Logged
    ensures { (result.number ≡ answer_number a) × (result.value ≡ answer_value a) }
{
    match a {
        Ok(value) => Logged { number: 0, value },
        Err(refusal) => Logged {
            number: u32::from(refusal),
            value: 0,
        },
    }
}

// Levelling, on the parts of store and ink plane that it is lent.
fn level_call(
    call: &[u32],
    floats: &[f64],
    bytes: &[u8],
    store: &mut [u32],
    ink: &mut [u8],
) -> Result<(), Refusal>
    ensures { left (answer_number result) store.new ink.new ≡ left_back (level_left (leaf_from call.now floats.now bytes.now) (lent_of call.now store_at store.old) (lent_of call.now ink_at ink.old)) store.old ink.old }
{
    let n = cut(call, STORE, store.len());
    let m = cut(call, INK, ink.len());
    let turns = word_at(call, TURNS) as usize;
    let skew = float_at(floats, turns);
    let slope = float_at(floats, turns + 1);
    let sheet = sheet_of(call, floats);
    let width = word_at(call, WIDTH);
    let height = word_at(call, HEIGHT);
    let capacity = word_at(call, CAPACITY);
    let mask = bytes_of(call, bytes);
    let handed = Handed {
        width,
        height,
        skew,
        slope,
        capacity,
    };
    level(mask, handed, sheet, &mut store[..n], &mut ink[..m])
}

// Segmenting, on the parts of store, planes and scratch that it is lent.
fn segment_call(
    call: &[u32],
    floats: &[f64],
    store: &mut [u32],
    ink: &[u8],
    kinds: &mut [u8],
    scratch: &mut [u32],
) -> Result<(), Refusal>
    ensures { left (answer_number result) store.new kinds.new ≡ left_back (segment_left (sheet_from call.now floats.now) (lent_of call.now store_at store.old) (lent_of call.now ink_at ink.now) (lent_of call.now kinds_at kinds.old) (min (word_at call.now scratch_at) (length scratch.old))) store.old kinds.old }
{
    let n = cut(call, STORE, store.len());
    let m = cut(call, INK, ink.len());
    let k = cut(call, KINDS, kinds.len());
    let x = cut(call, SCRATCH, scratch.len());
    let sheet = sheet_of(call, floats);
    segment(
        sheet,
        &mut store[..n],
        &ink[..m],
        &mut kinds[..k],
        &mut scratch[..x],
    )
}

// A reading of a levelled page, over the front of its output; the store is the part that it is lent.
fn read_level(
    call: &[u32],
    bytes: &[u8],
    store: &[u32],
    words: &mut [u32],
    gray: &mut [u8],
    integers: &mut [i32],
) -> Result<(), Refusal>
    ensures { (ns : List Float) → Filled (fills_bytes (Act.read_level (level_reading call.now bytes.now (outputs words.old gray.old integers.old ns)))) (level_told (level_reading call.now bytes.now (outputs words.old gray.old integers.old ns)) store.now) (answer_number result) 0 (outputs words.old gray.old integers.old ns) (outputs words.new gray.new integers.new ns) }
{
    match Call::from(word_at(call, OP)) {
        Call::ToPage => {
            let n = cut(call, OUT, integers.len());
            let x = word_at(call, LEFT);
            let y = word_at(call, TOP);
            to_page(store, x, y, &mut integers[..n])
        }
        Call::RectToPage => {
            let n = cut(call, OUT, integers.len());
            rect_to_page(store, box_from(call), &mut integers[..n])
        }
        Call::LevelGray => {
            let n = cut(call, OUT, gray.len());
            level_gray(store, bytes_of(call, bytes), &mut gray[..n])
        }
        _ => {
            let n = cut(call, OUT, words.len());
            read_frame(store, &mut words[..n])
        }
    }
}

// The list that a call's first word names.
fn read_list(
    op: u32,
    store: &[u32],
    ink: &[u8],
    kinds: &[u8],
    out: &mut [u32],
) -> Result<u32, Refusal>
    ensures { told (answer_number result) (answer_value result) (words out.new) ≡ result_told (ResultReading.list (list_named op) out.old) store.now ink.now kinds.now }
{
    match Call::from(op) {
        Call::Columns => read_columns(store, ink, kinds, out),
        Call::Rules => read_rules(store, ink, kinds, out),
        Call::Graphics => read_graphics(store, ink, kinds, out),
        Call::Glyphs => read_glyphs(store, ink, kinds, out),
        Call::Lines => read_lines(store, ink, kinds, out),
        _ => read_blocks(store, ink, kinds, out),
    }
}

// A reading of results that fills words; all are the parts that it is lent.
fn read_words(call: &[u32], store: &[u32], ink: &[u8], kinds: &[u8], out: &mut [u32]) -> Logged
    ensures { told result.number result.value (words out.new) ≡ result_told (words_reading call.now out.old) store.now ink.now kinds.now }
{
    let op = word_at(call, OP);
    match Call::from(op) {
        Call::Figures => log_outcome(read_figures(store, ink, kinds, out)),
        Call::ReadDots => {
            let kind = word_at(call, KIND);
            log_answer(read_dots(store, ink, kinds, kind, box_from(call), out))
        }
        _ => log_answer(read_list(op, store, ink, kinds, out)),
    }
}

// A reading of results, over the front of its output; store and planes are the parts that it is lent.
fn read_results(
    call: &[u32],
    store: &[u32],
    ink: &[u8],
    kinds: &[u8],
    words: &mut [u32],
    gray: &mut [u8],
    numbers: &mut [f64],
) -> Logged
    ensures { (is : List ℤ) → Filled (fills_bytes (Act.read_result (result_reading call.now (outputs words.old gray.old is numbers.old)))) (result_told (result_reading call.now (outputs words.old gray.old is numbers.old)) store.now ink.now kinds.now) result.number result.value (outputs words.old gray.old is numbers.old) (outputs words.new gray.new is numbers.new) }
{
    match Call::from(word_at(call, OP)) {
        Call::Summary => {
            let n = cut(call, OUT, numbers.len());
            log_outcome(read_summary(store, ink, kinds, &mut numbers[..n]))
        }
        Call::TwentyLines => log_answer(twenty_line_measure(store, ink, kinds)),
        Call::CountDots => {
            let kind = word_at(call, KIND);
            log_answer(count_dots(store, ink, kinds, kind, box_from(call)))
        }
        Call::Sheet => {
            let n = cut(call, OUT, gray.len());
            log_answer(write_sheet(store, ink, kinds, &mut gray[..n]))
        }
        _ => {
            let n = cut(call, OUT, words.len());
            read_words(call, store, ink, kinds, &mut words[..n])
        }
    }
}

// The same on the parts of the planes that the call is lent.
fn read_planes(
    call: &[u32],
    store: &[u32],
    ink: &[u8],
    kinds: &[u8],
    words: &mut [u32],
    gray: &mut [u8],
    numbers: &mut [f64],
) -> Logged
    ensures { (is : List ℤ) → Filled (fills_bytes (Act.read_result (result_reading call.now (outputs words.old gray.old is numbers.old)))) (result_told (result_reading call.now (outputs words.old gray.old is numbers.old)) store.now (lent_of call.now ink_at ink.now) (lent_of call.now kinds_at kinds.now)) result.number result.value (outputs words.old gray.old is numbers.old) (outputs words.new gray.new is numbers.new) }
{
    let m = cut(call, INK, ink.len());
    let k = cut(call, KINDS, kinds.len());
    read_results(call, store, &ink[..m], &kinds[..k], words, gray, numbers)
}

// The call that these words are. What one call does not take, the others have as it was.
// The lent slices are no struct: tried with one of `&mut` slices, and the proofs of the arms that lend `&store[..n]`, and of `play` behind its loop, didn't close.
fn perform(
    call: &[u32],
    floats: &[f64],
    bytes: &[u8],
    store: &mut [u32],
    ink: &mut [u8],
    kinds: &mut [u8],
    scratch: &mut [u32],
    words: &mut [u32],
    gray: &mut [u8],
    integers: &mut [i32],
    numbers: &mut [f64],
) -> Logged
    ensures { Did floats.now bytes.now (length scratch.old) call.now (memory (world store.old ink.old kinds.old) (outputs words.old gray.old integers.old numbers.old)) result.number result.value (memory (world store.new ink.new kinds.new) (outputs words.new gray.new integers.new numbers.new)) }
{
    let n = cut(call, STORE, store.len());
    match Call::from(word_at(call, OP)) {
        Call::Level => log_outcome(level_call(call, floats, bytes, store, ink)),
        Call::Segment => log_outcome(segment_call(call, floats, store, ink, kinds, scratch)),
        Call::ToPage | Call::RectToPage | Call::LevelGray | Call::Frame => {
            log_outcome(read_level(call, bytes, &store[..n], words, gray, integers))
        }
        Call::Clear => log_outcome(clear(&mut store[..n])),
        _ => read_planes(call, &store[..n], ink, kinds, words, gray, numbers),
    }
}

// Call i of the script.
fn nth(
    script: &[u32],
    i: usize,
    floats: &[f64],
    bytes: &[u8],
    store: &mut [u32],
    ink: &mut [u8],
    kinds: &mut [u8],
    scratch: &mut [u32],
    words: &mut [u32],
    gray: &mut [u8],
    integers: &mut [i32],
    numbers: &mut [f64],
) -> Logged
    requires { i * call_words + call_words ≤ length script.now }
    ensures { Did floats.now bytes.now (length scratch.old) (words_of script.now i) (memory (world store.old ink.old kinds.old) (outputs words.old gray.old integers.old numbers.old)) result.number result.value (memory (world store.new ink.new kinds.new) (outputs words.new gray.new integers.new numbers.new)) }
{
    let from = i * CALL_WORDS;
    let to = from + CALL_WORDS;
    let call = &script[from..to];
    perform(
        call, floats, bytes, store, ink, kinds, scratch, words, gray, integers, numbers,
    )
}

// Plays the calls of a script, as many as the log has room for: how many they were. Each call's number and value go into the log.
pub fn play(
    script: &[u32],
    floats: &[f64],
    bytes: &[u8],
    store: &mut [u32],
    ink: &mut [u8],
    kinds: &mut [u8],
    scratch: &mut [u32],
    words: &mut [u32],
    gray: &mut [u8],
    integers: &mut [i32],
    numbers: &mut [f64],
    log: &mut [u32],
) -> usize
    ensures { Played (script_of script.now floats.now bytes.now (length scratch.old)) (memory (world store.old ink.old kinds.old) (outputs words.old gray.old integers.old numbers.old)) log.old result (memory (world store.new ink.new kinds.new) (outputs words.new gray.new integers.new numbers.new)) log.new (length scratch.new) }
{
    let n = (script.len() / CALL_WORDS).min(log.len() / 2);
    for i in 0..n {
        let r = nth(
            script, i, floats, bytes, store, ink, kinds, scratch, words, gray, integers, numbers,
        );
        log[i * 2] = r.number;
        log[i * 2 + 1] = r.value;
    }
    n
}
