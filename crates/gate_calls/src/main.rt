// The calls of `library` on the list of cases from standard input: a label, a digit that says which slice is short, a plan slice's length or the word `size`, and a sheet, each ended by a bar. For each case a line: the label, the call, what it returned, and the words of the answer slice, which is full of sevens before the call and has two words more than an answer; of a lowering then the plan slice, which is full of `#` before the call.
#![tactic(auto)]

ghost use Rattle.std.specs.Prelude.{◌≤◌, ◌<◌, length, IfSome};
ghost use Rattle.model.specs.Call.{work_words};

use gate_answers::shown;
use gate_cases::text::{build_sheet, cut};
use input::read_full;
use library::{dresserhawk_lower, dresserhawk_size};
use output::Page;
use record::number::decimal;
use statement::Work;
use std::io;
use std::io::Write;

// A page for a sheet, and the longest plan slice.
const PAGE: usize = 65536;

// A work slice that is one word short.
const SHORT: usize = words::WORK_WORDS - 1;

// The answer slice has so many words, each of which is this before the call; a short one has so many.
const ANSWER_WORDS: usize = 8;

const UNTOUCHED: usize = 7;

const SHORT_ANSWER: usize = 5;

// A page for a word and the blank before it.
const WORD_PAGE: usize = 32;

// What is shorter than a call wants it: one work slice, by a word; all of them, which have no words; or the answer slice, which has no room for an answer.
#[derive(Clone, Copy, PartialEq, Eq)]
enum Short {
    First,
    Second,
    Third,
    Fourth,
    Works,
    Answer,
}

impl Short {
    // What the digit of a case says, if anything is short.
    fn of_digit(digit: u8) -> Option<Short> {
        match digit {
            b'1' => Some(Short::First),
            b'2' => Some(Short::Second),
            b'3' => Some(Short::Third),
            b'4' => Some(Short::Fourth),
            b'5' => Some(Short::Works),
            b'6' => Some(Short::Answer),
            _ => None,
        }
    }
}

// How many words a work slice is lent with, of which `slice` says that it alone is short.
fn lent(short: Option<Short>, slice: Short) -> usize
    ensures { result ≤ work_words }
{
    if short == Some(Short::Works) {
        return 0;
    }
    if short == Some(slice) {
        SHORT
    } else {
        words::WORK_WORDS
    }
}

// How many words the answer slice is lent with.
fn answer_words(short: Option<Short>) -> usize
    ensures { result ≤ 8 }
{
    if short == Some(Short::Answer) {
        SHORT_ANSWER
    } else {
        ANSWER_WORDS
    }
}

// A label, what is short, the plan slice's length or another word, and the text that a sheet is made of.
#[derive(Drop)]
struct Case<'a> {
    label: &'a [u8],
    short: Option<Short>,
    room: &'a [u8],
    text: &'a [u8],
}

// The first case of a list, and what stands behind it.
fn first_case(list: &[u8]) -> Option<(Case<'_>, &[u8])>
    ensures { IfSome result (λ p. length p.1.now < length list.now) }
{
    let (label, behind) = cut(list, b'|')?;
    // the digit, and the bar behind it
    let [digit, _, behind @ ..] = behind else {
        return None;
    };
    let (room, behind) = cut(behind, b'|')?;
    let (text, rest) = cut(behind, b'|')?;
    let short = Short::of_digit(*digit);
    Some((
        Case {
            label,
            short,
            room,
            text,
        },
        rest,
    ))
}

// All of a slice, a blank before each word: a word and its blank in one write, which `write!` would make two.
fn say_words<W: Write>(out: &mut W, words: &[usize]) -> io::Result<()> {
    for word in words {
        let mut bytes = [0u8; WORD_PAGE];
        let mut page = Page {
            bytes: &mut bytes,
            out: 0,
        };
        page.put_byte(b' ');
        page.put_decimal(*word as u64);
        if let Some(n) = page.used() {
            out.write_all(&bytes[..n])?;
        }
    }
    Ok(())
}

// What a call returned, and the answer slice behind it.
fn say<W: Write>(
    out: &mut W,
    label: &[u8],
    call: &[u8],
    written: bool,
    answer: &[usize],
) -> io::Result<()> {
    out.write_all(label)?;
    out.write_all(call)?;
    let told: &[u8] = if written { b" true" } else { b" false" };
    out.write_all(told)?;
    say_words(out, answer)?;
    out.write_all(b"\n")
}

// The first bytes of a slice.
fn say_slice<W: Write>(out: &mut W, slice: &[u8]) -> io::Result<()> {
    out.write_all(shown(slice))?;
    out.write_all(b"\n")
}

// The call that a case asks for on its sheet, and of a lowering what it left in the plan slice.
fn show<W: Write>(
    out: &mut W,
    case: &Case<'_>,
    sheet: &[u8],
    work: &mut Work<'_>,
    plan: &mut [u8],
) -> io::Result<()> {
    let mut words = [UNTOUCHED; ANSWER_WORDS];
    let answer = &mut words[..answer_words(case.short)];
    let Some(bytes) = decimal(case.room, PAGE as u64) else {
        let written = dresserhawk_size(sheet, work, answer);
        return say(out, case.label, b" size", written, answer);
    };
    let n = bytes as usize;
    if n > plan.len() {
        return Ok(());
    }
    let plan = &mut plan[..n];
    plan.fill(b'#');
    let written = dresserhawk_lower(sheet, work, plan, answer);
    say(out, case.label, b" lower", written, answer)?;
    say_slice(out, plan)
}

// All of the list. The work slices are lent here, where they stand, since parts of slices that stand in one struct cannot be lent at once.
fn main(rt: HostRuntime) -> io::Result<()> {
    let mut list = [0u8; words::MAX_BYTES];
    let mut page = [0u8; PAGE];
    let mut a = [0u32; words::WORK_WORDS];
    let mut b = [0u32; words::WORK_WORDS];
    let mut c = [0u32; words::WORK_WORDS];
    let mut d = [0u32; words::WORK_WORDS];
    let mut plan = [0u8; PAGE];
    let n = read_full(&mut rt.stdin(), &mut list)?;
    let mut out = rt.stdout();
    let mut left = &list[..n];
    // A `while`: where the next one begins is what the step before answers.
    while let Some((case, rest)) = first_case(left) {
        let k = build_sheet(case.text, &mut page).unwrap_or(0);
        let mut work = Work {
            a: &mut a[..lent(case.short, Short::First)],
            b: &mut b[..lent(case.short, Short::Second)],
            c: &mut c[..lent(case.short, Short::Third)],
            d: &mut d[..lent(case.short, Short::Fourth)],
        };
        show(&mut out, &case, &page[..k], &mut work, &mut plan)?;
        left = rest;
    }
    Ok(())
}
