// The lowering call with two sheets on the pairs of a file from standard input. A pair has a line, the left sheet, an empty line, the right sheet and an empty line. The line has 0 or 1, for all. A sheet may have a part that is there many times (gate_cases). For each pair: the number, line, start, end, kind and length of the answer, and the plan's first bytes. What the gate feeds it and what it has to print is made by oracle/pairs.py: first the Rust's answers to pairs, then answers by hand that the second reading of the request has to give too.
#![tactic(auto)]

ghost use Rattle.std.specs.Prelude.{◌<◌, length, IfSome};

use gate_answers::{say_answer, shown};
use gate_cases::text::{build_sheet, first_sheet};
use input::read_full;
use statement::Work;
use std::io;
use std::io::Write;
use union_pair::lower_union_pair;
use values::Values;

// How long a file of pairs may be; what is behind that is not read.
const FILE_BYTES: usize = 131072;

// A page for a sheet, and the plan's slice.
const PAGE: usize = 65536;

// Whether all rows are kept, and two sheets, or the texts that they are made of.
#[derive(Drop)]
struct Pair<'a> {
    all: bool,
    left: &'a [u8],
    right: &'a [u8],
}

// The first pair of a file, and what stands behind it. A right sheet may end with the file, a left one may not.
fn first_pair(file: &[u8]) -> Option<(Pair<'_>, &[u8])>
    ensures { IfSome result (λ p. length p.1.now < length file.now) }
{
    let [flag, _, sheets @ ..] = file else {
        return None;
    };
    let (left, behind) = first_sheet(sheets)?;
    let (right, rest) = first_sheet(behind).unwrap_or((behind, &[]));
    let all = *flag == b'1';
    Some((Pair { all, left, right }, rest))
}

// A plan, or its first bytes and a line feed.
fn say_plan<W: Write>(out: &mut W, plan: &[u8]) -> io::Result<()> {
    let first = shown(plan);
    out.write_all(first)?;
    if first.len() < plan.len() {
        out.write_all(b"\n")?;
    }
    Ok(())
}

// The answer to a pair and its plan, which is empty for a refused one.
fn show<W: Write>(
    out: &mut W,
    pair: &Pair<'_>,
    l: &mut Work<'_>,
    r: &mut Work<'_>,
    plan: &mut [u8],
) -> io::Result<()> {
    let v = Values::from(lower_union_pair(pair.left, pair.right, pair.all, l, r, plan));
    let n = v.length;
    say_answer(out, v)?;
    if n <= plan.len() {
        return say_plan(out, &plan[..n]);
    }
    Ok(())
}

// The same of a pair of texts, with two slices for their sheets: one by one; a struct of both was tried, and nothing that one reference leads to is read while another part of it is lent. A text that is longer than a sheet may be is passed over.
fn show_texts<W: Write>(
    out: &mut W,
    texts: &Pair<'_>,
    left: &mut [u8],
    right: &mut [u8],
    l: &mut Work<'_>,
    r: &mut Work<'_>,
    plan: &mut [u8],
) -> io::Result<()> {
    if texts.left.len().max(texts.right.len()) > words::MAX_BYTES {
        return Ok(());
    }
    let n = build_sheet(texts.left, left).unwrap_or(0);
    let m = build_sheet(texts.right, right).unwrap_or(0);
    let pair = Pair {
        all: texts.all,
        left: &left[..n],
        right: &right[..m],
    };
    show(out, &pair, l, r, plan)
}

// All pairs. The slices are not cleared between them.
fn show_all<W: Write>(
    out: &mut W,
    file: &[u8],
    left: &mut [u8],
    right: &mut [u8],
    l: &mut Work<'_>,
    r: &mut Work<'_>,
    plan: &mut [u8],
) -> io::Result<()> {
    let mut pairs = file;
    // A `while`: where the next one begins is what the step before answers.
    while let Some((texts, rest)) = first_pair(pairs) {
        show_texts(out, &texts, left, right, l, r, plan)?;
        pairs = rest;
    }
    Ok(())
}

fn main(rt: HostRuntime) -> io::Result<()> {
    let mut file = [0u8; FILE_BYTES];
    let mut left = [0u8; PAGE];
    let mut right = [0u8; PAGE];
    let mut la = [0u32; words::WORK_WORDS];
    let mut lb = [0u32; words::WORK_WORDS];
    let mut lc = [0u32; words::WORK_WORDS];
    let mut ld = [0u32; words::WORK_WORDS];
    let mut ra = [0u32; words::WORK_WORDS];
    let mut rb = [0u32; words::WORK_WORDS];
    let mut rc = [0u32; words::WORK_WORDS];
    let mut rd = [0u32; words::WORK_WORDS];
    let mut plan = [0u8; PAGE];
    let mut l = Work {
        a: &mut la,
        b: &mut lb,
        c: &mut lc,
        d: &mut ld,
    };
    let mut r = Work {
        a: &mut ra,
        b: &mut rb,
        c: &mut rc,
        d: &mut rd,
    };
    let n = read_full(&mut rt.stdin(), &mut file)?;
    show_all(
        &mut rt.stdout(),
        &file[..n],
        &mut left,
        &mut right,
        &mut l,
        &mut r,
        &mut plan,
    )
}
