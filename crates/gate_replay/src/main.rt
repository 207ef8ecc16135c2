// The lowering call on the sheets of a file from standard input, an empty line behind each. For each: the number, line, start, end, kind and length of the answer, and the plan. What the gate feeds it and what it has to print, the Rust's answers, are made by `compare sample` (rust/README.md).
#![tactic(auto)]

use gate_answers::say_answer;
use gate_cases::text::{MAX_FILE, first_sheet};
use input::read_full;
use statement::Work;
use std::io;
use std::io::Write;
use values::call::lower;

// The plan's slice.
const PLAN_BYTES: usize = 65536;

// The answer to a sheet and its plan, which is empty for a refused one.
fn show<W: Write>(
    out: &mut W,
    sheet: &[u8],
    work: &mut Work<'_>,
    plan: &mut [u8],
) -> io::Result<()> {
    let v = lower(sheet, work, plan);
    let n = v.length;
    say_answer(out, v)?;
    out.write_all(&plan[..n])
}

// All sheets. The slices are not cleared between them.
fn show_all<W: Write>(
    out: &mut W,
    file: &[u8],
    work: &mut Work<'_>,
    plan: &mut [u8],
) -> io::Result<()> {
    let mut left = file;
    // A `while`: where the next one begins is what the step before answers.
    while !left.is_empty() {
        let (sheet, rest) = first_sheet(left).unwrap_or((left, &[]));
        show(out, sheet, work, plan)?;
        left = rest;
    }
    Ok(())
}

fn main(rt: HostRuntime) -> io::Result<()> {
    let mut file = [0u8; MAX_FILE];
    let mut a = [0u32; words::WORK_WORDS];
    let mut b = [0u32; words::WORK_WORDS];
    let mut c = [0u32; words::WORK_WORDS];
    let mut d = [0u32; words::WORK_WORDS];
    let mut plan = [0u8; PLAN_BYTES];
    let mut work = Work {
        a: &mut a,
        b: &mut b,
        c: &mut c,
        d: &mut d,
    };
    let n = read_full(&mut rt.stdin(), &mut file)?;
    show_all(&mut rt.stdout(), &file[..n], &mut work, &mut plan)
}
