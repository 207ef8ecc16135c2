// The lowering call on a sheet from standard input: prints the plan sheet, or one line that says how the sheet is refused.
#![tactic(auto)]

use input::read_full;
use statement::Work;
use statement::lowering::lower_statement;
use std::io;
use std::io::Write;
use values::Values;
use values::text::write_refusal;

// The plan, or a refusal, parted as a sheet's fields are; a refusal leaves the plan's slice free for its line.
fn show<W: Write>(
    out: &mut W,
    sheet: &[u8],
    work: &mut Work<'_>,
    plan: &mut [u8],
) -> io::Result<()> {
    let answer = lower_statement(sheet, work, plan);
    if let Ok(n) = answer {
        return out.write_all(&plan[..n]);
    }
    out.write_all(b"refused")?;
    if let Some(n) = write_refusal(plan, b'\t', Values::from(answer)) {
        out.write_all(&plan[..n])?;
    }
    out.write_all(b"\n")
}

// One byte more than a sheet may have, so that a longer one is refused however long it is.
const SHEET_BYTES: usize = words::MAX_BYTES + 1;

// The plan's slice.
const PLAN_BYTES: usize = 65536;

fn main(rt: HostRuntime) -> io::Result<()> {
    let mut sheet = [0u8; SHEET_BYTES];
    let mut a = [0u32; words::WORK_WORDS];
    let mut b = [0u32; words::WORK_WORDS];
    let mut c = [0u32; words::WORK_WORDS];
    let mut d = [0u32; words::WORK_WORDS];
    let mut plan = [0u8; PLAN_BYTES];
    let mut work = Work {
        a: &mut a,
        b: &mut b,
        c: &mut c,
        d: &mut d,
    };
    let n = read_full(&mut rt.stdin(), &mut sheet)?;
    show(&mut rt.stdout(), &sheet[..n], &mut work, &mut plan)
}
