// The reader on the list of cases from standard input: a label and a sheet, each ended by a bar. For each a line: its label, the number of the refusal or 0, and the refusal's line or how many records were read.
#![tactic(auto)]

ghost use Rattle.std.specs.Prelude.{◌<◌, length, IfSome};
ghost use Rattle.sheet.specs.Reader.{ReaderAsked};

use gate_cases::text::{build_sheet, cut};
use input::read_full;
use sheet::reader::read_sheet;
use statement::Fault;
use std::io;
use std::io::Write;
use values::{Values, refusal};
use words::RecordsMut;

// A label, and the text that a sheet is made of.
#[derive(Drop)]
struct Case<'a> {
    label: &'a [u8],
    text: &'a [u8],
}

// The first case of a list, and what stands behind it.
fn first_case(list: &[u8]) -> Option<(Case<'_>, &[u8])>
    ensures { IfSome result (λ p. length p.1.now < length list.now) }
{
    let (label, behind) = cut(list, b'|')?;
    let (text, rest) = cut(behind, b'|')?;
    Some((Case { label, text }, rest))
}

// What the reader answers to a sheet.
fn show<W: Write>(
    out: &mut W,
    label: &[u8],
    sheet: &[u8],
    records: &mut RecordsMut<'_>,
    stack: &mut [u32],
) -> io::Result<()>
    requires { ReaderAsked sheet.now stack.old }
{
    let (number, line) = match read_sheet(sheet, records, stack, words::MAX_DEPTH) {
        Ok(n) => (refusal::ACCEPTED, n),
        Err(e) => {
            let v = Values::from(Fault::from(e));
            (v.number, v.line as usize)
        }
    };
    out.write_all(label)?;
    writeln!(out, " {number} {line}")
}

// All of the list. The slices are not cleared between its cases.
fn main(rt: HostRuntime) -> io::Result<()> {
    let mut list = [0u8; words::MAX_BYTES];
    let mut sheet = [0u8; words::MAX_BYTES];
    let mut a = [0u32; words::WORK_WORDS];
    let mut b = [0u32; words::WORK_WORDS];
    let mut stack = [0u32; words::WORK_WORDS];
    let mut records = RecordsMut {
        a: &mut a,
        b: &mut b,
    };
    let n = read_full(&mut rt.stdin(), &mut list)?;
    let mut out = rt.stdout();
    let mut left = &list[..n];
    // A `while`: where the next one begins is what the step before answers.
    while let Some((case, rest)) = first_case(left) {
        let k = build_sheet(case.text, &mut sheet).unwrap_or(0);
        show(&mut out, case.label, &sheet[..k], &mut records, &mut stack)?;
        left = rest;
    }
    Ok(())
}
