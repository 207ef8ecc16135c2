// What the programs of the gate print alike.
#![tactic(auto)]

ghost use Rattle.std.specs.Prelude.{◌≡◌, ◌≤◌, length, min, take, OnOk};
ghost use Rattle.std.specs.Io.KnownBytes.{Appends};
ghost use Rattle.values.specs.Told.{told};
ghost use Rattle.values.specs.Text.{values_text};
ghost use Rattle.gate_answers.specs.Line.{answer_line, blank, line_bytes, shown_bytes};

use std::io;
use std::io::Write;
use values::Values;
use values::text::write_values;

// Room for the six values of an answer, each behind a blank.
const LINE_BYTES: usize = 160;

// So many bytes of a plan are printed at most.
const SHOWN: usize = 2048;

// An answer's number, line, start, end, kind and length, on a line.
pub fn say_answer<W: Write>(out: &mut W, v: Values) -> io::Result<()>
    ensures { OnOk result (length (values_text blank (told v)) ≤ line_bytes → Appends (W.contents out.old) (W.contents out.new) (answer_line (told v))) }
{
    let mut line = [0u8; LINE_BYTES];
    let n = write_values(&mut line, b' ', v).unwrap_or(0);
    out.write_all(b"answer")?;
    out.write_all(&line[..n])?;
    out.write_all(b"\n")
}

// The bytes of a plan that are printed: the first ones.
pub fn shown(plan: &[u8]) -> &[u8]
    ensures { result.now ≡ take (min (length plan.now) shown_bytes) plan.now }
{
    &plan[..plan.len().min(SHOWN)]
}
