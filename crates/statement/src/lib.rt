// The calls: a statement sheet, four work slices, an answer.
#![tactic(auto)]

ghost use Rattle.std.specs.Prelude.{◌≡◌, ◌≤◌, length};
ghost use Rattle.model.specs.Call.{SizeCall, work_words};
ghost use Rattle.words.specs.Lent.{SameSlices};
ghost use Rattle.statement.specs.declared.Fault.TheVariants.{Unread, Refused};
ghost use Rattle.statement.specs.declared.Refusal.TheVariants.{OfSheet};
ghost use Rattle.statement.specs.Answer.{answer_of};
ghost use Rattle.statement.specs.Tests.{bytes_of, TestsSheet};
ghost use Rattle.statement.specs.Work.{lengths, Kept};

pub use work::{Work, long_enough};

pub mod lowering;
pub mod work;

use precheck::{PlanLowerError, precheck_statement};
use sheet::reader::{ReadError, read_sheet};
use words::RecordsMut;

// A plan has at most so many operators for each record of its sheet (crate bounds).
const RECORD_OPERATORS: usize = 4;

// What is wrong with a sheet, an error enum: a refusal of the tests 2 to 8 with what it carries. A name is not carried: its record is that of the line.
#[derive(Clone, Copy, Debug, PartialEq, Eq)]
pub enum Fault {
    LongSheet,
    Unread(ReadError),
    Refused(PlanLowerError),
}

impl From<ReadError> for Fault {
    ghost from_gives = { λ e f. f ≡ Unread e };

    fn from(e: ReadError) -> Fault {
        Fault::Unread(e)
    }
}

impl From<PlanLowerError> for Fault {
    ghost from_gives = { λ e f. f ≡ Refused e };

    fn from(e: PlanLowerError) -> Fault {
        Fault::Refused(e)
    }
}

// How a call refuses. F is what is wrong with a sheet: a `Fault` where there is one sheet, and a fault with its side where there are two.
#[derive(Clone, Copy, Debug, PartialEq, Eq)]
pub enum Refusal<F> {
    ShortWork,
    OfSheet(F),
    PlanFull,
    NoRoom,
}

impl<F> From<F> for Refusal<F> {
    ghost from_gives = { λ f r. r ≡ OfSheet f };

    fn from(f: F) -> Refusal<F> {
        Refusal::OfSheet(f)
    }
}

// Test 2.
pub fn test_bytes(sheet: &[u8]) -> Result<(), Fault>
    ensures { result ≡ bytes_of sheet.now }
{
    if words::MAX_BYTES < sheet.len() {
        return Err(Fault::LongSheet);
    }
    Ok(())
}

// Tests 2 to 8, and the number of records; what passes stands in the words. The stack is the reader's.
fn test_sheet(sheet: &[u8], records: &mut RecordsMut<'_>, stack: &mut [u32]) -> Result<usize, Fault>
    requires { work_words ≤ length stack.old }
    ensures same { SameSlices records.old records.new }
    ensures tested { TestsSheet sheet.now records.new.a.now records.new.b.now result }
{
    test_bytes(sheet)?;
    let n = read_sheet(sheet, records, stack, words::MAX_DEPTH)?;
    precheck_statement(&records.shared(), words::MAX_DEPTH)?;
    Ok(n)
}

// The sizing call: tests 1 to 8, and a figure that is at least the plan's operator count and at most four times the record count.
pub fn size_statement(sheet: &[u8], work: &mut Work<'_>) -> Result<usize, Refusal<Fault>>
    ensures sized { SizeCall (lengths work.old) sheet.now (answer_of result) }
    ensures kept { Kept work.old work.new }
{
    if !work.long_enough() {
        return Err(Refusal::ShortWork);
    }
    let n = test_sheet(
        sheet,
        &mut RecordsMut {
            a: work.a,
            b: work.b,
        },
        work.c,
    )?;
    Ok(n * RECORD_OPERATORS)
}
