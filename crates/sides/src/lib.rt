// The tests on two sheets: each on the left, then on the right, before the next.
#![tactic(auto)]

ghost use Rattle.std.specs.Prelude.{◌≡◌};
ghost use Rattle.model.specs.Text.{Bytes};
ghost use Rattle.model.specs.Kind.{statement};
ghost use Rattle.model.specs.Call.{max_depth};
ghost use Rattle.words.specs.Held.{HeldSome};
ghost use Rattle.words.specs.Lent.{SameSlices};
ghost use Rattle.sheet.specs.Reader.{ReaderAsked};
ghost use Rattle.sides.specs.Sides.{found_on, each_of, unread_of, writes_of, read_of, ChecksSheet, TestedBoth};

use precheck::precheck_statement;
use sheet::reader::{ReadError, read_sheet};
use statement::Fault;
use words::{Records, RecordsMut};

// The sheet of a pair that a fault is of, with the numbers that document 01 tells them by; 0 is the call as a whole.
#[derive(Clone, Copy, Debug, PartialEq, Eq)]
pub enum Side {
    Left = 1,
    Right = 2,
}

impl Side {
    // What a test finds in this side's sheet, with the side.
    fn of(self, found: Result<(), Fault>) -> Result<(), SideFault>
        ensures { result ≡ found_on self found }
    {
        found.map_err(|fault| SideFault { side: self, fault })
    }
}

// A fault with its side.
#[derive(Clone, Copy, Debug, PartialEq, Eq)]
pub struct SideFault {
    pub side: Side,
    pub fault: Fault,
}

// One test on both sheets: the left's fault is reported first.
pub fn each(left: Result<(), Fault>, right: Result<(), Fault>) -> Result<(), SideFault>
    ensures { result ≡ each_of left right }
{
    Side::Left.of(left)?;
    Side::Right.of(right)
}

// Tests 3 and 4, of what the reader answers.
fn unread(read: Result<usize, ReadError>) -> Result<(), Fault>
    ensures { result ≡ unread_of read }
{
    match read {
        Ok(_) | Err(ReadError::WriteClause(_)) => Ok(()),
        Err(e) => Err(Fault::Unread(e)),
    }
}

// Test 5, of what the reader answers.
fn writes(read: Result<usize, ReadError>) -> Result<(), Fault>
    ensures { result ≡ writes_of read }
{
    match read {
        Err(ReadError::WriteClause(l)) => Err(Fault::Unread(ReadError::WriteClause(l))),
        _ => Ok(()),
    }
}

// Tests 3 and 4 on both sheets, and then 5 on both, of what the reader answers to each.
fn both_read(
    left: Result<usize, ReadError>,
    right: Result<usize, ReadError>,
) -> Result<(), SideFault>
    ensures { result ≡ read_of left right }
{
    each(unread(left), unread(right))?;
    each(writes(left), writes(right))
}

// Tests 6 to 8 on the statement that the words hold.
fn checks(r: &Records<'_>) -> Result<(), Fault>
    requires { (sheet : Bytes) × HeldSome sheet r.now.a.now r.now.b.now statement max_depth 0 }
    ensures { ChecksSheet r.now.a.now r.now.b.now result }
{
    precheck_statement(r, words::MAX_DEPTH)?;
    Ok(())
}

// Tests 3 to 8 on sheets that are not too long; what passes stands in the words. Each sheet has a slice for the reader's stack.
pub fn test_sides(
    left: &[u8],
    l: &mut RecordsMut<'_>,
    left_stack: &mut [u32],
    right: &[u8],
    r: &mut RecordsMut<'_>,
    right_stack: &mut [u32],
) -> Result<(), SideFault>
    requires { ReaderAsked left.now left_stack.old × ReaderAsked right.now right_stack.old }
    ensures same { SameSlices l.old l.new × SameSlices r.old r.new }
    ensures tested { TestedBoth left.now l.new.a.now l.new.b.now right.now r.new.a.now r.new.b.now result }
{
    let x = read_sheet(left, l, left_stack, words::MAX_DEPTH);
    let y = read_sheet(right, r, right_stack, words::MAX_DEPTH);
    both_read(x, y)?;
    each(checks(&l.shared()), checks(&r.shared()))
}
