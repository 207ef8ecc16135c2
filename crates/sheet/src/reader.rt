// Reading a sheet line by line.
ghost use Rattle.std.specs.Prelude.{◌≡◌, ℕ, ◌+◌, ◌<◌, ◌≤◌};
ghost use Rattle.words.specs.Lent.{SameSlices};
ghost use Rattle.line.specs.Place.{InLine};
ghost use Rattle.sheet.specs.LineLaws.{LastFeed, LinesEnd};
ghost use Rattle.sheet.specs.Stack.{max_room};
ghost use Rattle.sheet.specs.Dues.{dues};
ghost use Rattle.sheet.specs.Reader.{ReaderAsked, Reads, SoFar, Ends};
ghost use Rattle.sheet.specs.Next.{Next};

use crate::reached::Reached;
use crate::stack::{Group, Stack};
use line::place::Place;
use line::read::read_into;
use record::cursor::Cursor;
use words::RecordsMut;
use words::sort::Sort;

// Why a sheet is not read as a tree that can be lowered, with the line.
#[derive(Clone, Copy, Debug, PartialEq, Eq)]
pub enum ReadError {
    BadLine(u32),
    BigTree(u32),
    WriteClause(u32),
}

// Nothing is due any more: the number of records, or what is wrong with them all.
fn finish(sheet: &[u8], at: Reached) -> Result<usize, ReadError>
    ensures { Ends sheet.now at.records at.pos at.write result }
{
    if at.pos < sheet.len() {
        return Err(ReadError::BadLine(at.line()));
    }
    match at.write {
        Some(line) => Err(ReadError::WriteClause(line)),
        None => Ok(at.records),
    }
}

// Where the last line feed stands.
fn last_feed(sheet: &[u8]) -> Option<usize>
    ensures { LastFeed sheet.now result }
{
    sheet.iter().rposition(|b| *b == b'\n')
}

// The place behind the last line feed: from there on no line has its line feed. Where there is none, that is so from the sheet's start on: 0 is a place like the others, and no mark for none.
fn lines_end(sheet: &[u8]) -> usize
    ensures { LinesEnd sheet.now result }
{
    last_feed(sheet).map_or(0, |z| z + 1)
}

// The line behind what is read, which has its line feed, as a record of the topmost group.
// The depth stands in clauses as `(depth : ℕ) ×` and `→`: as a `ghost` parameter it was tried, and those are picked from a call's arguments, of which it is none.
// The place is in `at`, which changes, so that the sheet stands beside it, and not both as a `Place`; what is asked of a sheet and a stack relates two slices that are lent apart.
// How far the sheet is read goes by `&mut`: given back and assigned whole in the loop it was tried, and the loop then sees it without its ghost field.
fn read_next(
    sheet: &[u8],
    words: &mut RecordsMut<'_>,
    stack: &mut Stack<'_>,
    at: &mut Reached,
) -> Result<(), ReadError>
    requires in_line { InLine sheet.now at.old.pos }
    requires due { 0 < stack.old.groups }
    requires so_far { (depth : ℕ) × SoFar depth sheet.now words.old.a.now words.old.b.now (dues stack.old.words.now stack.old.groups) at.old.records at.old.pos at.old.write }
    ensures same { SameSlices words.old words.new }
    ensures next { (depth : ℕ) → SoFar depth sheet.now words.old.a.now words.old.b.now (dues stack.old.words.now stack.old.groups) at.old.records at.old.pos at.old.write → Next depth sheet.now words.new.a.now words.new.b.now (dues stack.new.words.now stack.new.groups) at.old.records at.new result }
{
    let i = at.records;
    let top = stack.take();
    if i == words::MAX_RECORDS || top.room == 0 {
        return Err(ReadError::BigTree(at.line()));
    }
    let bad = ReadError::BadLine(at.line());
    let here = Place {
        cursor: Cursor {
            bytes: sheet,
            at: at.pos,
        },
    };
    let line = read_into(here, top.sort, words, i).ok_or(bad)?;
    let records = words.shared();
    stack.push_groups(records.at(i), line.value, top.room_below());
    at.advance(line.value, line.end);
    Ok(())
}

// Reads a sheet of at most a depth into records; the slice is room to work in. What a refusal leaves in them is not promised.
pub fn read_sheet(
    sheet: &[u8],
    words: &mut RecordsMut<'_>,
    stack: &mut [u32],
    depth: usize,
) -> Result<usize, ReadError>
    requires reader_asked { ReaderAsked sheet.now stack.old }
    requires depth_le_max_room { depth ≤ max_room }
    ensures same { SameSlices words.old words.new }
    ensures reads { Reads depth sheet.now words.new.a.now words.new.b.now result }
{
    let last = lines_end(sheet);
    let mut due = Stack {
        words: stack,
        groups: 0,
    };
    due.push(Group {
        sort: Sort::Statement,
        count: 1,
        room: depth as u32,
    });
    let mut at = Reached {
        records: 0,
        pos: 0,
        write: None,
    };
    // A `while`, since each line may add groups to those that are due.
    while due.groups > 0 {
        if last <= at.pos {
            return Err(ReadError::BadLine(at.line()));
        }
        read_next(sheet, words, &mut due, &mut at)?;
    }
    finish(sheet, at)
}
