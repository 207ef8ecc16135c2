// Parts of the statement sheet, copied into the plan sheet: a line that is the same in both sheets is copied whole.
ghost use Rattle.std.specs.Prelude.{◌≡◌, ◌+◌, ◌<◌, ◌≤◌, length};
ghost use Rattle.std.proofs.Math.Seq.{slice};
ghost use Rattle.model.specs.Text.{Bytes};
ghost use Rattle.words.specs.Words.{record_words};
ghost use Rattle.plan_line.specs.Copy.{RecordIn, LineCopied, LineHas, TextIn, TextHas, text_of};

use output::Page;
use words::{Record, field};

// The bytes of the sheet from one place up to another.
fn part(sheet: &[u8], from: u32, to: u32) -> &[u8]
    requires { (from ≤ to) × (to ≤ length sheet.now) }
    ensures { result.now ≡ slice from to sheet.now }
{
    &sheet[from as usize..to as usize]
}

// The text of a record, a name or a length, whose place stands in its word c and in the next one.
pub fn text<'s>(sheet: &'s [u8], r: Record<'_>, c: usize) -> &'s [u8]
    requires words { c + 1 < record_words }
    requires text_in { TextIn sheet.now r c }
    ensures { result.now ≡ text_of sheet.now r.entry c }
{
    let from = r.word(c);
    let to = r.word(c + 1);
    part(sheet, from, to)
}

// How many bytes that text has.
pub fn text_bytes(r: Record<'_>, c: usize) -> usize
    requires words { c + 1 < record_words }
    requires text_in { (sheet : Bytes) × TextIn sheet r c }
    ensures { TextHas r.entry c result }
{
    let from = r.word(c);
    let to = r.word(c + 1);
    let bytes = to - from;
    bytes as usize
}

// How many bytes the line of a record has in the statement sheet.
pub fn line_bytes(r: Record<'_>) -> usize
    requires { (sheet : Bytes) × RecordIn sheet r }
    ensures { LineHas r.entry result }
{
    let start = r.word(field::LINE_START);
    let end = r.word(field::LINE_END);
    let bytes = end - start;
    bytes as usize
}

// The line of a record, as the statement sheet has it.
pub fn put_copied(page: &mut Page<'_>, sheet: &[u8], r: Record<'_>)
    requires { RecordIn sheet.now r }
    ensures { LineCopied sheet.now r.entry page.old page.new }
{
    let start = r.word(field::LINE_START);
    let end = r.word(field::LINE_END);
    page.put_part(part(sheet, start, end));
}
