// How many bytes the first line of an expression has, and the line before one: what is only counted.
// Apart from the functions of `head` that write these lines: with both passes as their callers those were no longer put in place, 90 instructions a record more (docs/PERFORMANCE.md, step 9).
ghost use Rattle.std.specs.Prelude.{◌≡◌, length};
ghost use Rattle.model.specs.Text.{Bytes};
ghost use Rattle.words.specs.Places.{name_at};
ghost use Rattle.plan_line.specs.Copy.{TextIn};
ghost use Rattle.plan_sheet.specs.Measure.{AnyBytes, CallBytes, HeadBytes};
ghost use Rattle.plan_sheet.specs.Asked.{ExprIn, LineIn, LineWrote};

use output::Page;
use plan_line::copy::{line_bytes, text_bytes};
use plan_line::field::number_bytes;
use words::{Record, field, kind};

// A keyword and the line feed. The numbers of a line are counted with the tabs before them.
const VAR_LINE: usize = 4;

// Of `fn` the tab before its name, too.
const FN_LINE: usize = 4;

const LIST_PREDICATE_LINE: usize = 6;

const EXISTS_LINE: usize = 7;

const NULL_LINE: usize = 5;

// A function's line: its name and how many arguments it has.
fn call_bytes(r: Record<'_>) -> usize
    requires { (sheet : Bytes) × TextIn sheet r name_at }
    ensures { CallBytes r.entry.records.now.a.now r.entry.records.now.b.now r.entry.i result }
{
    let args = r.word(field::FN_ARGS);
    FN_LINE + text_bytes(r, field::NAME) + number_bytes(args)
}

// A list predicate's line, whose variable has the number n.
fn any_bytes(r: Record<'_>, n: u32) -> usize
    ensures { AnyBytes r.entry.records.now.a.now r.entry.records.now.b.now r.entry.i n result }
{
    let x = r.word(field::LIST_PREDICATE_KIND);
    let z = r.word(field::LIST_PREDICATE_PRED);
    LIST_PREDICATE_LINE + number_bytes(x) + number_bytes(n) + number_bytes(z)
}

// The first line of the expression at a record, at which the number n is noted.
pub fn expr_bytes(r: Record<'_>, n: u32) -> usize
    requires { (sheet : Bytes) × ExprIn sheet r }
    ensures { HeadBytes r.entry.records.now.a.now r.entry.records.now.b.now r.entry.i n result }
{
    let kind = r.kind();
    match kind {
        kind::VAR => VAR_LINE + number_bytes(n),
        kind::FN => call_bytes(r),
        kind::PAT => EXISTS_LINE,
        kind::LIST_PREDICATE => any_bytes(r, n),
        kind::UNRES | kind::UNDES => NULL_LINE,
        _ => line_bytes(r),
    }
}

// The line before an expression, if a record is one, on an empty part of the slice. Answers the expression's record.
pub fn measure_before(page: &mut Page<'_>, sheet: &[u8], r: Record<'_>) -> usize
    requires bytes_len { length page.old.bytes.now ≡ 0 }
    requires some_line { LineIn sheet.now r }
    ensures { LineWrote sheet.now r.entry page.old result page.new }
{
    let kind = r.kind();
    match kind {
        kind::ENTRY | kind::KEY => {
            page.measure(line_bytes(r));
            r.i + 1
        }
        kind::ITEM => {
            crate::item::put_item(page, sheet, r);
            r.i + 1
        }
        _ => r.i,
    }
}
