// A line read into the sixteen words of a record.
ghost use Rattle.std.specs.Prelude.{◌≡◌, ◌<◌, ◌≤◌, length};
ghost use Rattle.line.specs.LineRead.{FieldsAsked, FieldsHere, LineHere, IntoHere};
ghost use Rattle.words.specs.Words.{max_records, record_words};
ghost use Rattle.words.specs.Lent.{SameSlices};
ghost use Rattle.words.specs.Sorts.{sort_is};
ghost use Rattle.words.specs.Table.{max_fields, forms_at};

use crate::form::read_form;
use crate::group::children_of;
use crate::kind::{kind_named, read_keyword};
use crate::place::Place;
use record::cursor::Cursor;
use record::piece::Piece;
use words::records::RecordsMut;
use words::sort::Sort;
use words::table::form_at;
use words::{field, kind};

// Where the two words of the first field stand; each field behind it has the next two.
const FIRST_WORD: usize = 2;

const SECOND_WORD: usize = 3;

// How many fields a kind has: a new record is a row here too. The loop over them ends by it, so that a record with none has no turn; up to where `form_at` gives none it was 18 instructions a record more.
#[tactic(auto, unfolding(words::specs::Table::forms_at, words::specs::Table::forms_from, words::specs::Table::forms_in))]
fn fields_of(kind: u32) -> usize
    ensures { (result ≡ length (forms_at kind)) × (result ≤ max_fields) }
{
    match kind {
        kind::STMT => 2,
        kind::ARM => 2,
        kind::MATCH => 3,
        kind::WHERE => 1,
        kind::WITH => 6,
        kind::RETURN => 6,
        kind::UNWIND => 2,
        kind::CALL => 5,
        kind::WRITE => 1,
        kind::ITEM => 1,
        kind::KEY => 1,
        kind::PART => 3,
        kind::NODE => 4,
        kind::REL => 6,
        kind::NAME => 1,
        kind::YIELD => 2,
        kind::ENTRY => 1,
        kind::NULL => 0,
        kind::BOOL => 1,
        kind::INT => 1,
        kind::FLOAT => 1,
        kind::STR => 1,
        kind::PARAM => 1,
        kind::PROP => 1,
        kind::INDEX => 0,
        kind::SLICE => 2,
        kind::LIST => 1,
        kind::BIN => 1,
        kind::UN => 1,
        kind::CASE => 3,
        kind::IS_NULL => 1,
        kind::IN => 0,
        kind::VAR => 1,
        kind::MAP => 1,
        kind::FN => 3,
        kind::PAT => 1,
        kind::LIST_PREDICATE => 3,
        kind::UNRES => 1,
        kind::UNDES => 1,
        _ => 0,
    }
}

// A record's words are lent as a slice with its length in the contracts, not as an array: an array made of a part of a slice (`try_from`, `as_mut_array`) was tried, and nothing then tells what the slice holds behind the loan.

// The fields of a kind, from behind place p on: field g goes to the words 2g + 2 and 2g + 3. Each stands behind a tab, and the line feed behind the last. Where the line ends, of which all fields are read.
fn read_fields(p: Place<'_>, kind: u32, part: &mut [u32]) -> Option<usize>
    requires { FieldsAsked p.cursor.bytes.now p.cursor.at part.old }
    ensures { FieldsHere kind p.entry.cursor.bytes.now p.entry.cursor.at part.old part.new result }
{
    let sheet = p.cursor.bytes;
    let mut at = p.cursor.at;
    for g in 0..fields_of(kind) {
        let Some(form) = form_at(kind, g) else {
            break;
        };
        if sheet[at] != b'\t' {
            return None;
        }
        let behind = at + 1;
        let read = read_form(
            Place {
                cursor: Cursor {
                    bytes: sheet,
                    at: behind,
                },
            },
            form,
        )?;
        part[g + g + FIRST_WORD] = read.value.first;
        part[g + g + SECOND_WORD] = read.value.second;
        at = read.end;
    }
    if sheet[at] == b'\n' {
        return Some(at);
    }
    None
}

// The line at p as a record of a sort, in the sixteen words of `part`: the number of its kind and the place behind the line. If there is none, what stands in `part` is not promised.
pub fn read_line(p: Place<'_>, sort: Sort, part: &mut [u32]) -> Option<Piece<u32>>
    requires { length part.old ≡ record_words }
    ensures { LineHere (sort_is sort) p.entry.cursor.bytes.now p.entry.cursor.at part.new result }
{
    let key = read_keyword(p.cursor);
    let k = kind_named(key.word?, sort)?;
    part[field::LINE_START] = p.cursor.at as u32;
    part[field::KIND] = k;
    let fields = Cursor {
        bytes: p.cursor.bytes,
        at: key.end,
    };
    let e = read_fields(Place { cursor: fields }, k, part)?;
    part[field::CHILDREN] = children_of(part, k);
    let behind = e + 1;
    part[field::LINE_END] = behind as u32;
    Some(Piece {
        value: k,
        end: behind,
    })
}

// The same into record i.
pub fn read_into(
    p: Place<'_>,
    sort: Sort,
    records: &mut RecordsMut<'_>,
    i: usize,
) -> Option<Piece<u32>>
    requires { i < max_records }
    ensures same { SameSlices records.old records.new }
    ensures into { IntoHere (sort_is sort) p.entry.cursor.bytes.now p.entry.cursor.at i records.old.a.now records.old.b.now records.new.a.now records.new.b.now result }
{
    if i < words::FIRST_RECORDS {
        let at = i * words::RECORD_WORDS;
        let z = at + words::RECORD_WORDS;
        return read_line(p, sort, &mut records.a[at..z]);
    }
    let at = (i - words::FIRST_RECORDS) * words::RECORD_WORDS;
    let z = at + words::RECORD_WORDS;
    read_line(p, sort, &mut records.b[at..z])
}
