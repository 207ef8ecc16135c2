// The field at a place of a line, by its form.
ghost use Rattle.model.specs.Field;
ghost use Rattle.words.specs.Forms.{form_is};
ghost use Rattle.line.specs.FieldRead.{FieldHere};

use crate::field::{Words, alias, float, int, number, text, variable};
use crate::place::Place;
use record::cursor::Cursor;
use record::length::length;
use record::piece::{Piece, piece_end};
use words::form::Form;

// A tab between the pieces of one field is asked for where it stands, here and in `hops`: a function for it would be given the sheet and the place and give back the place behind, as many words as the test.
// A span: two numbers, the start at most the end.
fn span(c: Cursor<'_>) -> Option<Piece<Words>>
    ensures { FieldHere Field.span c.entry.bytes.now c.entry.at result }
{
    let start = number(c, u32::MAX)?;
    let r = start.end;
    if c.bytes[r] != b'\t' {
        return None;
    }
    let behind = Cursor {
        bytes: c.bytes,
        at: r + 1,
    };
    let last = number(behind, u32::MAX)?;
    let first = start.value.first;
    let second = last.value.first;
    if second < first {
        return None;
    }
    Some(Piece {
        value: Words { first, second },
        end: last.end,
    })
}

// The length of a pattern's relationship: three pieces, held as their place.
fn hops(p: Place<'_>) -> Option<Piece<Words>>
    ensures { FieldHere Field.length p.entry.cursor.bytes.now p.entry.cursor.at result }
{
    let sheet = p.cursor.bytes;
    let start = p.cursor.at;
    let r = piece_end(p.cursor);
    if sheet[r] != b'\t' {
        return None;
    }
    let q = r + 1;
    let t = piece_end(Cursor {
        bytes: sheet,
        at: q,
    });
    if sheet[t] != b'\t' {
        return None;
    }
    let u = t + 1;
    let end = piece_end(Cursor {
        bytes: sheet,
        at: u,
    });
    if !length(&sheet[start..r], &sheet[q..t], &sheet[u..end]) {
        return None;
    }
    let value = Words {
        first: start as u32,
        second: end as u32,
    };
    Some(Piece { value, end })
}

// The field of a form that begins at p.
pub fn read_form(p: Place<'_>, form: Form) -> Option<Piece<Words>>
    ensures { FieldHere (form_is form) p.entry.cursor.bytes.now p.entry.cursor.at result }
{
    match form {
        Form::Flag => number(p.cursor, 1),
        Form::Var => number(p.cursor, u32::MAX),
        Form::VarOrAbsent => variable(p.cursor),
        Form::Int => int(p.cursor),
        Form::Float => float(p.cursor),
        Form::Text => text(p),
        Form::Alias => alias(p),
        Form::Span => span(p.cursor),
        Form::Length => hops(p),
        Form::Number(limit) => number(p.cursor, limit),
    }
}
