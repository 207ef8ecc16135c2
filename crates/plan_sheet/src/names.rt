// Names one after another, and the line of a pattern's element.
ghost use Rattle.std.specs.Prelude.{◌≡◌, [], ◌∷◌, ◌+◌};
ghost use Rattle.model.specs.Record.{spell_rec, spell_recs};
ghost use Rattle.output.specs.Page.{Puts};
ghost use Rattle.lower.specs.Render.{spec_rec};
ghost use Rattle.plan_sheet.specs.Due.{Names, names_recs};
ghost use Rattle.words.specs.Places.{node_labels_at, node_props_at, rel_types_at, rel_direction_at, rel_length_at, rel_props_at};
ghost use Rattle.plan_line.specs.Copy.{TextIn, text_of, word_of};
ghost use Rattle.plan_line.specs.Row.{row_text, rel_text};
ghost use Rattle.plan_sheet.specs.Asked.{NamesIn, ElementIn};

use output::Page;
use plan_line::copy::{put_copied, text};
use plan_line::field::{put_number, put_text};
use plan_line::keyword::{Keyword, put_keyword};
use plan_line::row::put_row;
use words::{Record, Records, field, kind};

// The n names from record i on, all records and a place, since where there are none no record need stand. Answers the record behind them.
pub fn put_names(page: &mut Page<'_>, sheet: &[u8], r: &Records<'_>, i: usize, n: usize) -> usize
    requires { NamesIn sheet.now r.now n i }
    ensures { (h : NamesIn sheet.now r.now n i) → (result ≡ i + n) × Puts (spell_recs (names_recs h)) page.old page.new }
{
    let next = i + n;
    for at in i..next {
        let name = Record {
            records: &*r,
            i: at,
        };
        put_copied(page, sheet, name);
    }
    next
}

// A rel without its variable and its span.
fn put_rel(page: &mut Page<'_>, sheet: &[u8], r: Record<'_>)
    requires { TextIn sheet.now r rel_length_at }
    ensures { Puts (rel_text (word_of r.entry rel_types_at) (word_of r.entry rel_direction_at) (text_of sheet.now r.entry rel_length_at) (word_of r.entry rel_props_at)) page.old page.new }
{
    let types = r.word(field::REL_TYPES);
    let direction = r.word(field::REL_DIRECTION);
    let props = r.word(field::REL_PROPS);
    put_keyword(page, Keyword::Rel);
    put_number(page, types);
    put_number(page, direction);
    put_text(page, text(sheet, r, field::REL_LENGTH));
    put_number(page, props);
    page.put_byte(b'\n');
}

// A node without its variable and its span.
fn put_node(page: &mut Page<'_>, r: Record<'_>)
    ensures { Puts (row_text Keyword.To (word_of r.entry node_labels_at ∷ word_of r.entry node_props_at ∷ [])) page.old page.new }
{
    let labels = r.word(field::NODE_LABELS);
    let props = r.word(field::NODE_PROPS);
    put_row(page, Keyword::To, [labels, props]);
}

// The element at a record: a node, or else a rel.
pub fn put_element(page: &mut Page<'_>, sheet: &[u8], r: Record<'_>)
    requires { ElementIn sheet.now r }
    ensures { (h : ElementIn sheet.now r.entry) → Puts (spell_rec (spec_rec h.kind h.fields)) page.old page.new }
{
    let kind = r.kind();
    if kind == kind::NODE {
        return put_node(page, r);
    }
    put_rel(page, sheet, r);
}
