// The first line of an operator.
ghost use Rattle.std.specs.Prelude.{[], ◌∷◌, ◌+◌, ◌≤◌, ◌<◌, eqb, length};
ghost use Rattle.model.specs.Call.{work_words};
ghost use Rattle.model.specs.Record.{one, all_shortest};
ghost use Rattle.output.specs.Page.{Puts};
ghost use Rattle.words.specs.Words.{max_records};
ghost use Rattle.words.specs.Places.{node_labels_at, part_shortest_at};
ghost use Rattle.context.specs.Read.{note_of};
ghost use Rattle.plan_line.specs.Copy.{word_of};
ghost use Rattle.plan_line.specs.Row.{row_text};
ghost use Rattle.plan_sheet.specs.Due.{NotesIn, NotedAsked};
ghost use Rattle.plan_sheet.specs.Asked.{OpIn, FirstWrote};

use context::op;
use context::op::Op;
use context::read::note_of;
use output::Page;
use plan_line::keyword::Keyword;
use plan_line::row::put_row;
use words::{Record, Records, field};

// A part that asks for all shortest paths, and not for one: the word of its record as it stands.
const ALL_SHORTEST: u32 = 2;

// The first line of an expand, whose numbers are noted at the rel and its far node.
fn put_expand(page: &mut Page<'_>, rest: &[u32], w: Op)
    requires notes_in { NotesIn rest.now w }
    requires y_lt_max_records { w.y < max_records }
    ensures { Puts (row_text Keyword.Expand (w.input ∷ w.x ∷ note_of rest.now w.base w.idx ∷ note_of rest.now w.base w.y ∷ [])) page.old page.new }
{
    let base = w.base as usize;
    let bind = note_of(rest, base, w.idx as usize);
    let to = note_of(rest, base, w.y as usize);
    put_row(page, Keyword::Expand, [w.input, w.x, bind, to]);
}

// The first line of a shortest part, which notes the path's number; its first node is the record behind it.
fn put_short(page: &mut Page<'_>, r: Record<'_>, rest: &[u32], w: Op)
    requires { NotedAsked rest.now w (w.y < max_records) }
    ensures { Puts (row_text Keyword.Short (w.input ∷ note_of rest.now w.base (w.idx + 1) ∷ note_of rest.now w.base w.y ∷ note_of rest.now w.base w.idx ∷ one (eqb (word_of r.entry part_shortest_at) all_shortest) ∷ [])) page.old page.new }
{
    let base = w.base as usize;
    let i = w.idx as usize;
    let from = note_of(rest, base, i + 1);
    let to = note_of(rest, base, w.y as usize);
    let path = note_of(rest, base, i);
    let all = u32::from(r.word(field::PART_SHORTEST) == ALL_SHORTEST);
    put_row(page, Keyword::Short, [w.input, from, to, path, all]);
}

// The first line of a source by labels.
fn put_source(page: &mut Page<'_>, r: Record<'_>, x: u32)
    ensures { Puts (row_text Keyword.Source (x ∷ word_of r.entry node_labels_at ∷ [])) page.old page.new }
{
    let labels = r.word(field::NODE_LABELS);
    put_row(page, Keyword::Source, [x, labels]);
}

// The first line of an operator: of a pattern's here, of a clause's there.
pub fn put_op(page: &mut Page<'_>, sheet: &[u8], r: &Records<'_>, rest: &[u32], w: Op)
    requires in_rest { work_words ≤ length rest.now }
    requires op_in { OpIn sheet.now r.now rest.now w }
    ensures { FirstWrote sheet.now r.now rest.now w page.old page.new }
{
    let kind = w.kind;
    let at = Record {
        records: &*r,
        i: w.idx as usize,
    };
    match kind {
        op::SOURCE_ALL | op::SOURCE_NO_PARTS => put_row(page, Keyword::Source, [w.x, 0]),
        op::SOURCE => put_source(page, at, w.x),
        op::FILTER => put_row(page, Keyword::Filter, [w.input]),
        op::EXPAND => put_expand(page, rest, w),
        op::SHORTEST_PATH => put_short(page, at, rest, w),
        op::BIND_PATH => put_row(page, Keyword::Path, [w.input, w.y, w.x]),
        _ => crate::clause::put_clause_op(page, sheet, r, rest, w),
    }
}
