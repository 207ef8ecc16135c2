// The first line of an operator that a clause makes.
ghost use Rattle.std.specs.Prelude.{[], ◌∷◌, ◌++◌, ◌<◌};
ghost use Rattle.model.specs.Text.{tab, line_feed};
ghost use Rattle.model.specs.Field.{spell_option};
ghost use Rattle.output.specs.Page.{Puts};
ghost use Rattle.words.specs.Places.{items_at, with_filter_at, call_args_at, call_yields_at, call_optional_at, call_name_at};
ghost use Rattle.context.specs.Ops.{bind_path_kind};
ghost use Rattle.plan_line.specs.Copy.{TextIn, text_of, word_of};
ghost use Rattle.plan_line.specs.Row.{numbers_text, row_text, call_text};
ghost use Rattle.plan_sheet.specs.Asked.{OpIn, FirstWrote};

use context::op;
use context::op::Op;
use output::Page;
use plan_line::copy::text;
use plan_line::field::put_text;
use plan_line::keyword::{Keyword, put_keyword};
use plan_line::row::{put_end, put_row};
use words::{Record, Records, field};

// A `with`: how many items it has, and whether it filters.
fn put_with(page: &mut Page<'_>, r: Record<'_>, input: u32)
    ensures { Puts (row_text Keyword.With (input ∷ word_of r.entry items_at ∷ word_of r.entry with_filter_at ∷ [])) page.old page.new }
{
    let items = r.word(field::ITEMS);
    let filter = r.word(field::WITH_FILTER);
    put_row(page, Keyword::With, [input, items, filter]);
}

// A `return`: how many items it has.
fn put_project(page: &mut Page<'_>, r: Record<'_>, input: u32)
    ensures { Puts (row_text Keyword.Project (input ∷ word_of r.entry items_at ∷ [])) page.old page.new }
{
    let items = r.word(field::ITEMS);
    put_row(page, Keyword::Project, [input, items]);
}

// The input of a procedure, or that it has none.
#[tactic(auto, unfolding(model::specs::Field::spell_option))]
fn put_input(page: &mut Page<'_>, input: Option<u32>)
    ensures { Puts (tab ∷ spell_option input) page.old page.new }
{
    match input {
        None => page.put_part(b"\t-"),
        Some(k) => page.put_tabbed(u64::from(k)),
    }
}

// How many arguments and yields a `call` has and whether it is optional, up to the end of its line.
fn put_counts(page: &mut Page<'_>, r: Record<'_>)
    ensures { Puts (numbers_text (word_of r.entry call_args_at ∷ word_of r.entry call_yields_at ∷ word_of r.entry call_optional_at ∷ []) ++ (line_feed ∷ [])) page.old page.new }
{
    let args = r.word(field::CALL_ARGS);
    let yields = r.word(field::CALL_YIELDS);
    let optional = r.word(field::CALL_OPTIONAL);
    put_end(page, [args, yields, optional]);
}

// A `call`: its input, its procedure's name, and its numbers.
fn put_procedure(page: &mut Page<'_>, sheet: &[u8], r: Record<'_>, input: Option<u32>)
    requires { TextIn sheet.now r call_name_at }
    ensures { Puts (call_text input (text_of sheet.now r.entry call_name_at) (word_of r.entry call_args_at) (word_of r.entry call_yields_at) (word_of r.entry call_optional_at)) page.old page.new }
{
    put_keyword(page, Keyword::Call);
    put_input(page, input);
    put_text(page, text(sheet, r, field::CALL_NAME));
    put_counts(page, r);
}

// The first line of an operator that is none of a pattern's.
pub fn put_clause_op(page: &mut Page<'_>, sheet: &[u8], r: &Records<'_>, rest: &[u32], w: Op)
    requires op_in { OpIn sheet.now r.now rest.now w }
    requires bind_path_kind_lt_kind { bind_path_kind < w.kind }
    ensures { FirstWrote sheet.now r.now rest.now w page.old page.new }
{
    let kind = w.kind;
    let at = Record {
        records: &*r,
        i: w.idx as usize,
    };
    let input = w.input;
    match kind {
        op::OPTIONAL_JOIN => put_row(page, Keyword::Optional, [input]),
        op::WITH => put_with(page, at, input),
        op::PROJECT => put_project(page, at, input),
        op::AGGREGATE => put_row(page, Keyword::Agg, [input, w.x, w.y]),
        op::ORDER_BY => put_row(page, Keyword::Order, [input, w.x]),
        op::SKIP => put_row(page, Keyword::Skip, [input]),
        op::LIMIT => put_row(page, Keyword::Limit, [input]),
        op::DISTINCT => put_row(page, Keyword::Distinct, [input]),
        op::UNWIND => put_row(page, Keyword::Unwind, [input, w.x]),
        op::UNION => put_row(page, Keyword::Union, [input, w.x, w.y]),
        _ => put_procedure(page, sheet, at, op::call_input(w)),
    }
}
