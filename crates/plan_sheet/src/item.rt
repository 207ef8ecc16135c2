// The line of an item: its alias, or a name by its expression; and that of an aggregate.
ghost use Rattle.std.specs.Prelude.{[], ◌++◌};
ghost use Rattle.model.specs.Text.{bytes, decimal};
ghost use Rattle.model.specs.Record.{spell_rec};
ghost use Rattle.output.specs.Page.{Puts};
ghost use Rattle.words.specs.Places.{name_at};
ghost use Rattle.plan_line.specs.Copy.{TextIn, text_of};
ghost use Rattle.plan_line.specs.Row.{named_text};
ghost use Rattle.model.specs.Lower.{expr_alias};
ghost use Rattle.plan_sheet.specs.Due.{named_rec, item_name};
ghost use Rattle.plan_sheet.specs.Asked.{ExprIn, ItemIn, agg_text_of};

use output::Page;
use plan_line::copy::text;
use plan_line::keyword::{Keyword, put_keyword};
use plan_line::row::put_named;
use words::{Record, field, kind};

// The name that a record has: an item's alias, a property, a function.
fn put_own_name(page: &mut Page<'_>, sheet: &[u8], r: Record<'_>)
    requires { TextIn sheet.now r name_at }
    ensures { Puts (named_text Keyword.Item (text_of sheet.now r.entry name_at) []) page.old page.new }
{
    put_named(page, Keyword::Item, text(sheet, r, field::NAME), []);
}

// `_v` and a variable's id.
fn put_id_name(page: &mut Page<'_>, id: u32)
    ensures { Puts (named_text Keyword.Item (bytes "_v" ++ decimal id) []) page.old page.new }
{
    put_keyword(page, Keyword::Item);
    page.put_part(b"\t_v");
    page.put_decimal(u64::from(id));
    page.put_byte(b'\n');
}

// `_` alone.
#[tactic(auto, unfolding(model::specs::Text::bytes, model::specs::Text::bytes_from))]
fn put_no_name(page: &mut Page<'_>)
    ensures { Puts (named_text Keyword.Item (bytes "_") []) page.old page.new }
{
    put_named(page, Keyword::Item, b"_", []);
}

// The name of an item without an alias, whose expression is at a record.
fn put_synthesised(page: &mut Page<'_>, sheet: &[u8], r: Record<'_>)
    requires { ExprIn sheet.now r }
    ensures { (h : ExprIn sheet.now r.entry) → Puts (spell_rec (named_rec (expr_alias h.kind h.fields))) page.old page.new }
{
    let kind = r.kind();
    let id = r.word(field::VAR_ID);
    match kind {
        kind::PROP | kind::FN => put_own_name(page, sheet, r),
        kind::VAR => put_id_name(page, id),
        _ => put_no_name(page),
    }
}

// The item at a record; its expression is the next one.
pub fn put_item(page: &mut Page<'_>, sheet: &[u8], r: Record<'_>)
    requires { ItemIn sheet.now r }
    ensures { (h : ItemIn sheet.now r.entry) → Puts (spell_rec (named_rec (item_name h))) page.old page.new }
{
    // no name stands at the place 0, and the word is one of a lent slice
    let alias = r.word(field::ITEM_ALIAS);
    if alias != 0 {
        return put_own_name(page, sheet, r);
    }
    let expr = Record {
        records: &*r.records,
        i: r.i + 1,
    };
    put_synthesised(page, sheet, expr);
}

// An aggregate: its function's name, how many arguments it has, and whether they are distinct.
pub fn put_agg(page: &mut Page<'_>, sheet: &[u8], r: Record<'_>)
    requires { TextIn sheet.now r name_at }
    ensures { Puts (agg_text_of sheet.now r.entry) page.old page.new }
{
    let args = r.word(field::FN_ARGS);
    let distinct = r.word(field::FN_DISTINCT);
    put_named(
        page,
        Keyword::AggFn,
        text(sheet, r, field::NAME),
        [args, distinct],
    );
}
