// The first line of an expression, and the line that stands before one.
ghost use Rattle.std.specs.Prelude.{[], ◌∷◌};
ghost use Rattle.model.specs.Record.{spell_rec};
ghost use Rattle.output.specs.Page.{Puts};
ghost use Rattle.words.specs.Places.{fn_args_at, list_predicate_kind_at, list_predicate_pred_at, name_at};
ghost use Rattle.plan_line.specs.Copy.{TextIn, text_of, word_of};
ghost use Rattle.plan_line.specs.Row.{row_text, named_text};
ghost use Rattle.model.specs.Lower.{expr_head};
ghost use Rattle.plan_sheet.specs.Asked.{ExprIn, LineIn, LineWrote};

use output::Page;
use plan_line::copy::{put_copied, text};
use plan_line::field::put_int;
use plan_line::keyword::Keyword;
use plan_line::row::{put_named, put_row};
use words::{Record, field, kind};

// A function's name and how many arguments it has.
fn put_call(page: &mut Page<'_>, sheet: &[u8], r: Record<'_>)
    requires { TextIn sheet.now r name_at }
    ensures { Puts (named_text Keyword.Fn (text_of sheet.now r.entry name_at) (word_of r.entry fn_args_at ∷ [])) page.old page.new }
{
    let n = r.word(field::FN_ARGS);
    put_named(page, Keyword::Fn, text(sheet, r, field::NAME), [n]);
}

// A list predicate, whose variable has the number n.
fn put_any(page: &mut Page<'_>, r: Record<'_>, n: u32)
    ensures { Puts (row_text Keyword.ListPredicate (word_of r.entry list_predicate_kind_at ∷ n ∷ word_of r.entry list_predicate_pred_at ∷ [])) page.old page.new }
{
    let x = r.word(field::LIST_PREDICATE_KIND);
    let z = r.word(field::LIST_PREDICATE_PRED);
    put_row(page, Keyword::ListPredicate, [x, n, z]);
}

// The first line of the expression at a record, at which the number n is noted.
pub fn put_expr(page: &mut Page<'_>, sheet: &[u8], r: Record<'_>, n: u32)
    requires { ExprIn sheet.now r }
    ensures { (h : ExprIn sheet.now r.entry) → Puts (spell_rec (expr_head n h.kind h.fields)) page.old page.new }
{
    let kind = r.kind();
    match kind {
        kind::VAR => put_row(page, Keyword::Var, [n]),
        kind::INT => put_int(page, r),
        kind::FN => put_call(page, sheet, r),
        kind::PAT => put_row(page, Keyword::Exists, []),
        kind::LIST_PREDICATE => put_any(page, r, n),
        kind::UNRES | kind::UNDES => put_row(page, Keyword::Null, []),
        _ => put_copied(page, sheet, r),
    }
}

// The line before an expression, if a record is one: a map's name, a sort key, or an item's name. Answers the expression's record.
pub fn put_before(page: &mut Page<'_>, sheet: &[u8], r: Record<'_>) -> usize
    requires { LineIn sheet.now r }
    ensures { LineWrote sheet.now r.entry page.old result page.new }
{
    let kind = r.kind();
    match kind {
        kind::ENTRY | kind::KEY => {
            put_copied(page, sheet, r);
            r.i + 1
        }
        kind::ITEM => {
            crate::item::put_item(page, sheet, r);
            r.i + 1
        }
        _ => r.i,
    }
}
