// The keywords of the plan sheet.
ghost use Rattle.output.specs.Page.{Puts};
ghost use Rattle.plan_line.specs.Keywords.{word};

use output::Page;

// Those that the plan sheet does not have from the statement sheet: of expressions, of operators, and of the first line and what stands below operators.
#[derive(Clone, Copy, Debug, PartialEq, Eq)]
pub enum Keyword {
    Null,
    Int,
    Var,
    Fn,
    Exists,
    ListPredicate,
    Source,
    Expand,
    Filter,
    Project,
    Agg,
    Order,
    Skip,
    Limit,
    Distinct,
    Unwind,
    Union,
    With,
    Optional,
    Short,
    Path,
    Call,
    Plan,
    Rel,
    To,
    Item,
    AggFn,
    Element,
    Variable,
    Yield,
}

// A keyword. Each arm puts its own bytes, so that they are stored as constants of a known length.
#[tactic(auto, unfolding(crate::specs::Keywords::word, model::specs::Text::bytes, model::specs::Text::bytes_from))]
pub fn put_keyword(page: &mut Page<'_>, k: Keyword)
    ensures { Puts (word k) page.old page.new }
{
    match k {
        Keyword::Null => page.put_part(b"null"),
        Keyword::Int => page.put_part(b"int"),
        Keyword::Var => page.put_part(b"var"),
        Keyword::Fn => page.put_part(b"fn"),
        Keyword::Exists => page.put_part(b"exists"),
        Keyword::ListPredicate => page.put_part(b"listp"),
        Keyword::Source => page.put_part(b"source"),
        Keyword::Expand => page.put_part(b"expand"),
        Keyword::Filter => page.put_part(b"filter"),
        Keyword::Project => page.put_part(b"project"),
        Keyword::Agg => page.put_part(b"agg"),
        Keyword::Order => page.put_part(b"order"),
        Keyword::Skip => page.put_part(b"skip"),
        Keyword::Limit => page.put_part(b"limit"),
        Keyword::Distinct => page.put_part(b"distinct"),
        Keyword::Unwind => page.put_part(b"unwind"),
        Keyword::Union => page.put_part(b"union"),
        Keyword::With => page.put_part(b"with"),
        Keyword::Optional => page.put_part(b"optional"),
        Keyword::Short => page.put_part(b"short"),
        Keyword::Path => page.put_part(b"path"),
        Keyword::Call => page.put_part(b"call"),
        Keyword::Plan => page.put_part(b"plan"),
        Keyword::Rel => page.put_part(b"rel"),
        Keyword::To => page.put_part(b"to"),
        Keyword::Item => page.put_part(b"item"),
        Keyword::AggFn => page.put_part(b"aggf"),
        Keyword::Element => page.put_part(b"e"),
        Keyword::Variable => page.put_part(b"v"),
        Keyword::Yield => page.put_part(b"yield"),
    }
}
