// Which calls aggregate: by the function's name, in any ASCII letter case.
#![tactic(auto)]

ghost use Rattle.std.specs.Prelude.{◌≡◌, ℕ};
ghost use Rattle.std.specs.List.{list_any};
ghost use Rattle.std.specs.Str.{str_eq_ignore_ascii_case};
ghost use Rattle.model.specs.Field.{Form};
ghost use Rattle.model.specs.Kind.{expr};
ghost use Rattle.model.specs.Tree.{Tree};
ghost use Rattle.model.specs.Lower.{is_aggregate_func};
ghost use Rattle.words.specs.Words.{field_of};
ghost use Rattle.words.specs.Held.{PlaceAt, Held};
ghost use Rattle.lower.specs.Render.{is_aggregate};
ghost use Rattle.aggregate.specs.Names.{SomeExpr};

use words::{Record, field, kind};

// The names of the aggregating functions, in small letters.
static NAMES: [&[u8]; 10] = [
    b"count",
    b"sum",
    b"avg",
    b"min",
    b"max",
    b"collect",
    b"stdev",
    b"stdevp",
    b"percentilecont",
    b"percentiledisc",
];

// Whether a text is one of some, in any ASCII letter case.
fn is_one_of(s: &[u8], names: &[&[u8]]) -> bool
    ensures { result ≡ list_any (λ n. str_eq_ignore_ascii_case s.now n.now) names.now }
{
    names.iter().any(|name| s.eq_ignore_ascii_case(name))
}

// The name that stands in the sheet from one place up to another; no byte of the ten is escaped there.
pub fn is_aggregate_func(sheet: &[u8], from: usize, to: usize) -> bool
    requires { PlaceAt Form.text sheet.now from to }
    ensures { result ≡ is_aggregate_func (field_of Form.text sheet.now from to) }
{
    is_one_of(&sheet[from..to], &NAMES)
}

// Whether the expression at a record calls an aggregating function. Its name's two places, and no text, since what is promised of a name speaks of where it stands.
pub fn is_aggregate(sheet: &[u8], r: Record<'_>) -> bool
    requires { SomeExpr sheet.now r.records.now.a.now r.records.now.b.now r.i }
    ensures { (d : ℕ) (t : Tree expr) → Held sheet.now r.entry.records.now.a.now r.entry.records.now.b.now t d r.entry.i → result ≡ is_aggregate t }
{
    let kind = r.kind();
    if kind != kind::FN {
        return false;
    }
    let from = r.count(field::NAME);
    let to = r.count(field::NAME + 1);
    is_aggregate_func(sheet, from, to)
}
