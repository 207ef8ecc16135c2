// The kind that a keyword names among those of a sort.
ghost use Rattle.std.specs.Prelude.{◌≡◌, cond, eqb, Some, None};
ghost use Rattle.words.specs.Places.{clause_sort, pattern_element_sort, expr_sort};
ghost use Rattle.words.specs.Sorts.{sort_is};
ghost use Rattle.model.specs.Text.{Bytes};
ghost use Rattle.line.specs.Kinds.{Packed, KeywordAt, Named, keyed};

use record::cursor::Cursor;
use record::piece::{piece_end, separates};
use words::sort::Sort;
use words::{BYTE_VALUES, key, kind};

// No keyword has more bytes, so that the number fits 64 bits.
const MAX_KEYWORD: usize = 7;

// A keyword: its bytes as one number behind a leading 1, if they are at most seven; and where it ends, however long it is.
#[derive(Clone, Copy)]
pub struct Keyword {
    pub word: Option<u64>,
    pub end: usize,
}

// The keyword here.
pub fn read_keyword(c: Cursor<'_>) -> Keyword
    ensures { KeywordAt c.entry.bytes.now c.entry.at result }
{
    let mut v: u64 = 1;
    for k in 0..MAX_KEYWORD {
        let i = c.at + k;
        if separates(c.bytes[i]) {
            return Keyword {
                word: Some(v),
                end: i,
            };
        }
        let b = u64::from(c.bytes[i]);
        v = v * BYTE_VALUES + b;
    }
    let most = c.at + MAX_KEYWORD;
    let end = piece_end(Cursor {
        bytes: c.bytes,
        at: most,
    });
    Keyword {
        word: (end == most).then_some(v),
        end,
    }
}

// The kind of a sort that has only this one.
fn only(w: u64, key: u64, kind: u32) -> Option<u32>
    ensures { result ≡ cond (eqb key w) (Some kind) None }
{
    (key == w).then_some(kind)
}

#[tactic(auto, using(crate::proofs::KindLaws::none_keyed), unfolding(crate::specs::Kinds::keyed, crate::specs::Kinds::keyed_from))]
fn clause_kind(w: u64) -> Option<u32>
    ensures { result ≡ keyed clause_sort w }
{
    match w {
        key::MATCH => Some(kind::MATCH),
        key::WHERE => Some(kind::WHERE),
        key::WITH => Some(kind::WITH),
        key::RETURN => Some(kind::RETURN),
        key::UNWIND => Some(kind::UNWIND),
        key::CALL => Some(kind::CALL),
        key::WRITE => Some(kind::WRITE),
        _ => None,
    }
}

#[tactic(auto, using(crate::proofs::KindLaws::none_keyed), unfolding(crate::specs::Kinds::keyed, crate::specs::Kinds::keyed_from))]
fn element_kind(w: u64) -> Option<u32>
    ensures { result ≡ keyed pattern_element_sort w }
{
    match w {
        key::NODE => Some(kind::NODE),
        key::REL => Some(kind::REL),
        _ => None,
    }
}

#[tactic(auto, using(crate::proofs::KindLaws::none_keyed), unfolding(crate::specs::Kinds::keyed, crate::specs::Kinds::keyed_from))]
fn expr_kind(w: u64) -> Option<u32>
    ensures { result ≡ keyed expr_sort w }
{
    match w {
        key::NULL => Some(kind::NULL),
        key::BOOL => Some(kind::BOOL),
        key::INT => Some(kind::INT),
        key::FLOAT => Some(kind::FLOAT),
        key::STR => Some(kind::STR),
        key::PARAM => Some(kind::PARAM),
        key::PROP => Some(kind::PROP),
        key::INDEX => Some(kind::INDEX),
        key::SLICE => Some(kind::SLICE),
        key::LIST => Some(kind::LIST),
        key::BIN => Some(kind::BIN),
        key::UN => Some(kind::UN),
        key::CASE => Some(kind::CASE),
        key::IS_NULL => Some(kind::IS_NULL),
        key::IN => Some(kind::IN),
        key::VAR => Some(kind::VAR),
        key::MAP => Some(kind::MAP),
        key::FN => Some(kind::FN),
        key::PAT => Some(kind::PAT),
        key::LIST_PREDICATE => Some(kind::LIST_PREDICATE),
        key::UNRES => Some(kind::UNRES),
        key::UNDES => Some(kind::UNDES),
        _ => None,
    }
}

// The kind whose keyword has the number w among those of the sort.
pub fn kind_named(w: u64, sort: Sort) -> Option<u32>
    ensures { (s : Bytes) → Packed s w → Named (sort_is sort) s result }
{
    match sort {
        Sort::Statement => only(w, key::STMT, kind::STMT),
        Sort::UnionArm => only(w, key::ARM, kind::ARM),
        Sort::Clause => clause_kind(w),
        Sort::Projection => only(w, key::ITEM, kind::ITEM),
        Sort::OrderItem => only(w, key::KEY, kind::KEY),
        Sort::PatternPart => only(w, key::PART, kind::PART),
        Sort::PatternElement => element_kind(w),
        Sort::Name => only(w, key::NAME, kind::NAME),
        Sort::YieldItem => only(w, key::YIELD, kind::YIELD),
        Sort::Entry => only(w, key::NAME, kind::ENTRY),
        Sort::Expr => expr_kind(w),
    }
}
