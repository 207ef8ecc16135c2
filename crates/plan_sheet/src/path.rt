// The numbers of a path: every node's, and a rel's where a node stands before it and the next element is a node.
ghost use Rattle.model.specs.Record.{spell_recs};
ghost use Rattle.model.specs.Lower.{path_elements};
ghost use Rattle.output.specs.Page.{Puts};
ghost use Rattle.words.specs.Places.{kind_at, part_elements_at};
ghost use Rattle.plan_line.specs.Copy.{word_of};
ghost use Rattle.lower.specs.Render.{kept_rel};
ghost use Rattle.lower.specs.Shows.{shift};
ghost use Rattle.plan_sheet.specs.Due.{noted, NotedAsked};
ghost use Rattle.plan_sheet.specs.Path.{waits_of, StepAsked, Stepped};
ghost use Rattle.plan_sheet.specs.Asked.{PathWrote, ElementsIn, op_word};

use context::op::Op;
use context::read::note_of;
use output::Page;
use plan_line::keyword::Keyword;
use plan_line::row::put_row;
use words::{Record, Records, field, kind};

// So far: whether there was a node, and the record of the rel that waits for its far node, if one does. Neither tells the other: a rel may wait before any node and behind one.
#[derive(Clone, Copy)]
pub struct Path {
    pub seen: bool,
    pub waits: Option<usize>,
}

// The number of the rel that waits, if it is kept.
fn put_kept(page: &mut Page<'_>, rest: &[u32], base: usize, path: Path)
    requires { StepAsked rest.now base path.waits }
    ensures { Puts (spell_recs (path_elements (kept_rel (shift (noted rest.now) base) path.seen (waits_of path.waits)))) page.old page.new }
{
    let Some(i) = path.waits else {
        return;
    };
    if path.seen {
        let n = note_of(rest, base, i);
        put_row(page, Keyword::Element, [n]);
    }
}

// The element at a record: a node, or else a rel.
fn put_step(page: &mut Page<'_>, r: Record<'_>, rest: &[u32], base: usize, path: Path) -> Path
    requires { StepAsked rest.now base path.waits }
    ensures { Stepped rest.now base r.entry.i (word_of r.entry kind_at) path result page.old page.new }
{
    let kind = r.kind();
    if kind == kind::NODE {
        put_kept(page, rest, base, path);
        let n = note_of(rest, base, r.i);
        put_row(page, Keyword::Element, [n]);
        return Path {
            seen: true,
            waits: None,
        };
    }
    Path {
        seen: path.seen,
        waits: Some(r.i),
    }
}

// The elements of a part, from record i on: all records and a place, as in `put_names`.
pub fn put_path(page: &mut Page<'_>, sheet: &[u8], r: &Records<'_>, rest: &[u32], w: Op, i: usize)
    requires { NotedAsked rest.now w (ElementsIn sheet.now r.now (op_word r.now w part_elements_at) i) }
    ensures { PathWrote sheet.now r.now rest.now w.base (op_word r.now w part_elements_at) i page.old page.new }
{
    let base = w.base as usize;
    let mut at = i;
    let n = r.word(w.idx as usize, field::PART_ELEMENTS);
    let mut path = Path {
        seen: false,
        waits: None,
    };
    for _ in 0..n {
        let element = Record {
            records: &*r,
            i: at,
        };
        path = put_step(page, element, rest, base, path);
        at = r.skip(at);
    }
}
