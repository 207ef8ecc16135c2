// The records alone, told one after another: most statements are refused for nothing, and need no walk. Kinds are numbers, as document 01 has them (words/src/kind.rt).
ghost use Rattle.words.specs.Count.{Starts};
ghost use Rattle.precheck.specs.Stands.{Tells, Taken, NoneRefused};

use crate::verdict::begins_with_node;
use words::{MAX_RECORDS, Record, Records, kind};

// Whether the lowering takes a record, whatever stands around it.
fn record_taken(r: Record<'_>) -> bool
    requires { Starts r.records.now.a.now r.records.now.b.now r.i }
    ensures { Tells result (Taken r.entry.records.now.a.now r.entry.records.now.b.now r.entry.i) }
{
    let kind = r.kind();
    if kind == kind::PART {
        return begins_with_node(r);
    }
    // of expressions the last two kinds are refused
    kind < kind::UNRES
}

// Whether the lowering takes every record, `due` being those still to come. Apart from `Records::skip`, which walks alike (words/src/records.rt says why).
pub fn nothing_refused(r: &Records<'_>) -> bool
    requires { Starts r.now.a.now r.now.b.now 0 }
    ensures { Tells result (NoneRefused r.now.a.now r.now.b.now) }
{
    // A copy, so that where the slices stand is looked up once and not at each record.
    let records = *r;
    let mut due = 1;
    for i in 0..MAX_RECORDS {
        if due == 0 {
            break;
        }
        if !record_taken(records.at(i)) {
            return false;
        }
        due = due - 1 + records.children(i);
    }
    true
}
