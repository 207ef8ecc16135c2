// The words of a sheet's records, and what they tell: how many children a record has, and which record is behind it and all that is below it.
ghost use Rattle.std.specs.Prelude.{◌≡◌, ◌+◌, ◌<◌, cond, eqb};
ghost use Rattle.words.specs.Words.{Roomy, cell, max_records, record_words, two32};
ghost use Rattle.words.specs.Count.{count_at, Starts, Ends};
ghost use Rattle.words.specs.Places.{kind_at, node_kind, node_labels_at, node_props_at, rel_props_at};

use crate::{FIRST_RECORDS, RECORD_WORDS, field, kind};

// The words of all records: the first 1,024 records in one slice, the others in the second. That both are long enough goes with them.
// Two slices and no list of records, since they are work slices that C lends.
#[derive(Clone, Copy)]
pub struct Records<'a> {
    pub a: &'a [u32],
    pub b: &'a [u32],
    ghost roomy: { Roomy a.now b.now },
}

impl Records<'_> {
    // Record i.
    pub fn at(&self, i: usize) -> Record<'_>
        requires { i < max_records }
        ensures { (result.records.now ≡ self.now) × (result.i ≡ i) }
    {
        Record { records: self, i }
    }

    // Word c of record i. That c is one of a record's words is asked here and by what calls it: nearly always it is a constant of field.rt, for which the check finds it.
    pub fn word(&self, i: usize, c: usize) -> u32
        requires { (i < max_records) × (c < record_words) }
        ensures { result ≡ cell self.now.a.now self.now.b.now i c }
    {
        if i < FIRST_RECORDS {
            return self.a[i * RECORD_WORDS + c];
        }
        self.b[(i - FIRST_RECORDS) * RECORD_WORDS + c]
    }

    // The same as a count.
    pub fn count(&self, i: usize, c: usize) -> usize
        requires { (i < max_records) × (c < record_words) }
        ensures { (result ≡ cell self.now.a.now self.now.b.now i c) × (result < two32) }
    {
        self.word(i, c) as usize
    }

    // How many children record i has.
    pub fn children(&self, i: usize) -> usize
        requires { i < max_records }
        ensures { (result ≡ count_at self.now.a.now self.now.b.now i) × (result < two32) }
    {
        self.count(i, field::CHILDREN)
    }

    // The record behind the tree that stands at record i. The check walks so too (precheck/src/flat.rt): one walk with a test of its own would ask of that test that it may be called at each record of a tree, which is longer than these lines; the law of a step is one (proofs/Counting.walked).
    pub fn skip(&self, i: usize) -> usize
        requires { Starts self.now.a.now self.now.b.now i }
        ensures { Ends self.now.a.now self.now.b.now i result }
    {
        let mut at = i;
        let mut due = 1;
        // A `while`: a `for` over the records that there may be, which leaves when nothing is due, proves too (the check has one), and costs 16 instructions a record more, 2.2 in a hundred of a lowering.
        while due != 0 {
            let n = self.children(at);
            due = due - 1 + n;
            at += 1;
        }
        at
    }
}

// One record among all: that it is one of them goes with it.
#[derive(Clone, Copy)]
pub struct Record<'a> {
    pub records: &'a Records<'a>,
    pub i: usize,
    ghost stands: { i < max_records },
}

// What stands below an element of a pattern, a node or a rel: so many names (labels or types), and behind them, from record `first` on, so many expressions (props), one or none. A number and no flag, as the record table has it: the count of a group.
#[derive(Clone, Copy, Debug, PartialEq, Eq)]
pub struct Below {
    pub names: usize,
    pub first: usize,
    pub props: usize,
}

impl Record<'_> {
    // Its word c.
    pub fn word(self, c: usize) -> u32
        requires { c < record_words }
        ensures { result ≡ cell self.entry.records.now.a.now self.entry.records.now.b.now self.entry.i c }
    {
        self.records.word(self.i, c)
    }

    // The same as a count.
    pub fn count(self, c: usize) -> usize
        requires { c < record_words }
        ensures { (result ≡ cell self.entry.records.now.a.now self.entry.records.now.b.now self.entry.i c) × (result < two32) }
    {
        self.records.count(self.i, c)
    }

    // The number of its kind.
    pub fn kind(self) -> u32
        ensures { result ≡ cell self.entry.records.now.a.now self.entry.records.now.b.now self.entry.i kind_at }
    {
        self.word(field::KIND)
    }

    // How many children it has.
    pub fn children(self) -> usize
        ensures { (result ≡ count_at self.entry.records.now.a.now self.entry.records.now.b.now self.entry.i) × (result < two32) }
    {
        self.records.children(self.i)
    }

    // What it has below it, if it is a node, or else a rel.
    pub fn below(self) -> Below
        ensures names { result.names ≡ cell self.entry.records.now.a.now self.entry.records.now.b.now self.entry.i node_labels_at }
        ensures first { result.first ≡ self.entry.i + 1 + result.names }
        ensures props { result.props ≡ cond (eqb (cell self.entry.records.now.a.now self.entry.records.now.b.now self.entry.i kind_at) node_kind) (cell self.entry.records.now.a.now self.entry.records.now.b.now self.entry.i node_props_at) (cell self.entry.records.now.a.now self.entry.records.now.b.now self.entry.i rel_props_at) }
    {
        // a rel's types stand where a node's labels do
        let names = self.count(field::NODE_LABELS);
        let props = if self.kind() == kind::NODE {
            self.count(field::NODE_PROPS)
        } else {
            self.count(field::REL_PROPS)
        };
        Below {
            names,
            first: self.i + 1 + names,
            props,
        }
    }
}

// The same slices while the records are read into them.
#[derive(Drop)]
pub struct RecordsMut<'a> {
    pub a: &'a mut [u32],
    pub b: &'a mut [u32],
    ghost roomy: { Roomy a.now b.now },
}

impl RecordsMut<'_> {
    // The records as they stand.
    pub fn shared(&self) -> Records<'_>
        ensures { (result.a.now ≡ self.now.a.now) × (result.b.now ≡ self.now.b.now) }
    {
        Records {
            a: self.a,
            b: self.b,
        }
    }
}
