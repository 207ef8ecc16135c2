// The groups of children that follow a record, by its kind, and how many children they are together.
ghost use Rattle.std.specs.Prelude.{◌≡◌, ◌%◌, ◌<◌, length};
ghost use Rattle.words.specs.Words.{part, record_words, two32};
ghost use Rattle.words.specs.Held.{total};
ghost use Rattle.words.specs.Sorts.{sort_is};
ghost use Rattle.words.specs.Table.{sort_of, group_sort, group_count, groups_of};
ghost use Rattle.line.specs.Group.{CountedAt, OfRecord, count_by};

use words::records::Record;
use words::sort::Sort;
use words::table::{group_entry, groups_of};

// A group has so many entries in the table: its sort, and behind it the source of its count.
const GROUP_ENTRIES: usize = 2;

const SOURCE_ENTRY: usize = 1;

// A source below this is itself the count; from it on it stands for field 0, 1, ..
const FIXED_SOURCES: u32 = 3;

// Twice such a source less this is the place of the field's first word.
const SOURCE_SHIFT: usize = 4;

// The sort of group g of a kind. Not one with `count_place`: together, as a struct, they were tried, are then no longer put in place, and cost 70 instructions a record more, a tenth of a lowering.
// Nor is the kind's row a struct that both read: tried, with the row looked up once, it cost 17 instructions a record more. So both ask that g is one of a row's groups.
pub fn group_sort(kind: u32, g: usize) -> Sort
    requires { g < group_count }
    ensures { sort_is result ≡ sort_of (group_sort kind g) }
{
    Sort::at(group_entry(kind, g * GROUP_ENTRIES))
}

// Where the count of a group stands: the table has it, or a word of the record does. Neither is an error nor nothing, so that it is no Option or Result.
#[derive(Clone, Copy, Debug, PartialEq, Eq)]
pub enum Counted {
    Fixed(u32),
    InWord(usize),
}

// Where the count of group g stands; it is 0 where the kind has no such group.
pub fn count_place(kind: u32, g: usize) -> Counted
    requires { g < group_count }
    ensures { CountedAt kind g result }
{
    let source = group_entry(kind, g * GROUP_ENTRIES + SOURCE_ENTRY);
    if source < FIXED_SOURCES {
        return Counted::Fixed(source);
    }
    let at = source as usize;
    let place = at + at - SOURCE_SHIFT;
    Counted::InWord(place)
}

impl Counted {
    // The count, of a record.
    pub fn of(self, r: Record<'_>) -> u32
        requires { OfRecord self }
        ensures { result ≡ count_by (part r.entry.records.now.a.now r.entry.records.now.b.now r.entry.i) self }
    {
        match self {
            Counted::Fixed(n) => n,
            Counted::InWord(c) => r.word(c),
        }
    }

    // The same of the record whose words these are. Not one with `of`: a closure for the read of a word would want that word's bound and value in the contract, which is longer than both.
    fn among(self, part: &[u32]) -> u32
        requires part_len { length part.now ≡ record_words }
        requires of_record { OfRecord self }
        ensures { result ≡ count_by part.now self }
    {
        match self {
            Counted::Fixed(n) => n,
            Counted::InWord(c) => part[c],
        }
    }
}

// How many children a record of a kind has by its words, as far as a word holds it: no sheet that is read has more.
// The record's words are a slice with its length in the contract: an array made of a part of a slice was tried (read.rt), and nothing then tells what the slice holds behind the loan.
pub fn children_of(part: &[u32], kind: u32) -> u32
    requires { length part.now ≡ record_words }
    ensures { result ≡ total (groups_of kind part.now) % two32 }
{
    let mut sum: u64 = 0;
    for g in 0..groups_of(kind) {
        let place = count_place(kind, g);
        let c = u64::from(place.among(part));
        sum += c;
    }
    (sum % words::TWO_32) as u32
}
