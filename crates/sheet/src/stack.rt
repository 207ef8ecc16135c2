// The stack of due groups: three words a group (sort, count, room), group m from word 3m on. They stand in a work slice that the caller of the C interface lends, since there is no heap.
ghost use Rattle.std.specs.Prelude.{◌≡◌, ◌+◌, ◌<◌, ◌≤◌};
ghost use Rattle.words.specs.Words.{part};
ghost use Rattle.words.specs.Sorts.{sort_is};
ghost use Rattle.words.specs.Table.{group_count};
ghost use Rattle.sheet.specs.Due.{room_below};
ghost use Rattle.sheet.specs.Stack.{slack, allowed, max_room};
ghost use Rattle.sheet.specs.Dues.{Stacked, Taken, Pushed, Groups, Space};

use line::group::{count_place, group_sort};
use words::Record;
use words::sort::Sort;
use words::table::groups_of;

// A group has so many words.
const GROUP_WORDS: usize = 3;

// Its sort comes first; where its count and its room stand.
const COUNT: usize = 1;

const ROOM: usize = 2;

// So many records of a sort, one behind another, each with room for so many levels.
#[derive(Clone, Copy)]
pub struct Group {
    pub sort: Sort,
    pub count: u32,
    pub room: u32,
    ghost due: { 0 < count },
    ghost low: { room ≤ max_room },
}

impl Group {
    // The room of the records' children: a map's key and its expression stand side by side.
    pub fn room_below(self) -> u32
        requires { 0 < self.room }
        ensures { result ≡ room_below (sort_is self.sort) self.room }
    {
        if self.sort == Sort::Entry {
            return self.room;
        }
        self.room - 1
    }
}

// The groups that are due, and that there is room for all that can come to be due with them.
#[derive(Drop)]
pub struct Stack<'a> {
    pub words: &'a mut [u32],
    pub groups: usize,
    ghost stands: { Stacked words.now groups },
}

impl Stack<'_> {
    // One record of the topmost group is read: the group as it stood before.
    pub fn take(&mut self) -> Group
        requires { 0 < self.old.groups }
        ensures { Taken self.old.words.now self.new.words.now self.old.groups self.new.groups (sort_is result.sort) result.count result.room }
    {
        let last = self.groups - 1;
        let at = last * GROUP_WORDS;
        let sort = Sort::at(self.words[at]);
        let count = self.words[at + COUNT];
        let room = self.words[at + ROOM];
        if count == 1 {
            self.groups = last;
        } else {
            self.words[at + COUNT] = count - 1;
        }
        Group { sort, count, room }
    }

    // A group on top.
    pub fn push(&mut self, g: Group)
        requires { self.old.groups + 1 + slack (sort_is g.sort) ≤ allowed g.room }
        ensures { Pushed self.old.words.now self.new.words.now self.old.groups self.new.groups (sort_is g.sort) g.count g.room }
    {
        let at = self.groups * GROUP_WORDS;
        self.words[at] = g.sort.number();
        self.words[at + COUNT] = g.count;
        self.words[at + ROOM] = g.room;
        self.groups += 1;
    }

    // The groups of a record on top, its first group topmost; a group of none is passed over.
    pub fn push_groups(&mut self, r: Record<'_>, kind: u32, room: u32)
        requires { Space kind self.old.groups room }
        ensures { Groups self.old.words.now self.new.words.now kind (part r.entry.records.now.a.now r.entry.records.now.b.now r.entry.i) 0 group_count self.old.groups room self.new.groups }
    {
        for g in (0..groups_of(kind)).rev() {
            let place = count_place(kind, g);
            let count = place.of(r);
            if count != 0 {
                let sort = group_sort(kind, g);
                self.push(Group { sort, count, room });
            }
        }
    }
}
