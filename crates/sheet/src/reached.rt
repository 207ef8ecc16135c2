// How far a sheet is read.
ghost use Rattle.std.specs.Prelude.{◌≡◌, ◌+◌, ◌<◌, ◌≤◌, eqb};
ghost use Rattle.std.specs.Option.{option_or};
ghost use Rattle.std.specs.Bool.{then_some};
ghost use Rattle.words.specs.Words.{max_records};
ghost use Rattle.words.specs.Places.{write_kind};

use words::kind;

// So many records are read, up to a place, and the first write among them is on a line.
#[derive(Clone, Copy)]
pub struct Reached {
    pub records: usize,
    pub pos: usize,
    pub write: Option<u32>,
    ghost few: { records ≤ max_records },
}

impl Reached {
    // The line of the next record.
    pub fn line(self) -> u32
        ensures { result ≡ self.records + 1 }
    {
        self.records as u32 + 1
    }

    // One record more, which is of a kind and ends at a place.
    pub fn advance(&mut self, kind: u32, end: usize)
        requires { self.old.records < max_records }
        ensures records { self.new.records ≡ self.old.records + 1 }
        ensures pos { self.new.pos ≡ end }
        ensures write { self.new.write ≡ option_or self.old.write (then_some (eqb kind write_kind) (self.old.records + 1)) }
    {
        if kind == kind::WRITE {
            self.write = self.write.or(Some(self.line()));
        }
        self.records += 1;
        self.pos = end;
    }
}
