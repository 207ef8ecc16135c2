// The sorts of records: what may stand at a place of a sheet.
ghost use Rattle.std.specs.Prelude.{◌≡◌};
ghost use Rattle.words.specs.Sorts.{sort_number, sort_at};

// The record table and the stack of due groups hold a sort as its number. Two methods and no `From`: a `From<u32>` would say that any number is a sort.
#[derive(Clone, Copy, Debug, PartialEq, Eq)]
pub enum Sort {
    Statement,
    UnionArm,
    Clause,
    Projection,
    OrderItem,
    PatternPart,
    PatternElement,
    Name,
    YieldItem,
    Entry,
    Expr,
}

impl Sort {
    // Its number.
    pub fn number(self) -> u32
        ensures { result ≡ sort_number self }
    {
        self as u32
    }

    // The sort of a number: here alone one stands for a sort. An expression from the last on.
    #[tactic(auto, unfolding(crate::specs::Sorts::sort_at))]
    pub fn at(n: u32) -> Sort
        ensures { result ≡ sort_at n }
    {
        match n {
            0 => Sort::Statement,
            1 => Sort::UnionArm,
            2 => Sort::Clause,
            3 => Sort::Projection,
            4 => Sort::OrderItem,
            5 => Sort::PatternPart,
            6 => Sort::PatternElement,
            7 => Sort::Name,
            8 => Sort::YieldItem,
            9 => Sort::Entry,
            _ => Sort::Expr,
        }
    }
}
