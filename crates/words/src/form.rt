// The forms of fields.

// Forms of one rank, of which a number has a limit: neither an Option nor a Result.
#[derive(Clone, Copy, Debug, PartialEq, Eq)]
pub enum Form {
    Flag,
    Var,
    VarOrAbsent,
    Int,
    Float,
    Text,
    Alias,
    Span,
    Length,
    Number(u32),
}
