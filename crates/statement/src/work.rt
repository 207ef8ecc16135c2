// The four work slices of a call.
ghost use Rattle.std.specs.Prelude.{◌≡◌, not};
ghost use Rattle.model.specs.Call.{short};
ghost use Rattle.statement.specs.Answer.{Long};
ghost use Rattle.statement.specs.Work.{lengths};

// What a call is lent to work in: two slices for the records, one for the reader's stack and then the operators, and one for the lowering's notes and variables.
#[derive(Drop)]
pub struct Work<'a> {
    pub a: &'a mut [u32],
    pub b: &'a mut [u32],
    pub c: &'a mut [u32],
    pub d: &'a mut [u32],
}

impl Work<'_> {
    // Whether each has as many words as a call needs.
    pub fn long_enough(&self) -> bool
        ensures { result ≡ not (short (lengths self.now)) }
    {
        long_enough(self.a, self.b, self.c, self.d)
    }
}

// The same of four slices one by one, which need not be lent to be written.
pub fn long_enough(a: &[u32], b: &[u32], c: &[u32], d: &[u32]) -> bool
    ensures { Long a.now b.now c.now d.now result }
{
    ![a.len(), b.len(), c.len(), d.len()]
        .iter()
        .any(|n| *n < words::WORK_WORDS)
}
