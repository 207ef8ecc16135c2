// What the writer reads.
ghost use Rattle.plan_sheet.specs.Due.{Room};

use words::records::Records;

// The statement sheet, its records, and the operators and notes that the lowering left. That all slices are long enough goes with them.
// Given whole only to what reads operators: the others take the parts that they read, so that who has no operators can call them too.
// The page is no part of it: it is written and the rest only read, and in one struct that is lent to be written each function would have to promise that the rest stays.
// The notes and the base of a pass stand side by side in functions that read notes: the base is an operator's word, another one for each, so that a struct of both would be made at each call and taken apart at once.
// What relates two of the parameters, an operator with the notes of its pass (`NotedAsked`) or a record with the sheet (`TextIn`, `ExprIn`), is asked by a clause, since neither of the two brings it alone.
#[derive(Clone, Copy)]
pub struct Source<'a> {
    pub sheet: &'a [u8],
    pub records: Records<'a>,
    pub ops: &'a [u32],
    pub rest: &'a [u32],
    ghost room: { Room records.a.now records.b.now ops.now rest.now },
}
