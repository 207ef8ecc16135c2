// A place in a sheet.
ghost use Rattle.record.specs.Place.{Fed, Fed-prop};

// A place in a line that has its line feed, so that what goes along the line needs no test of the sheet's end.
#[derive(Clone, Copy)]
pub struct Cursor<'a> {
    pub bytes: &'a [u8],
    pub at: usize,
    ghost fed: { Fed bytes.now at } by { Fed-prop bytes.now at },
}
