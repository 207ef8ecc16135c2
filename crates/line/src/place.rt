// A place in a line of a sheet.
ghost use Rattle.std.specs.Prelude.{◌≤◌, length};
ghost use Rattle.model.specs.Call.{max_bytes};

use record::cursor::Cursor;

// A place in a line of a sheet that is so short that its places are words.
#[derive(Clone, Copy)]
pub struct Place<'a> {
    pub cursor: Cursor<'a>,
    ghost short: { length cursor.bytes.now ≤ max_bytes },
}
