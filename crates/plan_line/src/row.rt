// Lines of numbers, and lines of a name and numbers.
ghost use Rattle.std.specs.Prelude.{[], ◌∷◌, ◌++◌};
ghost use Rattle.model.specs.Text.{line_feed};
ghost use Rattle.output.specs.Page.{Puts};
ghost use Rattle.plan_line.specs.Row.{numbers_text, row_text, named_text};

use crate::field::{put_number, put_text};
use crate::keyword::{Keyword, put_keyword};
use output::Page;

// Numbers, and the end of the line.
pub fn put_end<const N: usize>(page: &mut Page<'_>, numbers: [u32; N])
    ensures { Puts (numbers_text numbers.entry ++ (line_feed ∷ [])) page.old page.new }
{
    for n in numbers {
        put_number(page, n);
    }
    page.put_byte(b'\n');
}

// A keyword and numbers.
pub fn put_row<const N: usize>(page: &mut Page<'_>, k: Keyword, numbers: [u32; N])
    ensures { Puts (row_text k numbers.entry) page.old page.new }
{
    put_keyword(page, k);
    put_end(page, numbers);
}

// A keyword, a name as the statement sheet spells it, and numbers.
pub fn put_named<const N: usize>(page: &mut Page<'_>, k: Keyword, name: &[u8], numbers: [u32; N])
    ensures { Puts (named_text k name.now numbers.entry) page.old page.new }
{
    put_keyword(page, k);
    put_text(page, name);
    put_end(page, numbers);
}
