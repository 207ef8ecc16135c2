// An answer's values as text, each number behind a separator.
ghost use Rattle.output.specs.Page.{Puts};
ghost use Rattle.output.specs.Whole.{Begins};
ghost use Rattle.values.specs.Told.{told};
ghost use Rattle.values.specs.Text.{numbers_text, refusal_text, values_text};

use crate::{VALUES, Values};
use output::Page;

// All but the length, which a refusal has none of.
const REFUSAL_VALUES: usize = VALUES - 1;

// Numbers, each behind a separator.
fn put_numbers(page: &mut Page<'_>, separator: u8, numbers: &[usize])
    ensures { Puts (numbers_text separator numbers.now) page.old page.new }
{
    for n in numbers {
        page.put_byte(separator);
        page.put_decimal(*n as u64);
    }
}

// The same at the start of a slice, and how many bytes they have, if they fit.
fn write_numbers(bytes: &mut [u8], separator: u8, numbers: &[usize]) -> Option<usize>
    ensures { Begins (numbers_text separator numbers.now) bytes.old bytes.new result }
{
    let mut page = Page { bytes, out: 0 };
    put_numbers(&mut page, separator, numbers);
    page.used()
}

// The values of a refusal at the start of a slice, and how many bytes they have, if they fit.
pub fn write_refusal(bytes: &mut [u8], separator: u8, v: Values) -> Option<usize>
    ensures { Begins (refusal_text separator (told v)) bytes.old bytes.new result }
{
    write_numbers(bytes, separator, &v.words()[..REFUSAL_VALUES])
}

// All six values in the same way.
pub fn write_values(bytes: &mut [u8], separator: u8, v: Values) -> Option<usize>
    ensures { Begins (values_text separator (told v)) bytes.old bytes.new result }
{
    write_numbers(bytes, separator, &v.words())
}
