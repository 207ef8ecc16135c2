// The fields of a line, each behind a tab, and the line of a signed number.
ghost use Rattle.std.specs.Prelude.{◌≡◌, ◌∷◌, ◌+◌, ◌*◌};
ghost use Rattle.model.specs.Text.{tab, decimal};
ghost use Rattle.output.specs.Page.{Puts};
ghost use Rattle.words.specs.Words.{int_of, two32};
ghost use Rattle.words.specs.Places.{int_low_at, int_high_at};
ghost use Rattle.plan_line.specs.Copy.{word_of};
ghost use Rattle.plan_line.specs.Row.{int_text, NumberBytes};

use crate::keyword::{Keyword, put_keyword};
use output::Page;
use words::{Record, field};

// The 64 bits of two words. By `*` and `+`, since a `|` of a shift wants one more law, that the bits are apart, and says no more.
fn bits(low: u32, high: u32) -> u64
    ensures { result ≡ high * two32 + low }
{
    u64::from(high) * words::TWO_32 + u64::from(low)
}

// The signed number of two words. The high word's top bit says that it is negative, and the rest is then one less than its size, which `!` gives back.
fn signed_of(low: u32, high: u32) -> i64
    ensures { result ≡ int_of low high }
{
    if high < words::TOP_BIT {
        return bits(low, high) as i64;
    }
    !(bits(low, high - words::TOP_BIT) as i64)
}

// The line of an `int`: its number is read off the words and written over 64 signed bits.
pub fn put_int(page: &mut Page<'_>, r: Record<'_>)
    ensures { Puts (int_text (int_of (word_of r.entry int_low_at) (word_of r.entry int_high_at))) page.old page.new }
{
    let low = r.word(field::INT_LOW);
    let high = r.word(field::INT_HIGH);
    let n = signed_of(low, high);
    put_keyword(page, Keyword::Int);
    page.put_byte(b'\t');
    page.put_signed(n);
    page.put_byte(b'\n');
}

// How many bytes a number has, with the tab before it.
pub fn number_bytes(n: u32) -> usize
    ensures { NumberBytes n result }
{
    output::digit_count(u64::from(n)) + 1
}

// A number.
pub fn put_number(page: &mut Page<'_>, n: u32)
    ensures { Puts (tab ∷ decimal n) page.old page.new }
{
    page.put_tabbed(u64::from(n));
}

// A part of the sheet, which is spelled there as it is here.
pub fn put_text(page: &mut Page<'_>, part: &[u8])
    ensures { Puts (tab ∷ part.now) page.old page.new }
{
    page.put_byte(b'\t');
    page.put_part(part);
}
