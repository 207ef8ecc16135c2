// The texts of a list. Between three stars stand a number and a part of the sheet that is there so many times.
// How a list's cases are parted is each program's own, since each has other parts; a sheet that does not fit its page is an empty one there, since no list has such a sheet.
ghost use Rattle.std.specs.Prelude.{◌≡◌, ◌+◌, ◌∷◌, ◌++◌, length, IfSome, MatchOption};
ghost use Rattle.output.specs.Page.{Puts};
ghost use Rattle.output.specs.Whole.{Begins};
ghost use Rattle.gate_cases.specs.Text.{again, Cut, line_feed, sheet_of, Uncut, WholeLines};

use output::Page;
use record::number::decimal;

// How long a file of cases may be.
pub const MAX_FILE: usize = 262144;

// What stands before the first such byte, and what stands behind it.
pub fn cut(text: &[u8], byte: u8) -> Option<(&[u8], &[u8])>
    ensures cases { MatchOption result (Uncut byte text.now) (λ p. Cut byte text.now p.0.now p.1.now) }
    ensures lengths { IfSome result (λ p. (length p.0.now + length p.1.now) + 1 ≡ length text.now) }
{
    let n = text.iter().position(|b| *b == byte)?;
    Some((&text[..n], &text[n + 1..]))
}

// The first sheet of a file, and what stands behind the empty line that ends it.
pub fn first_sheet(file: &[u8]) -> Option<(&[u8], &[u8])>
    ensures parts { IfSome result (λ p. (file.now ≡ p.0.now ++ (line_feed ∷ p.1.now)) × WholeLines p.0.now) }
    ensures lengths { IfSome result (λ p. (length p.0.now + length p.1.now) + 1 ≡ length file.now) }
{
    if let [b'\n', rest @ ..] = file {
        return Some((&[], rest));
    }
    let n = file.windows(2).position(|w| w == b"\n\n".as_slice())?;
    Some((&file[..n + 1], &file[n + 2..]))
}

// A text so many times.
fn put_times(page: &mut Page<'_>, text: &[u8], times: u64)
    ensures { Puts (again times text.now) page.old page.new }
{
    for _i in 0..times {
        page.put_part(text);
    }
}

// A text with stars: what stands before them, the number, the part that is there so many times, and what stands behind them.
#[derive(Drop)]
struct Stars<'a> {
    head: &'a [u8],
    times: u64,
    part: &'a [u8],
    tail: &'a [u8],
}

// A text taken apart at its stars, if it has three and a number between the first two.
fn starred(text: &[u8]) -> Option<Stars<'_>>
    ensures { MatchOption result (sheet_of text.now ≡ text.now) (λ s. sheet_of text.now ≡ (s.head.now ++ again s.times s.part.now) ++ s.tail.now) }
{
    let (head, rest) = cut(text, b'*')?;
    let (number, behind) = cut(rest, b'*')?;
    let (part, tail) = cut(behind, b'*')?;
    let times = decimal(number, words::MAX_BYTES as u64)?;
    Some(Stars {
        head,
        times,
        part,
        tail,
    })
}

// The sheet that a text of the list stands for.
fn put_sheet(page: &mut Page<'_>, text: &[u8])
    ensures { Puts (sheet_of text.now) page.old page.new }
{
    let Some(s) = starred(text) else {
        page.put_part(text);
        return;
    };
    page.put_part(s.head);
    put_times(page, s.part, s.times);
    page.put_part(s.tail)
}

// The same at the start of a slice, and how long it is, if it fits.
pub fn build_sheet(text: &[u8], bytes: &mut [u8]) -> Option<usize>
    ensures { Begins (sheet_of text.now) bytes.old bytes.new result }
{
    let mut page = Page { bytes, out: 0 };
    put_sheet(&mut page, text);
    page.used()
}
