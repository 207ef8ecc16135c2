// Bytes into a lent slice. A text that does not fit is only counted, so that the same code measures, on an empty part of a slice, and writes.
#![tactic(auto)]

ghost use Rattle.std.specs.Prelude.{◌≡◌, cond, [], ◌∷◌, ◌+◌, ◌<◌, ◌≤◌, ltb, length, MatchOption};
ghost use Rattle.model.specs.Text.{Bytes, tab, decimal, signed};
ghost use Rattle.output.specs.Page.{Puts};
ghost use Rattle.output.specs.Wide.{Counted, least, step, tens};

// A lent slice and the place of the next byte. The place goes on behind the slice's end, and stays at the largest number, so that no count overflows.
#[derive(Drop)]
pub struct Page<'a> {
    pub bytes: &'a mut [u8],
    pub out: usize,
}

// The five methods that store test for room by the same lines. A function that lends the part to be stored (`room(n) -> Option<&mut [u8]>`) would have to promise how the page ends once that loan does, which is longer than the lines.
impl Page<'_> {
    // One byte.
    pub fn put_byte(&mut self, b: u8)
        ensures { Puts (b ∷ []) self.old self.new }
    {
        let at = self.out;
        let end = at.saturating_add(1);
        if end <= self.bytes.len() {
            self.bytes[at] = b;
        }
        self.out = end;
    }

    // A whole byte slice: a part of the sheet, or a byte string.
    pub fn put_part(&mut self, s: &[u8])
        ensures { Puts s.now self.old self.new }
    {
        let at = self.out;
        let n = s.len();
        let end = at.saturating_add(n);
        if end <= self.bytes.len() {
            store_part(&mut self.bytes[at..at + n], s);
        }
        self.out = end;
    }

    // So many bytes of whatever text, on an empty part of a slice. That it is empty is asked here and by the two that measure expressions: a page that only measures is no type of its own, since the same code writes.
    pub fn measure(&mut self, n: usize)
        requires { length self.old.bytes.now ≡ 0 }
        ensures { (t : Bytes) → n ≡ length t → Puts t self.old self.new }
    {
        self.out = self.out.saturating_add(n);
    }

    // How many bytes were put from the slice's start on, if they fit.
    pub fn used(&self) -> Option<usize>
        ensures { result ≡ cond (ltb (length self.now.bytes.now) self.now.out) None (Some self.now.out) }
    {
        if self.out > self.bytes.len() {
            return None;
        }
        Some(self.out)
    }

    // A number.
    pub fn put_decimal(&mut self, n: u64)
        ensures { Puts (decimal n) self.old self.new }
    {
        let at = self.out;
        let d = digit_count(n);
        let end = at.saturating_add(d);
        if end <= self.bytes.len() {
            store_digits(&mut self.bytes[at..at + d], n);
        }
        self.out = end;
    }

    // Two bytes, with one test for both.
    fn put_two(&mut self, first: u8, second: u8)
        ensures { Puts (first ∷ second ∷ []) self.old self.new }
    {
        let at = self.out;
        let end = at.saturating_add(2);
        if end <= self.bytes.len() {
            let both = &mut self.bytes[at..at + 2];
            both[0] = first;
            both[1] = second;
        }
        self.out = end;
    }

    // A number behind a tab: with one test for both, since each field of a line is put so, and a shorter way for the many numbers that have one digit.
    // As `put_byte` and `put_decimal` a plan cost 30 instructions a record more (3.9 in a hundred), and that of a chain 139 (11 in a hundred).
    pub fn put_tabbed(&mut self, n: u64)
        ensures { Puts (tab ∷ decimal n) self.old self.new }
    {
        if n < TWO_DIGITS {
            self.put_two(b'\t', b'0' + n as u8);
            return;
        }
        let at = self.out;
        let width = digit_count(n) + 1;
        let end = at.saturating_add(width);
        if end <= self.bytes.len() {
            let field = &mut self.bytes[at..at + width];
            field[0] = b'\t';
            store_digits(&mut field[1..], n);
        }
        self.out = end;
    }

    // A signed number: a minus sign before the magnitude of one that is less than 0.
    pub fn put_signed(&mut self, n: i64)
        ensures { Puts (signed n) self.old self.new }
    {
        let m = n.unsigned_abs();
        if n < 0 {
            self.put_byte(b'-');
        }
        self.put_decimal(m);
    }
}

// The least numbers of two, three, four and five digits.
const TWO_DIGITS: u64 = 10;

const THREE_DIGITS: u64 = 100;

const FOUR_DIGITS: u64 = 1000;

const FIVE_DIGITS: u64 = 10000;

// The digits that a number loses if it is divided by the least of five.
const STEP: usize = 4;

// How many decimal digits a number has, if they are at most four. Four tests and no `checked_ilog10`, which is no plainer: it counts one less, answers none for 0, and says what it counts by powers of ten. It was tried too and cost more for numbers of one digit or two (docs/PROVING.md; the figure was not kept).
fn count_short(n: u64) -> Option<usize>
    ensures { MatchOption result (least step ≤ n) (λ r. Counted n r) }
{
    if n < TWO_DIGITS {
        return Some(1);
    }
    if n < THREE_DIGITS {
        return Some(2);
    }
    if n < FOUR_DIGITS {
        return Some(3);
    }
    if n < FIVE_DIGITS { Some(STEP) } else { None }
}

// How many decimal digits a number has, by four at a time.
pub fn digit_count(n: u64) -> usize
    ensures { Counted n result }
{
    match count_short(n) {
        Some(few) => few,
        None => digit_count(n / FIVE_DIGITS) + STEP,
    }
}

// A text into as many bytes. A loop and no `copy_from_slice`, which calls `memmove`: the archive calls no function outside itself (docs/RUNNING.md).
fn store_part(part: &mut [u8], s: &[u8])
    requires { length part.old ≡ length s.now }
    ensures { part.new ≡ s.now }
{
    for (i, b) in s.iter().enumerate() {
        part[i] = *b;
    }
}

// The decimal digits of n into as many bytes.
fn store_digits(digits: &mut [u8], n: u64)
    ensures { digits.new ≡ tens (length digits.old) n }
{
    let mut v = n;
    for k in (0..digits.len()).rev() {
        digits[k] = b'0' + (v % 10) as u8;
        v /= 10;
    }
}
