// The lines of a trace, in lent bytes.
ghost use Rattle.std.specs.Prelude.{◌≡◌, [], ◌∷◌, ◌+◌, ◌*◌, ◌^◌, ◌≤◌, ◌<◌, length};
ghost use Rattle.trace_text.specs.Decimal.{decimal, signed_decimal};
ghost use Rattle.trace_text.specs.Text.{field, line, stop_line, lines};
ghost use Rattle.trace_text.specs.Calls.{line_limit, TextAt, Printable, AllPrintable};

use itoa::write_digits;

// How many digits a number has.
fn width(n: u32) -> usize
    ensures { result ≡ length (decimal n) }
{
    let mut left = n;
    let mut count = 1;
    while left >= 10 {
        left /= 10;
        count += 1;
    }
    count
}

// Lent bytes, and where the text in them ends. Each method writes from there on.
#[derive(Drop)]
pub struct Text<'a> {
    pub out: &'a mut [u8],
    pub end: usize,
}

impl Text<'_> {
    pub fn word(&mut self, text: &[u8])
        requires { self.old.end + length text.now ≤ length self.old.out.now }
        ensures same_reference { self.new.out.ghost_name ≡ self.old.out.ghost_name }
        ensures text { TextAt self.old.end text.now self.old.out.now self.new.end self.new.out.now }
    {
        let end = self.end + text.len();
        self.out[self.end..end].copy_from_slice(text);
        self.end = end;
    }

    fn byte(&mut self, byte: u8)
        requires { self.old.end < length self.old.out.now }
        ensures same_reference { self.new.out.ghost_name ≡ self.old.out.ghost_name }
        ensures text { TextAt self.old.end (byte ∷ []) self.old.out.now self.new.end self.new.out.now }
    {
        self.out[self.end] = byte;
        self.end += 1;
    }

    // The library writes the digits straight into the lent bytes, up to where they end. This and the next two are
    // inlined, so that the end of the text stays in a register.
    #[inline(always)]
    pub fn digits(&mut self, n: u32)
        requires { self.old.end + length (decimal n) ≤ length self.old.out.now }
        ensures same_reference { self.new.out.ghost_name ≡ self.old.out.ghost_name }
        ensures text { TextAt self.old.end (decimal n) self.old.out.now self.new.end self.new.out.now }
    {
        let count = width(n);
        write_digits(u64::from(n), self.out, self.end + count);
        self.end += count;
    }

    // A number that may be negative.
    #[inline(always)]
    pub fn number(&mut self, z: i32)
        requires { self.old.end + length (signed_decimal z) ≤ length self.old.out.now }
        ensures same_reference { self.new.out.ghost_name ≡ self.old.out.ghost_name }
        ensures text { TextAt self.old.end (signed_decimal z) self.old.out.now self.new.end self.new.out.now }
    {
        if z < 0 {
            self.byte(b'-');
        }
        self.digits(z.unsigned_abs());
    }

    // A number and the byte after it.
    #[inline(always)]
    fn field(&mut self, z: i32, last: u8)
        requires { self.old.end + length (field z last) ≤ length self.old.out.now }
        ensures same_reference { self.new.out.ghost_name ≡ self.old.out.ghost_name }
        ensures text { TextAt self.old.end (field z last) self.old.out.now self.new.end self.new.out.now }
    {
        self.number(z);
        self.byte(last);
    }

    // The line of a sample.
    pub fn line(&mut self, place: u32, y: i32, xi: u8, decision: i8)
        requires { (Printable place y xi decision) × (self.old.end + line_limit ≤ length self.old.out.now) }
        ensures same_reference { self.new.out.ghost_name ≡ self.old.out.ghost_name }
        ensures text { TextAt self.old.end (line place y xi decision) self.old.out.now self.new.end self.new.out.now }
    {
        self.field(place.cast_signed(), b' ');
        self.field(y, b' ');
        self.field(i32::from(xi), b' ');
        self.field(i32::from(decision), b'\n');
    }

    // The line of a refusal, by its number: for every number up to 9, 0 too.
    pub fn stop_line(&mut self, number: u8, block: u32)
        requires { (number ≤ 9) × (block < 2 ^ 16) × (self.old.end + line_limit ≤ length self.old.out.now) }
        ensures same_reference { self.new.out.ghost_name ≡ self.old.out.ghost_name }
        ensures text { TextAt self.old.end (stop_line number block) self.old.out.now self.new.end self.new.out.now }
    {
        self.word(b"stop ");
        self.field(i32::from(number), b' ');
        self.field(block.cast_signed(), b'\n');
    }

    // The lines of a block whose first sample has this place.
    pub fn lines(&mut self, place: u32, y: &[i32], xi: &[u8], decision: &[i8])
        requires { (AllPrintable place y.now xi.now decision.now) × (self.old.end + line_limit * length y.now ≤ length self.old.out.now) }
        ensures same_reference { self.new.out.ghost_name ≡ self.old.out.ghost_name }
        ensures text { TextAt self.old.end (lines place y.now xi.now decision.now (length y.now)) self.old.out.now self.new.end self.new.out.now }
    {
        for (i, y) in y.iter().enumerate() {
            self.line(place + i as u32, *y, xi[i], decision[i]);
        }
    }
}
