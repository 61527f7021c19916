// What the cable makes of the symbols: s of each.
ghost use Rattle.std.specs.Prelude.{◌≡◌, ◌≤◌, length};
ghost use Rattle.laws.specs.Sums.{dot};
ghost use Rattle.steps.specs.Fir.{magnitudes};
ghost use Rattle.steps.specs.Sound.{or_all};
ghost use Rattle.cable_trace.specs.Calls.{sent_limit, taps_length, line_of, empty_line, empty_sums, sums, LineSummable, twice, row_sums, RowsSummable, RowSummable};

use super::limits::{LINE, RESPONSE, SENT, TAPS};
use numbers::product::mac;

pub fn empty_line() -> [i16; LINE]
    ensures { result ≡ empty_line }
{
    [0; LINE]
}

pub fn empty_sums() -> [i32; SENT]
    ensures { result ≡ empty_sums }
{
    [0; SENT]
}

// The symbols to their places in a line of zeros, the newest first.
pub fn line(symbols: &[i8], line: &mut [i16])
    requires { (length symbols.now ≤ sent_limit) × (line.old ≡ empty_line) }
    ensures { line.new ≡ line_of symbols.now }
{
    for (i, v) in symbols.iter().enumerate() {
        line[SENT - 1 - i] = i16::from(*v);
    }
}

// A response twice, each time with 0 after it up to the greatest length.
fn twice(h: &[i16], taps: &mut [i16])
    requires { length taps.old ≡ taps_length }
    ensures { taps.new ≡ twice h.now }
{
    for (i, tap) in taps.iter_mut().enumerate() {
        *tap = h.get(i % RESPONSE).copied().unwrap_or(0);
    }
}

// The sum of a row times as many symbols.
fn sum(h: &[i16], v: &[i16]) -> i32
    requires { RowSummable h.now v.now }
    ensures { result ≡ dot h.now v.now }
{
    let mut sum = 0;
    for (h, v) in h.iter().zip(v) {
        sum = mac(sum, *h, *v);
    }
    sum
}

// s of each symbol. The two rows are equal: as their place changes, a compiler multiplies words of 16 bits as they are, and
// does not widen them before the loop.
fn row_sums(taps: &[i16], line: &[i16], out: &mut [i32])
    requires { RowsSummable taps.now line.now (length out.old) }
    ensures { out.new ≡ row_sums taps.now line.now (length out.old) }
{
    for (i, s) in out.iter_mut().enumerate() {
        let row = RESPONSE * (i % 2);
        let at = SENT - 1 - i;
        *s = sum(&taps[row..row + RESPONSE], &line[at..at + RESPONSE]);
    }
}

// The bits of every |s| together.
fn bits(sums: &[i32]) -> u32
    ensures { result ≡ or_all (magnitudes sums.now) }
{
    sums.iter().fold(0, |seen, s| seen | s.unsigned_abs())
}

// s of each symbol from a response, and the bits of every |s| together.
pub fn sums(h: &[i16], line: &[i16], out: &mut [i32]) -> u32
    requires { LineSummable h.now line.now (length out.old) }
    ensures { (out.new ≡ sums h.now line.now (length out.old)) × (result ≡ or_all (magnitudes out.new)) }
{
    let mut taps = [0i16; TAPS];
    twice(h, &mut taps);
    row_sums(&taps, line, out);
    bits(out)
}
