// A sample and its gain in one word. The bits of s as a float have the bit length of |s| and its first digits: plain x86-64
// makes four floats at a time, and bit lengths one by one.
ghost use Rattle.std.specs.Prelude.{◌≡◌, ◌+◌, ◌-◌, ◌^◌, ◌≤◌, ◌<◌, pos, nat_abs};
ghost use Rattle.laws.specs.Sums.{Each};
ghost use Rattle.steps.specs.Limits.{data_unit, symbol_limit};
ghost use Rattle.cable_trace.specs.Cable.{sample};
ghost use Rattle.cable_trace.specs.Calls.{Gainable, gain_of, float_digits, float_offset, float_bits, exponent_in, leading, sample_word, sample_words};

use super::limits::{DIGITS, EXPONENTS, FIRST, GAIN_UNIT, LAST, OFFSET};
use numbers::cut::Register;
use state::equaliser::Equaliser;
use steps::limits::DATA_UNIT;

const GAIN: u32 = Equaliser::GAIN as u32;

fn float_bits(s: i32) -> u32
    requires { nat_abs s < 2 ^ float_digits }
    ensures { result ≡ float_bits s }
{
    f32::to_bits(s as f32)
}

// The gain by the exponent of s.
fn gain(r: u32, e: u32) -> u32
    requires { (r ≤ symbol_limit) × (e ≤ float_offset + data_unit + r) }
    ensures { result ≡ gain_of r (e - float_offset) }
{
    if e <= OFFSET + r {
        GAIN
    } else {
        OFFSET + DATA_UNIT + r - e
    }
}

// The first 15 digits of s, from its bits.
fn leading(s: i32, b: u32) -> i32
    requires { (0 < nat_abs s) × (nat_abs s < 2 ^ float_digits) × (b ≡ float_bits s) }
    ensures { result ≡ leading s }
{
    let m = (FIRST + b / LAST % FIRST).cast_signed();
    if s < 0 { -m } else { m }
}

// m = T(s·2^(g−r)): no more digits than r are raised, of more the first ones are taken.
fn sample(r: u32, s: i32, b: u32, e: u32) -> i32
    requires { (Gainable r s) × (b ≡ float_bits s) × (e ≡ exponent_in b) }
    ensures { result ≡ sample r s }
{
    if e <= OFFSET + r {
        s.raise(GAIN - r)
    } else {
        leading(s, b)
    }
}

fn word(r: u32, s: i32) -> i32
    requires { Gainable r s }
    ensures { result ≡ pos (sample_word r s) }
{
    let b = float_bits(s);
    let e = b / DIGITS % EXPONENTS;
    let m = (sample(r, s, b, e) as i16).cast_unsigned();
    (u32::from(m) + GAIN_UNIT * gain(r, e)).cast_signed()
}

// Each s replaced by its word.
pub fn words(r: u32, sums: &mut [i32])
    requires { Each (Gainable r) sums.old }
    ensures { sums.new ≡ sample_words r sums.old }
{
    for s in sums {
        *s = word(r, *s);
    }
}
