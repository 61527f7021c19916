// The bytes of a description.
ghost use Rattle.std.specs.Prelude.{◌≡◌, ◌+◌, ◌*◌, ◌≤◌, length};
ghost use Rattle.std.specs.Int.{w8, w16};
ghost use Rattle.std.proofs.Common.{to_z};
ghost use Rattle.laws.specs.Values.{values};
ghost use Rattle.words.specs.Words.{byte_at, number_at};
ghost use Rattle.description.specs.Description.{description_header_length, response_in, symbols_in, training_in, well_described};

use super::limits::{DESCRIPTION, DESCRIPTION_HEADER};

// How many values the response has, how many symbols there are, and how many of these are training entries. That a header
// is there is asked of each, since the definitions speak of places of the whole.
pub fn response_count(t: &[u8]) -> usize
    requires { description_header_length ≤ length t.now }
    ensures { result ≡ response_in t.now }
{
    usize::from(u16::from_le_bytes([t[6], t[7]]))
}

pub fn symbol_count(t: &[u8]) -> usize
    requires { description_header_length ≤ length t.now }
    ensures { result ≡ symbols_in t.now }
{
    u32::from_le_bytes([t[12], t[13], t[14], t[15]]) as usize
}

pub fn training_count(t: &[u8]) -> usize
    requires { description_header_length ≤ length t.now }
    ensures { result ≡ training_in t.now }
{
    u32::from_le_bytes([t[16], t[17], t[18], t[19]]) as usize
}

// Whether the length is right and byte 5 is 0.
pub fn well_described(t: &[u8]) -> bool
    ensures { result ≡ well_described t.now }
{
    if t.len() < DESCRIPTION_HEADER {
        false
    } else if DESCRIPTION < t.len() {
        false
    } else {
        t.len() == DESCRIPTION_HEADER + 2 * response_count(t) + symbol_count(t) && t[5] == 0
    }
}

// The values of the response.
pub fn response(t: &[u8], out: &mut [i16])
    requires { description_header_length + 2 * length out.old ≤ length t.now }
    ensures { out.new ≡ values (λ i. to_z w16 (number_at 2 t.now (description_header_length + 2 * i))) (length out.old) }
{
    for (i, value) in out.iter_mut().enumerate() {
        let at = DESCRIPTION_HEADER + 2 * i;
        *value = i16::from_le_bytes([t[at], t[at + 1]]);
    }
}

// The symbols, from a place on.
pub fn symbols(t: &[u8], start: usize, out: &mut [i8])
    requires { start + length out.old ≤ length t.now }
    ensures { out.new ≡ values (λ i. to_z w8 (byte_at t.now (start + i))) (length out.old) }
{
    for (i, symbol) in out.iter_mut().enumerate() {
        *symbol = t[start + i].cast_signed();
    }
}
