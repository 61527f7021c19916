// The bytes of a trace.
ghost use Rattle.std.specs.Prelude.{◌≡◌, ◌≤◌, length};
ghost use Rattle.trace_layout.specs.Trace.{trace_header_length, settings_in, count_in, samples_in, well_formed};
ghost use Rattle.trace_layout.specs.Calls.{Readable, ReadIs};

use super::limits::{TRACE, TRACE_HEADER};
use steps::settings::Settings;

// The settings. That a header is there is asked of each of these: they read the front of a description too, and the
// definitions speak of places of the whole.
pub fn settings_in(t: &[u8]) -> Settings
    requires { trace_header_length ≤ length t.now }
    ensures { result ≡ settings_in t.now }
{
    Settings {
        p: t[0],
        q: t[1],
        N: t[2],
        r: t[3],
        L: t[4],
        M: u32::from_le_bytes([t[8], t[9], t[10], t[11]]),
    }
}

// How many blocks the header tells, and how many samples.
pub fn count_in(t: &[u8]) -> usize
    requires { trace_header_length ≤ length t.now }
    ensures { result ≡ count_in t.now }
{
    usize::from(u16::from_le_bytes([t[6], t[7]]))
}

fn samples(t: &[u8]) -> usize
    requires { trace_header_length ≤ length t.now }
    ensures { result ≡ samples_in t.now }
{
    usize::from(t[2]) * count_in(t)
}

// m, gains and training entries of a block whose first sample has this place. The entries lie behind all samples.
#[tactic(auto, using(crate::proofs::ReadLaws::well_long))]
pub fn block(t: &[u8], first: usize, m: &mut [i16], gains: &mut [u8], entries: &mut [i8])
    requires { Readable t.now first m.old gains.old entries.old }
    ensures { ReadIs t.now first (length m.old) m.new gains.new entries.new }
{
    let start = TRACE_HEADER + 3 * samples(t);
    // Three lists are written in step: a place in each is plainer than two zips.
    for i in 0..m.len() {
        let n = first + i;
        let at = TRACE_HEADER + 3 * n;
        m[i] = i16::from_le_bytes([t[at], t[at + 1]]);
        gains[i] = t[at + 2];
        entries[i] = t[start + n].cast_signed();
    }
}

// Whether the length is right and byte 5 is 0.
#[tactic(auto, unfolding(crate::specs::Trace::well_formed))]
pub fn well_formed(t: &[u8]) -> bool
    ensures { result ≡ well_formed t.now }
{
    (TRACE_HEADER..=TRACE).contains(&t.len())
        && t.len() == TRACE_HEADER + 4 * samples(t)
        && t[5] == 0
}
