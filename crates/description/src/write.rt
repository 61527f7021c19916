// The trace of a description, or the line of its refusal.
ghost use Rattle.std.specs.Prelude.{◌≡◌, true, ◌≤◌, length, take};
ghost use Rattle.trace_text.specs.Calls.{TextAt};
ghost use Rattle.cable_trace.specs.Answers.{Simulation};
ghost use Rattle.description.specs.Description.{description_limit, response_in, symbols_in, well_described, cable_in, cable_output};
ghost use Rattle.description.specs.Calls.{response_room, trace_end, Counted, Describable};

use super::limits::{DESCRIPTION, RESPONSE};
use super::read;
use cable_trace::Cable;
use cable_trace::refusal::CableRefusal;
use trace_layout::limits::{TRACE, TRACE_HEADER};
use trace_layout::read::settings_in;

fn response_room() -> [i16; RESPONSE]
    ensures { length result ≡ response_room }
{
    [0; RESPONSE]
}

fn symbol_room() -> [i8; DESCRIPTION]
    ensures { length result ≡ description_limit }
{
    [0; DESCRIPTION]
}

// Rooms with the response and the symbols in front.
fn response(t: &[u8], k: usize) -> [i16; RESPONSE]
    requires { Counted t.now (response_in t.now) k }
    ensures { take k result ≡ (cable_in t.now).response }
{
    let mut room = response_room();
    read::response(t, &mut room[..k]);
    room
}

fn symbols(t: &[u8], n: usize) -> [i8; DESCRIPTION]
    requires { Counted t.now (symbols_in t.now) n }
    ensures { take n result ≡ (cable_in t.now).symbols }
{
    let start = t.len() - n;
    let mut room = symbol_room();
    read::symbols(t, start, &mut room[..n]);
    room
}

// What the simulator makes of a description in an output of any length.
fn simulated(t: &[u8], out: &mut [u8]) -> Result<(), CableRefusal>
    requires { well_described t.now ≡ true }
    ensures { Simulation (cable_in t.now) out.old result out.new }
{
    let k = read::response_count(t);
    let n = read::symbol_count(t);
    let response = response(t, k);
    let symbols = symbols(t, n);
    let cable = Cable {
        settings: settings_in(t),
        response: &response[..k],
        symbols: &symbols[..n],
        training: read::training_count(t),
    };
    cable_trace::simulate(cable, out)
}

// Where the trace of n symbols ends; 0 where it would be too long: the simulator itself turns down an output of 0 bytes.
fn trace_end(n: usize) -> usize
    requires { n ≤ description_limit }
    ensures { result ≡ trace_end n }
{
    let end = TRACE_HEADER + 4 * n;
    if end <= TRACE { end } else { 0 }
}

pub fn write(t: &[u8], out: &mut [u8]) -> usize
    requires { Describable t.now out.old }
    ensures { TextAt 0 (cable_output (cable_in t.now)) out.old result out.new }
{
    let end = trace_end(read::symbol_count(t));
    match simulated(t, &mut out[..end]) {
        Ok(()) => end,
        Err(refusal) => super::line::refusal(u8::from(refusal), refusal.cause(), out),
    }
}
