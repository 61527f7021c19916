// What is turned down before any s is known.
ghost use Rattle.std.specs.Prelude.{◌≡◌, cond, ◌≤◌, eqb};
ghost use Rattle.laws.specs.Lists.{all};
ghost use Rattle.steps.specs.Limits.{symbol_limit};
ghost use Rattle.steps.specs.Settings.{is_symbol};
ghost use Rattle.cable_trace.specs.Cable.{response_fits, blocks_fit, length_cause, list_cause};
ghost use Rattle.cable_trace.specs.Lent.{cable_in};
ghost use Rattle.cable_trace.specs.Refusal.{number_in, cause_in};

use super::Cable;
use super::limits::{COUNT, RESPONSE, SENT};
use super::refusal::CableRefusal;
use state::sound::is_entry;
use trace_layout::limits::TRACE_HEADER;

fn is_symbol(v: i8, r: u32) -> bool
    requires { r ≤ symbol_limit }
    ensures { result ≡ is_symbol r v }
{
    is_entry(i16::from(v), r) & (v != 0)
}

pub fn all_symbols(xs: &[i8], r: u32) -> bool
    requires { r ≤ symbol_limit }
    ensures { result ≡ all (is_symbol r) xs.now }
{
    xs.iter().fold(true, |fit, v| fit & is_symbol(*v, r))
}

fn response_fits(k: usize) -> bool
    ensures { result ≡ response_fits k }
{
    (1 <= k) & (k <= RESPONSE)
}

fn blocks_fit(n: usize, symbols: usize) -> bool
    requires { 1 ≤ n }
    ensures { result ≡ blocks_fit n symbols }
{
    let count = symbols / n;
    (symbols % n == 0) & (1 <= count) & (count <= COUNT)
}

// By the lengths of the lists: the response, the blocks, the training count, the length of the trace.
fn lengths_fit(cable: Cable) -> Result<(), CableRefusal>
    requires { 1 ≤ cable.settings.N }
    ensures cause { cause_in result ≡ length_cause (cable_in cable.entry) }
    ensures number { number_in result ≡ cond (eqb (cause_in result) 0) 0 10 }
{
    let count = cable.symbols.len();
    if !response_fits(cable.response.len()) {
        return Err(CableRefusal::Response);
    }
    if !blocks_fit(usize::from(cable.settings.N), count) {
        return Err(CableRefusal::Blocks);
    }
    if count < cable.training {
        return Err(CableRefusal::Training);
    }
    if SENT < count {
        Err(CableRefusal::Length)
    } else {
        Ok(())
    }
}

// Then an entry that is no symbol, and an output of another length.
pub fn lists_fit(cable: Cable, room: usize) -> Result<(), CableRefusal>
    requires { (1 ≤ cable.settings.N) × (cable.settings.r ≤ symbol_limit) }
    ensures cause { cause_in result ≡ list_cause (cable_in cable.entry) room }
    ensures number { number_in result ≡ cond (eqb (cause_in result) 0) 0 10 }
{
    lengths_fit(cable)?;
    if !all_symbols(cable.symbols, u32::from(cable.settings.r)) {
        return Err(CableRefusal::Entry);
    }
    if room == TRACE_HEADER + 4 * cable.symbols.len() {
        Ok(())
    } else {
        Err(CableRefusal::Output)
    }
}
