#![tactic(auto)]

// A cable on paper: the trace that a station receives over it.
ghost use Rattle.std.specs.Prelude.{length};
ghost use Rattle.cable_trace.specs.Answers.{Simulation};
ghost use Rattle.cable_trace.specs.Calls.{Makeable};
ghost use Rattle.cable_trace.specs.Lent.{cable_in};

use numbers::bit_length::bit_length;
use refusal::CableRefusal;
use steps::limits::DATA_UNIT;
use steps::settings::Settings;

pub mod causes;
pub mod limits;
pub mod put;
pub mod refusal;
pub mod sums;
pub mod word;

// A cable: the settings of the station, the response, the symbols that are sent, and how many of them are training entries.
#[derive(Clone, Copy)]
pub struct Cable<'a> {
    pub settings: Settings,
    pub response: &'a [i16],
    pub symbols: &'a [i8],
    pub training: usize,
}

// The trace of a cable whose settings and lists fit, where its gains fit too.
fn make(cable: Cable, out: &mut [u8]) -> Result<(), CableRefusal>
    requires { Makeable (cable_in cable) (length out.old) }
    ensures { Simulation (cable_in cable.entry) out.old result out.new }
{
    let k = cable.settings;
    let mut line = sums::empty_line();
    let mut sums = sums::empty_sums();
    let n = cable.symbols.len();
    checks::lists::sixteen_bits(cable.response);
    sums::line(cable.symbols, &mut line);
    let bits = sums::sums(cable.response, &line, &mut sums[..n]);
    if DATA_UNIT + u32::from(k.r) - u32::from(k.L) < bit_length(u64::from(bits)) {
        return Err(CableRefusal::Gain);
    }
    put::trace(cable, &mut sums[..n], out);
    Ok(())
}

// The trace that a station receives, or why it is turned down and the output as it was.
pub fn simulate(cable: Cable, out: &mut [u8]) -> Result<(), CableRefusal>
    ensures { Simulation (cable_in cable.entry) out.old result out.new }
{
    state::sizes::admitted(cable.settings)?;
    causes::lists_fit(cable, out.len())?;
    make(cable, out)
}
