#![tactic(auto)]

// The operations of the surface laboratory for C.
ghost use Rattle.std.specs.Prelude.{◌≡◌};
ghost use Rattle.steps.specs.Settings.{given};
ghost use Rattle.cable_trace.specs.Answers.{cable_of, Output};
ghost use Rattle.readings.specs.Readings.{lists_of};
ghost use Rattle.laboratory.specs.Calls.{answered};
ghost use Rattle.laboratory.specs.Readings.{ReadOut};

use cable_trace::Cable;
use readings::{Lists, Power, Unreadable};
use steps::settings::Settings;

// The trace that a station receives over a cable, or the number of the refusal and the output as it was.
#[unsafe(no_mangle)]
pub extern "C" fn tigbulode_cable(
    p: u8,
    q: u8,
    n: u8,
    r: u8,
    l: u8,
    m: u32,
    response: &[i16],
    symbols: &[i8],
    training: usize,
    out: &mut [u8],
) -> u8
    ensures { Output (cable_of (given p q n r l m) response.now symbols.now training) out.old result out.new }
{
    let settings = Settings {
        p,
        q,
        N: n,
        r,
        L: l,
        M: m,
    };
    let cable = Cable {
        settings,
        response,
        symbols,
        training,
    };
    match cable_trace::simulate(cable, out) {
        Ok(()) => 0,
        Err(refusal) => u8::from(refusal),
    }
}

// For C, the error power of a block: 0 or 11, whether it is only a floor, and the power.
#[repr(C)]
#[derive(Clone, Copy)]
pub struct PowerAnswer {
    pub number: u8,
    pub is_floor: u8,
    pub power: f64,
}

impl From<Result<Power, Unreadable>> for PowerAnswer {
    fn from(answer: Result<Power, Unreadable>) -> PowerAnswer
        ensures { result ≡ answered answer }
    {
        match answer {
            Ok(Power::Mean(power)) => PowerAnswer {
                number: 0,
                is_floor: 0,
                power,
            },
            Ok(Power::Floor(power)) => PowerAnswer {
                number: 0,
                is_floor: 1,
                power,
            },
            Err(Unreadable) => PowerAnswer {
                number: 11,
                is_floor: 0,
                power: 0.0,
            },
        }
    }
}

// The readings of what a block handed out, each as y and the error, with the error power; or 11 and the readings as they were.
#[unsafe(no_mangle)]
pub extern "C" fn tigbulode_readings(
    y: &[i32],
    xi: &[u8],
    z: &[i32],
    theta: &[u8],
    out: &mut [[f64; 2]],
) -> PowerAnswer
    ensures { ReadOut (lists_of y.now xi.now z.now theta.now) out.old result out.new }
{
    let lists = Lists { y, xi, z, theta };
    PowerAnswer::from(readings::readings(lists, out))
}
