#![tactic(auto)]

// The static library for the surface laboratory in C: the calls of the library `laboratory`, once more, since a library
// exports nothing to C.
ghost use Rattle.steps.specs.Settings.{given};
ghost use Rattle.cable_trace.specs.Answers.{cable_of, Output};
ghost use Rattle.readings.specs.Readings.{lists_of};
ghost use Rattle.laboratory.specs.Readings.{ReadOut};

use laboratory::PowerAnswer;

// The trace that a station receives over a cable, or the number of the refusal and the output as it was.
#[unsafe(no_mangle)]
pub extern "C" fn tigbulode_cable(
    p: u8,
    q: u8,
    n: u8,
    r: u8,
    l: u8,
    m: u32,
    response: &[i16],
    symbols: &[i8],
    training: usize,
    out: &mut [u8],
) -> u8
    ensures { Output (cable_of (given p q n r l m) response.now symbols.now training) out.old result out.new }
{
    laboratory::tigbulode_cable(p, q, n, r, l, m, response, symbols, training, out)
}

// The readings of what a block handed out, each as y and the error, with the error power; or 11 and the readings as they were.
#[unsafe(no_mangle)]
pub extern "C" fn tigbulode_readings(
    y: &[i32],
    xi: &[u8],
    z: &[i32],
    theta: &[u8],
    out: &mut [[f64; 2]],
) -> PowerAnswer
    ensures { ReadOut (lists_of y.now xi.now z.now theta.now) out.old result out.new }
{
    laboratory::tigbulode_readings(y, xi, z, theta, out)
}
