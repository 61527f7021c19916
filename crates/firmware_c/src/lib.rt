#![tactic(auto)]

// The static library for firmware in C: the calls of the library `firmware`, once more, since a library exports nothing to C.
ghost use Rattle.steps.specs.Settings.{given};
ghost use Rattle.checks.specs.Checks.{buffers_of};
ghost use Rattle.state.specs.Answers.{SetUp};
ghost use Rattle.block.specs.Block.{outputs_of};
ghost use Rattle.image.specs.Load.{Load};
ghost use Rattle.firmware.specs.Held.{InPlace, Trial, Saving};

use image::save::Saved;
use state::equaliser::{Answer, Equaliser};

// A fresh state, or the number of the refusal beside the smallest one.
#[unsafe(no_mangle)]
pub extern "C" fn tigbulode_set_up(p: u8, q: u8, n: u8, r: u8, l: u8, m: u32) -> Answer
    ensures { SetUp (given p q n r l m) result }
{
    firmware::tigbulode_set_up(p, q, n, r, l, m)
}

// The image at the front of a lent buffer, or the number of the refusal and the buffer as it was. The record is only read.
#[unsafe(no_mangle)]
pub extern "C" fn tigbulode_save(s: &Equaliser, buffer: &mut [u8]) -> Saved
    ensures { Saving s.now buffer.old result s.now buffer.new }
{
    firmware::tigbulode_save(s, buffer)
}

// The state that bytes hold, or the number of the refusal beside the smallest one.
#[unsafe(no_mangle)]
pub extern "C" fn tigbulode_load(bytes: &[u8]) -> Answer
    ensures { Load bytes.now result }
{
    firmware::tigbulode_load(bytes)
}

// One block in place: the next state and the block's outputs, or the number of the refusal and everything as it was.
#[unsafe(no_mangle)]
pub extern "C" fn tigbulode_run(
    s: &mut Equaliser,
    m: &[i16],
    gains: &[u8],
    entries: &[i8],
    y: &mut [i32],
    xi: &mut [u8],
    decision: &mut [i8],
    z: &mut [i32],
    theta: &mut [u8],
) -> u8
    ensures { InPlace s.old (buffers_of m.now gains.now entries.now y.old xi.old decision.old z.old theta.old) result s.new (outputs_of y.new xi.new decision.new z.new theta.new) }
{
    firmware::tigbulode_run(s, m, gains, entries, y, xi, decision, z, theta)
}

// A trial of a block: the state that would follow and the block's outputs, or the number of the refusal, the given state and the lists as they were. The record is only read.
#[unsafe(no_mangle)]
pub extern "C" fn tigbulode_trial(
    s: &Equaliser,
    m: &[i16],
    gains: &[u8],
    entries: &[i8],
    y: &mut [i32],
    xi: &mut [u8],
    decision: &mut [i8],
    z: &mut [i32],
    theta: &mut [u8],
) -> Answer
    ensures { Trial s.now (buffers_of m.now gains.now entries.now y.old xi.old decision.old z.old theta.old) result s.now (outputs_of y.new xi.new decision.new z.new theta.new) }
{
    firmware::tigbulode_trial(s, m, gains, entries, y, xi, decision, z, theta)
}
