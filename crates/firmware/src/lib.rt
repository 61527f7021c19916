#![tactic(auto)]

// The equaliser for firmware in C.
ghost use Rattle.std.specs.Prelude.{◌≡◌};
ghost use Rattle.steps.specs.Settings.{given};
ghost use Rattle.checks.specs.Checks.{buffers_of};
ghost use Rattle.state.specs.Answers.{SetUp};
ghost use Rattle.state.specs.Refusal.{answer_with};
ghost use Rattle.state.specs.State.{refused};
ghost use Rattle.block.specs.Block.{outputs_of};
ghost use Rattle.image.specs.Load.{Load};
ghost use Rattle.firmware.specs.Held.{InPlace, Trial, Saving};

use block::lists::{Block, Outputs};
use image::save::Saved;
use state::equaliser::{Answer, Equaliser, refused};
use state::refusal::Refusal;
use steps::settings::Settings;

// The state that was made, or the number of the refusal beside the smallest one.
fn answer(made: Result<Equaliser, Refusal>) -> Answer
    ensures { result ≡ answer_with refused made }
{
    match made {
        Ok(state) => Answer { number: 0, state },
        Err(refusal) => Answer {
            number: u8::from(refusal),
            state: refused(),
        },
    }
}

// A fresh state, or the number of the refusal beside the smallest one.
#[unsafe(no_mangle)]
pub extern "C" fn tigbulode_set_up(p: u8, q: u8, n: u8, r: u8, l: u8, m: u32) -> Answer
    ensures { SetUp (given p q n r l m) result }
{
    answer(Equaliser::set_up(Settings {
        p,
        q,
        N: n,
        r,
        L: l,
        M: m,
    }))
}

// The image at the front of a lent buffer, or the number of the refusal and the buffer as it was. The record is only read.
#[unsafe(no_mangle)]
pub extern "C" fn tigbulode_save(s: &Equaliser, buffer: &mut [u8]) -> Saved
    ensures { Saving s.now buffer.old result s.now buffer.new }
{
    Saved::from(image::save::save(*s, buffer))
}

// The state that bytes hold, or the number of the refusal beside the smallest one.
#[unsafe(no_mangle)]
pub extern "C" fn tigbulode_load(bytes: &[u8]) -> Answer
    ensures { Load bytes.now result }
{
    answer(image::load::load(bytes))
}

// One block in place: the next state and the block's outputs, or the number of the refusal and everything as it was.
#[unsafe(no_mangle)]
pub extern "C" fn tigbulode_run(
    s: &mut Equaliser,
    m: &[i16],
    gains: &[u8],
    entries: &[i8],
    y: &mut [i32],
    xi: &mut [u8],
    decision: &mut [i8],
    z: &mut [i32],
    theta: &mut [u8],
) -> u8
    ensures { InPlace s.old (buffers_of m.now gains.now entries.now y.old xi.old decision.old z.old theta.old) result s.new (outputs_of y.new xi.new decision.new z.new theta.new) }
{
    let block = Block { m, gains, entries };
    let mut outputs = Outputs {
        y,
        xi,
        decision,
        z,
        theta,
    };
    match station::run::run(*s, block, &mut outputs) {
        Ok(next) => {
            *s = next;
            0
        }
        Err(refusal) => u8::from(refusal),
    }
}

// A trial of a block: the state that would follow and the block's outputs, or the number of the refusal, the given state and the lists as they were. The record is only read.
#[unsafe(no_mangle)]
pub extern "C" fn tigbulode_trial(
    s: &Equaliser,
    m: &[i16],
    gains: &[u8],
    entries: &[i8],
    y: &mut [i32],
    xi: &mut [u8],
    decision: &mut [i8],
    z: &mut [i32],
    theta: &mut [u8],
) -> Answer
    ensures { Trial s.now (buffers_of m.now gains.now entries.now y.old xi.old decision.old z.old theta.old) result s.now (outputs_of y.new xi.new decision.new z.new theta.new) }
{
    let block = Block { m, gains, entries };
    let mut outputs = Outputs {
        y,
        xi,
        decision,
        z,
        theta,
    };
    Answer::with(*s, station::run::run(*s, block, &mut outputs))
}
