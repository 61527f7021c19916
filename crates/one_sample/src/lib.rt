#![tactic(auto)]

// A block of one sample with the gain 0.
ghost use Rattle.one_sample.specs.Sample.{SampleRun};

use block::lists::{Block, Outputs};
use state::equaliser::Equaliser;
use state::refusal::Refusal;

// The length of the image of a state with one tap of each filter.
pub const IMAGE: usize = Equaliser::IMAGE
    - (Equaliser::WEIGHT + Equaliser::DATUM) * (Equaliser::SLOTS - 2);

// What running it answers and hands out.
#[derive(Clone, Copy)]
pub struct SampleResult {
    pub next: Result<Equaliser, Refusal>,
    pub y: [i32; 1],
    pub xi: [u8; 1],
    pub decision: [i8; 1],
    pub z: [i32; 1],
    pub theta: [u8; 1],
}

pub fn run_sample(e: Equaliser, sample: i16, entry: i8) -> SampleResult
    ensures { SampleRun e sample entry result }
{
    let mut y = [0i32];
    let mut xi = [0u8];
    let mut decision = [0i8];
    let mut z = [0i32];
    let mut theta = [0u8];
    let block = Block {
        m: &[sample],
        gains: &[0],
        entries: &[entry],
    };
    let mut outputs = Outputs {
        y: &mut y,
        xi: &mut xi,
        decision: &mut decision,
        z: &mut z,
        theta: &mut theta,
    };
    let next = station::run::run(e, block, &mut outputs);
    SampleResult {
        next,
        y,
        xi,
        decision,
        z,
        theta,
    }
}
