// Running a block.
ghost use Rattle.std.specs.Prelude.{◌≡◌};
ghost use Rattle.block.specs.Calls.{OutputsLong};
ghost use Rattle.block.specs.Lists.{block_in, outputs_in, SameOutputs};
ghost use Rattle.state.specs.Refusal.{answer_with};
ghost use Rattle.state.specs.State.{settings};
ghost use Rattle.checks.specs.Calls.{Checked};
ghost use Rattle.checks.specs.Lists.{buffers_in};
ghost use Rattle.station.specs.Answers.{Run};
ghost use Rattle.station.specs.Calls.{ResultBytes, next_of, RunChecked};

use super::copies::{fronted, joined};
use block::lists::{Block, Memory, Outputs};
use block::run::BlockResult;
use filter::weights::Weights;
use state::equaliser::Equaliser;
use state::refusal::Refusal;
use steps::settings::Settings;

const BLOCK: usize = Equaliser::BLOCK as usize;

const EXPONENT: u32 = Equaliser::EXPONENT as u32;

// The state that a block leaves, from its numbers, its weights and its data.
fn next(
    e: Equaliser,
    r: BlockResult,
    weights: [i16; Equaliser::SLOTS],
    past: [i16; Equaliser::SLOTS],
) -> Equaliser
    requires { ResultBytes r }
    ensures { result ≡ next_of e r weights past }
{
    Equaliser {
        p: e.p,
        q: e.q,
        n: e.n,
        r: e.r,
        l: e.l,
        psi: r.psi as u8,
        b: r.b as u8,
        bmax: r.bmax as u8,
        m: e.m,
        weights,
        past,
    }
}

// The run of a block that passed the checks.
pub fn run_checked(e: Equaliser, block: Block, outputs: &mut Outputs) -> Result<Equaliser, Refusal>
    requires { (Checked e (block_in block)) × (OutputsLong (settings e) (outputs_in outputs.old)) }
    ensures lists { SameOutputs outputs.old outputs.new }
    ensures run { RunChecked e (block_in block.entry) (outputs_in outputs.old) (answer_with e result) (outputs_in outputs.new) }
{
    let p = usize::from(e.p);
    let q = usize::from(e.q);
    let taps = p + q;
    let mut forward = fronted(&e.weights[..p]);
    let mut back = fronted(&e.weights[p..taps]);
    let mut samples = fronted(&e.past[..p]);
    let mut symbols = fronted(&e.past[p..taps]);
    let mut memory = Memory {
        weights: Weights {
            forward: &mut forward[..p],
            back: &mut back[..q],
        },
        samples: &mut samples[..p],
        symbols: &mut symbols[..q],
        psi: u32::from(e.psi),
        b: u32::from(e.b),
        bmax: u32::from(e.bmax),
    };
    let r = block::run::run(Settings::from(e), &mut memory, block, outputs);
    if EXPONENT < r.psi {
        return Err(Refusal::Exponent);
    }
    let Memory {
        weights,
        samples,
        symbols,
        ..
    } = memory;
    let Weights { forward, back } = weights;
    samples[p - 1] = 0;
    let weights = joined(forward, back);
    let past = joined(samples, symbols);
    Ok(next(e, r, weights, past))
}

// One block: the next state and the block's outputs, or why it is turned down and everything as it was. Its work areas have
// a fixed length, without a heap.
pub fn run(e: Equaliser, block: Block, outputs: &mut Outputs) -> Result<Equaliser, Refusal>
    ensures lists { SameOutputs outputs.old outputs.new }
    ensures run { Run e (buffers_in block.entry outputs.old) (answer_with e result) (outputs_in outputs.new) }
{
    checks::lists::checked(e, block, outputs.read())?;
    checks::lists::sixteen_bits(block.m);
    let n = usize::from(e.n);
    let mut y = [0i32; BLOCK];
    let mut xi = [0u8; BLOCK];
    let mut decision = [0i8; BLOCK];
    let mut z = [0i32; BLOCK];
    let mut theta = [0u8; BLOCK];
    let mut areas = Outputs {
        y: &mut y[..n],
        xi: &mut xi[..n],
        decision: &mut decision[..n],
        z: &mut z[..n],
        theta: &mut theta[..n],
    };
    let next = run_checked(e, block, &mut areas)?;
    outputs.y.copy_from_slice(areas.y);
    outputs.xi.copy_from_slice(areas.xi);
    outputs.decision.copy_from_slice(areas.decision);
    outputs.z.copy_from_slice(areas.z);
    outputs.theta.copy_from_slice(areas.theta);
    Ok(next)
}
