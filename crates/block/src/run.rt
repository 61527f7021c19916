// One block.
ghost use Rattle.std.specs.Prelude.{◌≡◌, suc};
ghost use Rattle.filter.specs.Calls.{SampleResultIs};
ghost use Rattle.filter.specs.Lent.{SameLists};
ghost use Rattle.block.specs.Block.{stored_all};
ghost use Rattle.block.specs.Line.{newest};
ghost use Rattle.block.specs.Lists.{block_in, outputs_in, SameOutputs};
ghost use Rattle.block.specs.Calls.{memory_in, SameMemory, BlockExponentsIs, Startable, FillBounds, filled, filter_state_at, Advanceable, Begun, Progressed, Runnable, BlockResultIs};

use super::lists::{Block, Memory, Outputs};
use super::{line, stored};
use filter::sample::{self, BlockExponents, SampleResult};
use filter::weights::Weights;
use numbers::bit_length::bit_length;
use numbers::scale_count::scale_count;
use steps::limits::{BLOCK, EXPONENT, LINE, TAPS};
use steps::past::rescale_all;
use steps::settings::Settings;

// How many samples are run, and ψ after them.
#[derive(Clone, Copy)]
pub struct Progress {
    pub count: usize,
    pub psi: u32,
}

// ψ, b and B after a block.
#[derive(Clone, Copy)]
pub struct BlockResult {
    pub psi: u32,
    pub b: u32,
    pub bmax: u32,
}

// Step 1 of a block.
pub fn begin(k: Settings, was: u32, m: &[i16], gains: &[u8]) -> BlockExponents
    requires { Startable k was m.now gains.now }
    ensures { BlockExponentsIs k was m.now gains.now result }
{
    let s = scale_count(usize::from(k.p));
    let sb = scale_count(usize::from(k.q));
    let b = bit_length(u64::from(stored::received_bits(m, gains)));
    let bmax = b.max(was);
    BlockExponents {
        s,
        sb,
        b,
        bmax,
        gamma30: u32::from(k.r) + bmax + s,
    }
}

// The samples of a block as stored, and in a line before the old ones.
fn fill(
    m: &[i16],
    gains: &[u8],
    shift: u32,
    old: &[i16],
    stored: &mut [i16],
    line: &mut [i16; LINE],
)
    requires { FillBounds m.now gains.now shift old.now stored.old line.old }
    ensures { (stored.new ≡ stored_all shift m.now gains.now) × (line.new ≡ filled shift m.now gains.now old.now line.old) }
{
    stored::store(m, gains, shift, stored);
    line::start(old, line);
    line::add(stored, line);
}

// Sample n, on the lines of stored samples and of symbols.
fn advance(
    k: Settings,
    e: BlockExponents,
    psi: u32,
    delay: usize,
    n: usize,
    entry: i8,
    weights: &mut Weights,
    samples: &[i16; LINE],
    symbols: &mut [i16; LINE],
) -> SampleResult
    requires { Advanceable k e delay n entry samples.now symbols.old (filter_state_at k n weights.old.forward.now weights.old.back.now samples.now symbols.old psi) }
    ensures lists { SameLists weights.old weights.new }
    ensures sample { SampleResultIs k e.gamma30 (filter_state_at k n weights.old.forward.now weights.old.back.now samples.now symbols.old psi) entry result weights.new.forward.now weights.new.back.now (newest (suc k.q) (suc n) symbols.new) }
{
    let first = BLOCK - 1 - n;
    let oldest = first + usize::from(k.p);
    let last = first + usize::from(k.q) + 1;
    sample::step(
        k,
        e,
        psi,
        delay,
        i16::from(entry),
        weights,
        &samples[first..oldest],
        &mut symbols[first..last],
    )
}

// The samples of a block one by one, up to the one at which ψ passes its limit.
fn run_samples(
    k: Settings,
    e: BlockExponents,
    psi: u32,
    entries: &[i8],
    weights: &mut Weights,
    samples: &[i16; LINE],
    symbols: &mut [i16; LINE],
    outputs: &mut Outputs,
) -> Progress
    requires { Begun k e psi entries.now weights.old.forward.now weights.old.back.now samples.now symbols.old (outputs_in outputs.old) }
    ensures lists { SameLists weights.old weights.new × SameOutputs outputs.old outputs.new }
    ensures progress { Progressed k e psi entries.now weights.old.forward.now weights.old.back.now samples.now symbols.old (outputs_in outputs.old) result weights.new.forward.now weights.new.back.now symbols.new (outputs_in outputs.new) }
{
    let mut at = psi;
    // No symbol is known to have the largest bit length: a delay that no symbol has, since a place comes of it by adding.
    let mut delay = TAPS;
    for (n, entry) in entries.iter().enumerate() {
        let t = advance(k, e, at, delay, n, *entry, weights, samples, symbols);
        outputs.y[n] = t.y;
        outputs.xi[n] = t.xi;
        outputs.decision[n] = t.decision;
        outputs.z[n] = t.z;
        outputs.theta[n] = t.theta;
        delay = sample::next_delay(k.r, delay, symbols[BLOCK - 1 - n]);
        at = t.psi;
        if EXPONENT < at {
            return Progress {
                count: n + 1,
                psi: at,
            };
        }
    }
    Progress {
        count: entries.len(),
        psi: at,
    }
}

// The run of a block, which leaves the newest samples and symbols where the old ones were.
pub fn run(k: Settings, memory: &mut Memory, block: Block, outputs: &mut Outputs) -> BlockResult
    requires { Runnable k (memory_in memory.old) (block_in block) memory.old.samples.now (outputs_in outputs.old) }
    ensures lists { SameMemory memory.old memory.new × SameOutputs outputs.old outputs.new }
    ensures block { BlockResultIs k (memory_in memory.old) (block_in block.entry) (outputs_in outputs.old) result memory.new.weights.forward.now memory.new.weights.back.now memory.new.samples.now memory.new.symbols.now (outputs_in outputs.new) }
{
    let e = begin(k, memory.b, block.m, block.gains);
    rescale_all(memory.samples, memory.bmax, e.bmax);
    let mut stored = [0i16; BLOCK];
    let mut sample_line = [0i16; LINE];
    fill(
        block.m,
        block.gains,
        e.bmax + e.s,
        memory.samples,
        &mut stored[..block.m.len()],
        &mut sample_line,
    );
    let mut symbol_line = [0i16; LINE];
    line::start(memory.symbols, &mut symbol_line);
    let r = run_samples(
        k,
        e,
        memory.psi,
        block.entries,
        &mut memory.weights,
        &sample_line,
        &mut symbol_line,
        outputs,
    );
    line::newest(&sample_line, r.count, memory.samples);
    line::newest(&symbol_line, r.count, memory.symbols);
    BlockResult {
        psi: r.psi,
        b: e.b,
        bmax: e.bmax,
    }
}
