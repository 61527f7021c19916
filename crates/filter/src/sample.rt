// One sample.
ghost use Rattle.std.specs.Prelude.{◌≡◌, ◌+◌, ◌^◌, ◌<◌, ◌≤◌, nat_abs, drop};
ghost use Rattle.steps.specs.Limits.{symbol_limit, output_exponent_limit};
ghost use Rattle.steps.specs.Sound.{line_length, or_all};
ghost use Rattle.steps.specs.Fir.{largest_bits, magnitudes};
ghost use Rattle.filter.specs.Calls.{LargestBitsAt, next_delay, SymbolBounds, FilterBounds, OutputIs, DecisionBounds, DecisionIs, chosen, UpdateBounds, updated, ChangeBounds, ChangedIs, result_of, Ready, SampleResultIs, filter_state_of};
ghost use Rattle.filter.specs.Lent.{SameLists};

use super::weights::{Coefficients, Weights};
use steps::limits::{DATA_UNIT, RECEIVED_UNIT, STEP_UNIT};
use steps::settings::Settings;

// The scale counts of a block, its b and B, and γ + RECEIVED_UNIT.
#[derive(Clone, Copy)]
pub struct BlockExponents {
    pub s: u32,
    pub sb: u32,
    pub b: u32,
    pub bmax: u32,
    pub gamma30: u32,
}

// The data of both filters: stored samples, and past symbols.
#[derive(Clone, Copy)]
pub struct Data<'a> {
    pub samples: &'a [i16],
    pub symbols: &'a [i16],
}

// What steps 1 to 3 give.
#[derive(Clone, Copy)]
pub struct Output {
    pub nu: u32,
    pub y: i32,
    pub xi: u32,
}

// What steps 4 and 5 give.
#[derive(Clone, Copy)]
pub struct Decision {
    pub decision: i16,
    pub v: i16,
    pub z: i32,
    pub theta: u32,
}

// What a sample hands out, and the new ψ.
#[derive(Clone, Copy)]
pub struct SampleResult {
    pub y: i32,
    pub xi: u8,
    pub decision: i8,
    pub z: i32,
    pub theta: u8,
    pub psi: u32,
}

// How many symbols have come since one of the largest bit length, after the symbol v.
pub fn next_delay(r: u8, delay: usize, v: i16) -> usize
    requires { (r ≤ symbol_limit) × (delay ≤ line_length) }
    ensures { result ≡ next_delay r delay v }
{
    if v.unsigned_abs() >> u32::from(r) == 0 {
        delay + 1
    } else {
        0
    }
}

// Step 1: the largest bit length of the symbols, which needs no search where one of them is known to have it.
fn reach(r: u32, delay: usize, symbols: &[i16]) -> u32
    requires { SymbolBounds r delay symbols.now }
    ensures { result ≡ largest_bits symbols.now }
{
    if delay < symbols.len() {
        r + 1
    } else {
        steps::past::largest_bits(symbols)
    }
}

// Steps 1 to 3: ν, Y and ξ.
pub fn filter_output(
    r: u32,
    delay: usize,
    e: BlockExponents,
    psi: u32,
    weights: Coefficients,
    inputs: Data,
) -> Output
    requires { FilterBounds e psi weights.forward.now weights.back.now inputs.samples.now inputs.symbols.now × SymbolBounds r delay inputs.symbols.now }
    ensures { OutputIs e psi weights.entry.forward.now weights.entry.back.now inputs.entry.samples.now inputs.entry.symbols.now result }
{
    let nu = e.sb + reach(r, delay, inputs.symbols);
    let f = steps::weights::sum(weights.forward, inputs.samples);
    let h = steps::weights::sum(weights.back, inputs.symbols);
    let o = steps::output::output(f, h, e.gamma30, nu, psi);
    Output {
        nu,
        y: o.y,
        xi: o.xi,
    }
}

// Step 5: the training entry, or the decision where that is 0.
fn chosen(entry: i16, d: i16) -> i16
    ensures { result ≡ chosen entry d }
{
    if entry == 0 { d } else { entry }
}

// Steps 4 and 5: the decision, v, Z and θ.
pub fn decision_error(r: u32, sb: u32, y: i32, xi: u32, entry: i16) -> Decision
    requires { DecisionBounds r sb y xi entry }
    ensures { DecisionIs r sb y xi entry result }
{
    let d = steps::decision::decide(y, xi, r);
    let v = chosen(entry, d);
    let e = steps::error::error(r, sb, v, y, xi);
    Decision {
        decision: d,
        v,
        z: e.z,
        theta: e.theta,
    }
}

// Step 6: the new weights of a filter whose data are raised by some bits more, and the bits of their magnitudes together.
// Its numbers, and those of the steps below, come from several places and go together nowhere else.
pub fn update(
    w: &mut [i16],
    a: &[i16],
    m: u32,
    z: i32,
    psi: u32,
    theta: u32,
    scale: u32,
    exponent: u32,
    more: u32,
) -> u16
    requires { UpdateBounds m z psi theta scale exponent more w.old a.now }
    ensures { (w.new ≡ updated m z psi theta scale exponent more w.old a.now) × (result ≡ or_all (magnitudes w.new)) }
{
    let j = steps::factor::factor(
        m,
        z,
        STEP_UNIT + RECEIVED_UNIT + psi + scale - (exponent + theta),
    );
    steps::weights::adapt(w, a, j as i32, DATA_UNIT - (scale + more))
}

// Steps 6 and 7: the new weights and the new ψ.
pub fn change(
    m: u32,
    e: BlockExponents,
    psi: u32,
    h: Output,
    j: Decision,
    weights: &mut Weights,
    inputs: Data,
) -> u32
    requires { ChangeBounds m e psi h j weights.old.forward.now weights.old.back.now inputs.samples.now inputs.symbols.now }
    ensures lists { SameLists weights.old weights.new }
    ensures changed { ChangedIs m e psi h j weights.old.forward.now weights.old.back.now inputs.entry.samples.now inputs.entry.symbols.now result weights.new.forward.now weights.new.back.now }
{
    let ahead = update(
        weights.forward,
        inputs.samples,
        m,
        j.z,
        psi,
        j.theta,
        e.s,
        e.gamma30,
        0,
    );
    let behind = update(
        weights.back,
        inputs.symbols,
        m,
        j.z,
        psi,
        j.theta,
        e.sb,
        h.nu + RECEIVED_UNIT,
        DATA_UNIT - h.nu,
    );
    weights.normalise(ahead | behind, psi)
}

// What is handed out, in its final widths.
fn result_of(h: Output, j: Decision, psi: u32) -> SampleResult
    requires { (h.xi ≤ output_exponent_limit) × (j.theta ≤ output_exponent_limit) × (nat_abs j.decision < 2 ^ (symbol_limit + 1)) }
    ensures { result ≡ result_of h j psi }
{
    SampleResult {
        y: h.y,
        xi: h.xi as u8,
        decision: j.decision as i8,
        z: j.z,
        theta: j.theta as u8,
        psi,
    }
}

// Steps 1 to 8. The first of the symbols is the place of the new one, which is written before the weights change.
pub fn step(
    k: Settings,
    e: BlockExponents,
    psi: u32,
    delay: usize,
    entry: i16,
    weights: &mut Weights,
    samples: &[i16],
    symbols: &mut [i16],
) -> SampleResult
    requires { Ready k e (filter_state_of weights.old.forward.now weights.old.back.now samples.now (drop 1 symbols.old) psi) entry × LargestBitsAt k.r delay (drop 1 symbols.old) }
    ensures lists { SameLists weights.old weights.new }
    ensures sample { SampleResultIs k e.gamma30 (filter_state_of weights.old.forward.now weights.old.back.now samples.now (drop 1 symbols.old) psi) entry result weights.new.forward.now weights.new.back.now symbols.new }
{
    let r = u32::from(k.r);
    let before = Data {
        samples,
        symbols: &symbols[1..],
    };
    let h = filter_output(r, delay, e, psi, weights.read(), before);
    let j = decision_error(r, e.sb, h.y, h.xi, entry);
    symbols[0] = j.v;
    let after = Data {
        samples,
        symbols: &symbols[1..],
    };
    let next = change(k.M, e, psi, h, j, weights, after);
    result_of(h, j, next)
}
