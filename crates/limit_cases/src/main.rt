#![tactic(auto)]

// The scale counts, and the cases beside the limits that a set-up, a block and a save can show, a line each with what comes of it.
use numbers::scale_count::scale_count;
use one_sample::{IMAGE, run_sample};
use state::equaliser::Equaliser;
use state::refusal::Refusal;
use std::io::Print;
use steps::settings::Settings;

// The number of an answer.
fn number<T: Drop>(made: Result<T, Refusal>) -> u8 {
    match made {
        Ok(_) => 0,
        Err(refusal) => u8::from(refusal),
    }
}

fn set_up(rt: &impl Print, p: u8, q: u8, n: u8, r: u8, l: u8, m: u32) {
    let answer = number(Equaliser::set_up(Settings {
        p,
        q,
        N: n,
        r,
        L: l,
        M: m,
    }));
    let _ = println!(rt; "set-up p {p} q {q} N {n} r {r} L {l} M {m}: answer {answer}");
}

// A state of one tap each, with its weights and its past symbol.
fn state(r: u8, psi: u8, m: u32, forward: i16, back: i16, symbol: i16) -> Equaliser {
    let mut weights = [0i16; Equaliser::SLOTS];
    let mut past = [0i16; Equaliser::SLOTS];
    weights[0] = forward;
    weights[1] = back;
    past[1] = symbol;
    Equaliser {
        p: 1,
        q: 1,
        n: 1,
        r,
        l: 0,
        psi,
        b: 0,
        bmax: 0,
        m,
        weights,
        past,
    }
}

// A block of one sample with the gain 0: what comes of it, and what the image and the weights of the next state say.
fn block(rt: &impl Print, about: &str, e: Equaliser, sample: i16, entry: i8) -> Equaliser {
    let r = run_sample(e, sample, entry);
    let answer = number(r.next);
    let state = r.next.unwrap_or(e);
    let [y] = r.y;
    let [xi] = r.xi;
    let [decision] = r.decision;
    let mut image = [0u8; IMAGE];
    let saved = number(image::save::save(state, &mut image));
    let [_, _, _, _, _, psi, b, bmax, ..] = image;
    let [forward, back, ..] = state.weights;
    let _ = print!(rt; "{about}: answer {answer}, Y {y}, xi {xi}, decision {decision}");
    let _ = println!(rt; ", save {saved}, psi {psi}, b {b}, B {bmax}, weights {forward} {back}");
    state
}

fn set_ups(rt: &impl Print) {
    set_up(rt, 1, 1, 1, 0, 0, 67108864);
    set_up(rt, 1, 1, 1, 0, 0, 67108865);
    set_up(rt, 3, 3, 2, 2, 1, 2581110);
    set_up(rt, 3, 3, 2, 2, 1, 2581111);
    set_up(rt, 4, 1, 2, 0, 0, 0);
    set_up(rt, 4, 1, 3, 0, 0, 0);
}

fn loudness(rt: &impl Print) {
    block(
        rt,
        "highest sample",
        state(0, 0, 67108864, 0, 0, 0),
        32767,
        1,
    );
    let loud = block(
        rt,
        "lowest sample",
        state(0, 0, 67108864, 0, 0, 0),
        -32768,
        1,
    );
    let quiet = block(rt, "zeros after it", loud, 0, 0);
    block(rt, "zeros after those", quiet, 0, 0);
    block(rt, "zeros first", state(0, 0, 67108864, 0, 0, 0), 0, 0);
}

fn ties(rt: &impl Print) {
    block(rt, "y 2", state(1, 3, 0, 0, 8192, 1), 0, 0);
    block(rt, "y -2", state(1, 3, 0, 0, 8192, -1), 0, 0);
}

fn halvings(rt: &impl Print) {
    block(
        rt,
        "new weight 16383",
        state(0, 0, 131072, 16382, -3, 0),
        16384,
        1,
    );
    block(
        rt,
        "new weight 16384",
        state(0, 0, 131072, 16383, -3, 0),
        16384,
        1,
    );
    block(
        rt,
        "new weight -16385",
        state(0, 0, 196608, -16383, -3, 0),
        16384,
        -1,
    );
}

// A block of silence with M = 0.
fn silent(rt: &impl Print, about: &str, s: Equaliser) -> Equaliser {
    block(rt, about, s, 0, 1)
}

fn doublings(rt: &impl Print) {
    silent(rt, "weights 4095 at psi 1", state(0, 1, 0, 4095, 4095, 0));
    silent(rt, "a weight of 4096", state(0, 1, 0, 4096, 4095, 0));
    silent(rt, "a weight of -4096", state(0, 1, 0, 4095, -4096, 0));
    silent(rt, "weights 4095 at psi 0", state(0, 0, 0, 4095, 4095, 0));
    let two = silent(rt, "weights 0 at psi 2", state(0, 2, 0, 0, 0, 0));
    let one = silent(rt, "the same once more", two);
    silent(rt, "the same at psi 0", one);
}

fn two_samples(rt: &impl Print) {
    let first = block(rt, "first sample", state(0, 0, 67108864, 0, 0, 0), 16384, 1);
    block(rt, "second sample", first, 16384, 0);
}

fn scale_counts(rt: &impl Print) {
    let _ = print!(rt; "scale counts of 1 to 64:");
    for k in 1..65 {
        let count = scale_count(k);
        let _ = print!(rt; " {count}");
    }
    let _ = println!(rt;);
}

fn run(rt: &impl Print) {
    scale_counts(rt);
    set_ups(rt);
    loudness(rt);
    ties(rt);
    halvings(rt);
    doublings(rt);
    two_samples(rt);
}

fn main(rt: HostRuntime) {
    let usage = b"usage: limit_cases\nWrites a line for each case beside the limits.\n";
    let err = rt.stderr();
    if streams::no_arguments(
        &rt,
        &err,
        streams::arg_count(&rt, streams::MANY),
        b"limit_cases",
        usage,
    ) {
        run(&rt);
    }
}
