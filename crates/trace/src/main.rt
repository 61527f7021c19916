#![tactic(auto)]

// Reads a trace from standard input and writes its text to standard output.
use std::io::{Input, IsTerminal, Print};
use trace_layout::limits::TRACE;
use trace_text::limits::TEXT;

// As the program `cable` but for sizes, names and what is made: what both share is in `streams`.
// One byte more than a trace may have, so that an oversize one is seen, and room for the longest text.
fn run<R: Input + Print>(rt: &R, err: &impl Print)
where
    R::Reader: IsTerminal,
{
    let mut input = [0u8; TRACE + 1];
    let mut out = [0u8; TEXT];
    let n = streams::read(rt, &mut input);
    if n <= TRACE && streams::failed(err, streams::next(rt), b"trace") {
        return;
    }
    let length = trace_text::text(&input[..n], &mut out);
    let text = &out;
    streams::write_front(rt, err, text, length, b"trace");
}

fn main(rt: HostRuntime) {
    let usage =
        b"usage: trace < TRACE > TEXT\nOne line a sample: its place, Y, xi and the decision; a line of stop, a number and a block where it is turned down.\ndocs/EQUALISER.md has the layout, traces/make makes a trace from a text.\n";
    let err = rt.stderr();
    if streams::no_arguments(
        &rt,
        &err,
        streams::arg_count(&rt, streams::MANY),
        b"trace",
        usage,
    ) {
        run(&rt, &err);
    }
}
