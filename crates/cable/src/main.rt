#![tactic(auto)]

// Reads a description of a cable from standard input and writes its trace to standard output.
use description::limits::DESCRIPTION;
use std::io::{Input, IsTerminal, Print};
use trace_layout::limits::TRACE;

// As the program `trace` but for sizes, names and what is made: what both share is in `streams`.
// One byte more than a description may have, so that an oversize one is seen.
fn run<R: Input + Print>(rt: &R, err: &impl Print)
where
    R::Reader: IsTerminal,
{
    let mut input = [0u8; DESCRIPTION + 1];
    let mut out = [0u8; TRACE];
    let n = streams::read(rt, &mut input);
    if n <= DESCRIPTION && streams::failed(err, streams::next(rt), b"cable") {
        return;
    }
    let length = description::described(&input[..n], &mut out);
    let output = &out;
    streams::write_front(rt, err, output, length, b"cable");
}

fn main(rt: HostRuntime) {
    let usage =
        b"usage: cable < DESCRIPTION > TRACE\nThe trace that a station receives over the cable; or one line that begins with cable: and a number, where it is turned down.\ndocs/EQUALISER.md has the layout; lab/run tries step sizes on a cable that a text describes.\n";
    let err = rt.stderr();
    if streams::no_arguments(
        &rt,
        &err,
        streams::arg_count(&rt, streams::MANY),
        b"cable",
        usage,
    ) {
        run(&rt, &err);
    }
}
