#![tactic(auto)]

// Sets a station up, runs two blocks and writes the image of the state in hexadecimal.
use one_sample::{IMAGE, run_sample};
use state::equaliser::Equaliser;
use state::refusal::Refusal;
use std::io::Print;
use steps::settings::Settings;

// The image after two blocks of one sample of 16384, the first of which trains.
fn image() -> Result<[u8; IMAGE], Refusal> {
    let fresh = Equaliser::set_up(Settings {
        p: 1,
        q: 1,
        N: 1,
        r: 0,
        L: 0,
        M: 67108864,
    })?;
    let first = run_sample(fresh, 16384, 1).next?;
    let second = run_sample(first, 16384, 0).next?;
    let mut image = [0u8; IMAGE];
    image::save::save(second, &mut image)?;
    Ok(image)
}

// The bytes in two digits each, with a space between.
fn put(rt: &impl Print, image: &[u8]) {
    let mut before = "";
    for byte in image {
        let _ = print!(rt; "{before}{byte:02X}");
        before = " ";
    }
    let _ = println!(rt;);
}

fn run(rt: &impl Print) {
    if let Ok(image) = image() {
        put(rt, &image);
    }
}

fn main(rt: HostRuntime) {
    let usage =
        b"usage: worked_example\nWrites the image that the specification's two samples leave.\n";
    let err = rt.stderr();
    if streams::no_arguments(
        &rt,
        &err,
        streams::arg_count(&rt, streams::MANY),
        b"worked_example",
        usage,
    ) {
        run(&rt);
    }
}
