// Loading: the state that bytes hold.
ghost use Rattle.std.specs.Prelude.{◌≡◌, ◌+◌, ◌*◌, ◌≤◌, length};
ghost use Rattle.std.specs.Int.{w16};
ghost use Rattle.words.specs.Words.{words_of, width};
ghost use Rattle.steps.specs.Limits.{slots};
ghost use Rattle.state.specs.Calls.{number_in};
ghost use Rattle.state.specs.Refusal.{answer_with};
ghost use Rattle.state.specs.State.{settings, padded, refused};
ghost use Rattle.image.specs.Layout.{least_header, end_place, taps_in, layout_of};
ghost use Rattle.image.specs.Load.{weights_by, state_in, frame_number, Load};
ghost use Rattle.image.specs.Calls.{Weighed};

use super::layout::{LEAST_HEADER, Layout, data_place, end_place, layout_of};
use state::equaliser::Equaliser;
use state::refusal::Refusal;
use state::sizes::sizes_fit;
use state::sound::examined;
use steps::settings::Settings;

// Signed numbers of two bytes each, at the front of the slots.
pub fn words_in(bytes: &[u8], n: usize) -> [i16; Equaliser::SLOTS]
    requires { (length bytes.now ≡ width w16 * n) × (n ≤ slots) }
    ensures { result ≡ padded (words_of w16 n bytes.now) }
{
    let mut out = [0i16; Equaliser::SLOTS];
    // By place: what is written through a zip of iter_mut is not known after it.
    for i in 0..n {
        out[i] = i16::from_le_bytes([bytes[2 * i], bytes[2 * i + 1]]);
    }
    out
}

// The settings in a header. A trace has a header of its own: that of an image will grow, and the trace's must not.
#[tactic(auto, using(words::proofs::LibraryLaws::number_four), unfolding(crate::specs::Load::state_by))]
fn settings_in(bytes: &[u8]) -> Settings
    requires { least_header ≤ length bytes.now }
    ensures { result ≡ settings (state_in bytes.now) }
{
    Settings {
        p: bytes[0],
        q: bytes[1],
        N: bytes[2],
        r: bytes[3],
        L: bytes[4],
        M: u32::from_le_bytes([bytes[8], bytes[9], bytes[10], bytes[11]]),
    }
}

// The weights in bytes of a layout.
fn weights_in(y: Layout, bytes: &[u8], taps: usize) -> [i16; Equaliser::SLOTS]
    requires { Weighed y bytes.now taps }
    ensures { result ≡ padded (weights_by y bytes.now) }
{
    let start = y.header;
    let mid = data_place(y, taps);
    words_in(&bytes[start..mid], taps)
}

// Whether bytes are as long as an image: bytes too short for a header are told first, then a size outside its limits.
#[tactic(auto, using(crate::proofs::FrameLaws::fit_placed), unfolding(crate::specs::Load::frame_number, crate::specs::Load::state_by))]
pub fn framed(bytes: &[u8]) -> Result<(), Refusal>
    ensures { number_in result ≡ frame_number bytes.now }
{
    if bytes.len() < LEAST_HEADER {
        return Err(Refusal::Bytes);
    }
    let k = settings_in(bytes);
    if !sizes_fit(k) {
        return Err(Refusal::Size);
    }
    let taps = usize::from(k.p) + usize::from(k.q);
    if bytes.len() == end_place(layout_of(bytes), taps) {
        Ok(())
    } else {
        Err(Refusal::Bytes)
    }
}

// The state in bytes of the right length.
#[tactic(auto, using(crate::proofs::FrameLaws::few_placed, crate::proofs::FrameLaws::weighed), unfolding(crate::specs::Load::state_by))]
pub fn state_in(bytes: &[u8]) -> Equaliser
    requires { (least_header ≤ length bytes.now) × (length bytes.now ≡ end_place (layout_of bytes.now) (taps_in bytes.now)) × (taps_in bytes.now ≤ slots) }
    ensures { result ≡ state_in bytes.now }
{
    let k = settings_in(bytes);
    let taps = usize::from(k.p) + usize::from(k.q);
    let y = layout_of(bytes);
    let mid = data_place(y, taps);
    let end = end_place(y, taps);
    Equaliser {
        p: k.p,
        q: k.q,
        n: k.N,
        r: k.r,
        l: k.L,
        psi: bytes[5],
        b: bytes[6],
        bmax: bytes[7],
        m: k.M,
        weights: weights_in(y, bytes, taps),
        past: words_in(&bytes[mid..end], taps),
    }
}

// The state that bytes hold, or why they are turned down.
#[tactic(auto, using(state::proofs::RefusalLaws::refusals, crate::proofs::FrameLaws::framed_sound), unfolding(crate::specs::Load::load_number, crate::specs::Load::load_state))]
pub fn load(bytes: &[u8]) -> Result<Equaliser, Refusal>
    ensures { Load bytes.now (answer_with refused result) }
{
    framed(bytes)?;
    let e = state_in(bytes);
    examined(e)?;
    Ok(e)
}
