// Saving: the bytes of a state.
ghost use Rattle.std.specs.Prelude.{◌≡◌, length};
ghost use Rattle.image.specs.Image.{header_bytes, Save};
ghost use Rattle.image.specs.Layout.{current};
ghost use Rattle.image.specs.Result.{saved_of};

use super::layout::{current, data_place, end_place};
use state::equaliser::Equaliser;
use state::refusal::Refusal;
use state::sound::examined;
use words::write::put_words;

// A number beside the length of an image, for C.
#[repr(C)]
#[derive(Clone, Copy)]
pub struct Saved {
    pub number: u8,
    pub length: usize,
}

impl From<Result<usize, Refusal>> for Saved {
    fn from(saved: Result<usize, Refusal>) -> Saved
        ensures { result ≡ saved_of saved }
    {
        match saved {
            Ok(length) => Saved { number: 0, length },
            Err(refusal) => Saved {
                number: u8::from(refusal),
                length: 0,
            },
        }
    }
}

// What stands before the weights.
#[tactic(auto, using(crate::proofs::ImageLaws::header_parts, words::proofs::LibraryLaws::le_bytes_four))]
pub fn put_header(e: Equaliser, out: &mut [u8])
    requires { length out.old ≡ current.header }
    ensures { out.new ≡ header_bytes e }
{
    out[..8].copy_from_slice(&[e.p, e.q, e.n, e.r, e.l, e.psi, e.b, e.bmax]);
    out[8..].copy_from_slice(&e.m.to_le_bytes());
}

// The length of the image at the front of a lent buffer, or why it is turned down: the buffer is then as it was.
#[tactic(auto, using(crate::proofs::ImageLaws::save_refused, crate::proofs::ImageLaws::save_short, crate::proofs::ImageLaws::taps_most))]
pub fn save(e: Equaliser, buffer: &mut [u8]) -> Result<usize, Refusal>
    ensures { Save e buffer.old (saved_of result) buffer.new }
{
    examined(e)?;
    let taps = usize::from(e.p) + usize::from(e.q);
    let y = current();
    let start = y.header;
    let mid = data_place(y, taps);
    let end = end_place(y, taps);
    if buffer.len() < end {
        return Err(Refusal::Buffer);
    }
    put_header(e, &mut buffer[..start]);
    put_words(&e.weights[..taps], &mut buffer[start..mid]);
    put_words(&e.past[..taps], &mut buffer[mid..end]);
    Ok(end)
}
