// Lists at the front of an array.
ghost use Rattle.std.specs.Prelude.{◌≡◌, ◌++◌, ◌+◌, ◌-◌, ◌≤◌, length, replicate, pos};
ghost use Rattle.steps.specs.Limits.{tap_limit, slots};
ghost use Rattle.state.specs.State.{padded};

use state::equaliser::Equaliser;

const TAPS: usize = Equaliser::TAPS as usize;

// A list at the front of TAPS slots.
pub fn fronted(src: &[i16]) -> [i16; TAPS]
    requires { length src.now ≤ tap_limit }
    ensures { result ≡ src.now ++ replicate (tap_limit - length src.now) (pos 0) }
{
    let mut out = [0i16; TAPS];
    out[..src.len()].copy_from_slice(src);
    out
}

// Two lists, one after the other, at the front of SLOTS slots.
pub fn joined(first: &[i16], second: &[i16]) -> [i16; Equaliser::SLOTS]
    requires { length first.now + length second.now ≤ slots }
    ensures { result ≡ padded (first.now ++ second.now) }
{
    let mut out = [0i16; Equaliser::SLOTS];
    let n = first.len();
    let end = n + second.len();
    out[..n].copy_from_slice(first);
    out[n..end].copy_from_slice(second);
    out
}
