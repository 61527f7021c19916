// Soundness: tests over the parts of a state.
ghost use Rattle.std.specs.Prelude.{◌≡◌, ◌≤◌};
ghost use Rattle.laws.specs.Lists.{all};
ghost use Rattle.steps.specs.Limits.{symbol_limit, scale_limit};
ghost use Rattle.steps.specs.Settings.{is_entry};
ghost use Rattle.steps.specs.Sound.{Within};
ghost use Rattle.state.specs.State.{is_zero, is_stored, sound_exponents, sound_weights, sound_past, is_sound, settings};
ghost use Rattle.state.specs.Answers.{examined};
ghost use Rattle.state.specs.Calls.{number_in};

use super::equaliser::Equaliser;
use super::refusal::Refusal;
use super::sizes::admitted;
use numbers::scale_count::scale_count;
use steps::limits::{DATA_UNIT, LENGTH};
use steps::past::largest_bits;
use steps::settings::Settings;
use steps::weights;

#[tactic(auto, using(crate::proofs::ElementTests::zeros_pass))]
pub fn all_zero(xs: &[i16]) -> bool
    ensures { result ≡ all is_zero xs.now }
{
    largest_bits(xs) == 0
}

// |A|·2^(B+S) < 2^(DATA_UNIT + b) for each: it goes by the largest bit length.
#[tactic(auto, using(crate::proofs::ElementTests::stored_largest_bits, crate::proofs::ElementTests::stored_zero))]
pub fn all_stored(xs: &[i16], s: u32, b: u8, bmax: u8) -> bool
    requires { s ≤ scale_limit }
    ensures { result ≡ all (is_stored s b bmax) xs.now }
{
    let scale = u32::from(bmax) + s;
    let room = DATA_UNIT + u32::from(b);
    if scale < room {
        largest_bits(xs) <= room - scale
    } else {
        all_zero(xs)
    }
}

// 0, or odd and of magnitude below 2^(r+1). That r is within its limit is asked here and wherever an r is handed on: it
// comes from checked settings as a number, and a type for it would be built anew in every caller.
pub fn is_entry(v: i16, r: u32) -> bool
    requires { r ≤ symbol_limit }
    ensures { result ≡ is_entry r v }
{
    let size = v.unsigned_abs();
    (size == 0) | ((size % 2 == 1) & (size < 1 << (r + 1)))
}

pub fn all_symbols(xs: &[i16], r: u32) -> bool
    requires { r ≤ symbol_limit }
    ensures { result ≡ all (is_entry r) xs.now }
{
    xs.iter().fold(true, |fit, x| fit & is_entry(*x, r))
}

fn sound_exponents(e: Equaliser) -> bool
    ensures { result ≡ sound_exponents e }
{
    (e.psi <= Equaliser::EXPONENT)
        & (e.b <= e.bmax)
        & (u32::from(e.bmax) + u32::from(e.l) <= LENGTH)
}

fn sound_weights(e: Equaliser) -> bool
    requires { Within (settings e) }
    ensures { result ≡ sound_weights e }
{
    let taps = usize::from(e.p) + usize::from(e.q);
    weights::all_small(&e.weights[..taps]) & weights::all_zero(&e.weights[taps..])
}

#[tactic(auto, using(numbers::proofs::ScaleCountLaws::scale_least))]
fn sound_past(e: Equaliser) -> bool
    requires { Within (settings e) }
    ensures { result ≡ sound_past e }
{
    let p = usize::from(e.p);
    let taps = p + usize::from(e.q);
    let s = scale_count(p);
    let last = p - 1;
    all_stored(&e.past[..last], s, e.b, e.bmax)
        & (e.past[last] == 0)
        & all_symbols(&e.past[p..taps], u32::from(e.r))
        & all_zero(&e.past[taps..])
}

#[tactic(auto, unfolding(crate::specs::State::is_sound))]
pub fn is_sound(e: Equaliser) -> bool
    requires { Within (settings e) }
    ensures { result ≡ is_sound e }
{
    sound_exponents(e) & sound_weights(e) & sound_past(e)
}

// What an operation finds of the state that it is given.
#[tactic(auto, using(crate::proofs::SizesLaws::passed_within, crate::proofs::RefusalLaws::refusals), unfolding(crate::specs::Answers::examined))]
pub fn examined(e: Equaliser) -> Result<(), Refusal>
    ensures { number_in result ≡ examined e }
{
    admitted(Settings::from(e))?;
    if is_sound(e) {
        Ok(())
    } else {
        Err(Refusal::State)
    }
}
