// The equaliser of a station: its state in the image's order, its limits and its set-up.
ghost use Rattle.std.specs.Prelude.{◌≡◌};
ghost use Rattle.state.specs.State.{fresh, refused, settings};
ghost use Rattle.state.specs.Answers.{SetUp};
ghost use Rattle.state.specs.Refusal.{answer_with};

use super::refusal::Refusal;
use super::sizes::admitted;
use steps::limits;
use steps::settings::Settings;

// The record that C holds too: arrays of a fixed length, without a heap, of whose slots p and q say how many are used.
#[repr(C)]
#[derive(Clone, Copy)]
pub struct Equaliser {
    pub p: u8,
    pub q: u8,
    pub n: u8,
    pub r: u8,
    pub l: u8,
    pub psi: u8,
    pub b: u8,
    pub bmax: u8,
    pub m: u32,
    pub weights: [i16; Equaliser::SLOTS],
    pub past: [i16; Equaliser::SLOTS],
}

// A number beside a state, for C.
#[repr(C)]
#[derive(Clone, Copy)]
pub struct Answer {
    pub number: u8,
    pub state: Equaliser,
}

impl Answer {
    // The number beside the state that was made, or beside the one that stands with a refusal.
    pub fn with(state: Equaliser, made: Result<Equaliser, Refusal>) -> Answer
        ensures { result ≡ answer_with state made }
    {
        match made {
            Ok(state) => Answer { number: 0, state },
            Err(refusal) => Answer {
                number: u8::from(refusal),
                state,
            },
        }
    }
}

// The settings of a state.
impl From<Equaliser> for Settings {
    fn from(e: Equaliser) -> Settings
        ensures { result ≡ settings e }
    {
        Settings {
            p: e.p,
            q: e.q,
            N: e.n,
            r: e.r,
            L: e.l,
            M: e.m,
        }
    }
}

// Weights, ψ, past samples and symbols, b and B of 0.
#[tactic(auto, unfolding(crate::specs::State::fresh))]
pub fn fresh(k: Settings) -> Equaliser
    ensures { result ≡ fresh k }
{
    Equaliser {
        p: k.p,
        q: k.q,
        n: k.N,
        r: k.r,
        l: k.L,
        psi: 0,
        b: 0,
        bmax: 0,
        m: k.M,
        weights: [0i16; Equaliser::SLOTS],
        past: [0i16; Equaliser::SLOTS],
    }
}

// The smallest state, which stands beside the number of a refusal.
#[tactic(auto, unfolding(crate::specs::State::refused))]
pub fn refused() -> Equaliser
    ensures { result ≡ refused }
{
    fresh(Settings {
        p: 1,
        q: 1,
        N: 1,
        r: 0,
        L: 0,
        M: 0,
    })
}

impl Equaliser {
    // The limits.
    pub const TAPS: u8 = limits::TAPS as u8;

    pub const BLOCK: u8 = limits::BLOCK as u8;

    pub const SYMBOLS: u8 = limits::SYMBOLS as u8;

    pub const GAIN: u8 = limits::GAIN as u8;

    pub const EXPONENT: u8 = limits::EXPONENT as u8;

    // The slots of the weights, and of the data.
    pub const SLOTS: usize = limits::SLOTS;

    // The bytes of an image: of what stands before the weights, of a weight, of a datum, and of the longest image.
    pub const HEADER: usize = 12;

    pub const WEIGHT: usize = 2;

    pub const DATUM: usize = 2;

    pub const IMAGE: usize = Equaliser::HEADER
        + (Equaliser::WEIGHT + Equaliser::DATUM) * Equaliser::SLOTS;

    // A fresh state, or why the settings are turned down.
    #[tactic(auto, using(crate::proofs::RefusalLaws::refusals))]
    pub fn set_up(k: Settings) -> Result<Equaliser, Refusal>
        ensures { SetUp k (answer_with refused result) }
    {
        admitted(k)?;
        Ok(fresh(k))
    }
}
