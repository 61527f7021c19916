// The sizes and the step admission.
ghost use Rattle.std.specs.Prelude.{◌≡◌};
ghost use Rattle.steps.specs.Sound.{Within};
ghost use Rattle.state.specs.Calls.{number_in};
ghost use Rattle.state.specs.Sizes.{sizes_fit, admits, settings_number};

use super::equaliser::Equaliser;
use super::refusal::Refusal;
use steps::limits::STEP_UNIT;
use steps::settings::Settings;

// Whether every size is within its limits.
pub fn sizes_fit(k: Settings) -> bool
    ensures { result ≡ sizes_fit k }
{
    (1 <= k.p)
        & (k.p <= Equaliser::TAPS)
        & (1 <= k.q)
        & (k.q <= Equaliser::TAPS)
        & (1 <= k.N)
        & (u32::from(k.p) <= u32::from(k.N) + 1)
        & (k.N <= Equaliser::BLOCK)
        & (k.r <= Equaliser::SYMBOLS)
        & (k.L <= Equaliser::GAIN)
}

// Whether M.D ≤ 2^STEP_UNIT, both sides times 2^L. That sizes are within their limits is asked here and by the tests of
// a state, which a loaded one reaches before it is examined: a type for it would only be taken apart there.
pub fn admits(k: Settings) -> bool
    requires { Within k }
    ensures { result ≡ admits k }
{
    let l = u64::from(k.L);
    let e = 2 * u64::from(k.r);
    let d = (1u64 << (e + 3 + l))
        + u64::from(k.p) * (1u64 << (e + 2))
        + u64::from(k.q) * (1u64 << (e + 2 + l));
    u64::from(k.M) * d <= 1u64 << (u64::from(STEP_UNIT) + l)
}

// Whether a station can be set up: a size outside its limits is told before an M that is not admitted.
#[tactic(auto, unfolding(crate::specs::Sizes::settings_number))]
pub fn admitted(k: Settings) -> Result<(), Refusal>
    ensures { number_in result ≡ settings_number k }
{
    if !sizes_fit(k) {
        return Err(Refusal::Size);
    }
    if admits(k) {
        Ok(())
    } else {
        Err(Refusal::Step)
    }
}
