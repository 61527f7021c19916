// The checks of lent lists, after those of the state.
ghost use Rattle.std.specs.Prelude.{◌≡◌, ◌≤◌};
ghost use Rattle.laws.specs.Lists.{all};
ghost use Rattle.steps.specs.Limits.{symbol_limit};
ghost use Rattle.steps.specs.Settings.{is_entry};
ghost use Rattle.state.specs.Calls.{number_in};
ghost use Rattle.checks.specs.Checks.{gain_fits, lengths_fit, check_number};
ghost use Rattle.checks.specs.Calls.{Sampled, buffers_read};

use block::lists::{Block, Handed};
use state::equaliser::Equaliser;
use state::refusal::Refusal;
use state::sound::{examined, is_entry};

pub fn all_entries(xs: &[i8], r: u32) -> bool
    requires { r ≤ symbol_limit }
    ensures { result ≡ all (is_entry r) xs.now }
{
    xs.iter()
        .fold(true, |fit, x| fit & is_entry(i16::from(*x), r))
}

pub fn all_gains(gains: &[u8], l: u8) -> bool
    ensures { result ≡ all (gain_fits l) gains.now }
{
    gains
        .iter()
        .fold(true, |fit, g| fit & (l <= *g) & (*g <= Equaliser::GAIN))
}

// Whether every lent list is N long.
pub fn lengths_fit(n: usize, block: Block, outputs: Handed) -> bool
    ensures { result ≡ lengths_fit n (buffers_read block.entry outputs.entry) }
{
    (block.m.len() == n)
        & (block.gains.len() == n)
        & (block.entries.len() == n)
        & (outputs.y.len() == n)
        & (outputs.xi.len() == n)
        & (outputs.decision.len() == n)
        & (outputs.z.len() == n)
        & (outputs.theta.len() == n)
}

// What is examined before a block is run: the state, then the lengths, the gains and the training entries.
#[tactic(auto, using(crate::proofs::CheckLaws::checks, state::proofs::RefusalLaws::number_least))]
pub fn checked(e: Equaliser, block: Block, outputs: Handed) -> Result<(), Refusal>
    ensures { number_in result ≡ check_number e (buffers_read block.entry outputs.entry) }
{
    examined(e)?;
    if !lengths_fit(usize::from(e.n), block, outputs) {
        return Err(Refusal::Length);
    }
    if !all_gains(block.gains, e.l) {
        return Err(Refusal::Gain);
    }
    if all_entries(block.entries, u32::from(e.r)) {
        Ok(())
    } else {
        Err(Refusal::Entry)
    }
}

// The samples have 16 bits. The loop only reads, for the proof: compiled, it is gone.
#[tactic(auto, using(crate::proofs::CheckLaws::sampled_next, crate::proofs::CheckLaws::sampled_all))]
pub fn sixteen_bits(m: &[i16])
    ensures { Sampled m.now }
{
    for x in m {
        let _x = *x;
    }
}
