// The weights of both filters, which one exponent scales.
ghost use Rattle.std.specs.Prelude.{◌≡◌, ◌≤◌};
ghost use Rattle.std.specs.Int.Bits.{bit_or};
ghost use Rattle.laws.specs.Sums.{Each};
ghost use Rattle.steps.specs.Limits.{exponent_limit};
ghost use Rattle.steps.specs.Sound.{or_all};
ghost use Rattle.steps.specs.Fir.{Small, halved, doubled, magnitudes};
ghost use Rattle.filter.specs.Calls.{NormalisedIs};
ghost use Rattle.filter.specs.Lent.{SameLists};

use steps::limits::{DOUBLING, HALVING};

#[derive(Drop)]
pub struct Weights<'a> {
    pub forward: &'a mut [i16],
    pub back: &'a mut [i16],
}

// The weights of both filters where they are only read.
#[derive(Clone, Copy)]
pub struct Coefficients<'a> {
    pub forward: &'a [i16],
    pub back: &'a [i16],
}

impl Weights<'_> {
    // The same weights, to be read.
    pub fn read(&self) -> Coefficients<'_>
        ensures { (result.forward.now ≡ self.now.forward.now) × (result.back.now ≡ self.now.back.now) }
    {
        Coefficients {
            forward: self.forward,
            back: self.back,
        }
    }

    // Half of each weight of both filters.
    fn halve(&mut self)
        ensures lists { SameLists self.old self.new }
        ensures halved { (self.new.forward.now ≡ halved self.old.forward.now) × (self.new.back.now ≡ halved self.old.back.now) }
    {
        steps::weights::halve(self.forward);
        steps::weights::halve(self.back);
    }

    // Twice each weight of both filters.
    fn double(&mut self)
        requires { (Each Small self.old.forward.now) × (Each Small self.old.back.now) }
        ensures lists { SameLists self.old self.new }
        ensures doubled { (self.new.forward.now ≡ doubled self.old.forward.now) × (self.new.back.now ≡ doubled self.old.back.now) }
    {
        steps::weights::double(self.forward);
        steps::weights::double(self.back);
    }

    // Step 7 and what follows it: the new ψ, where seen has the bits of all new magnitudes together.
    pub fn normalise(&mut self, seen: u16, psi: u32) -> u32
        requires { (psi ≤ exponent_limit) × (seen ≡ bit_or (or_all (magnitudes self.old.forward.now)) (or_all (magnitudes self.old.back.now))) }
        ensures lists { SameLists self.old self.new }
        ensures normalised { NormalisedIs psi self.old.forward.now self.old.back.now result self.new.forward.now self.new.back.now }
    {
        if HALVING <= seen {
            self.halve();
            return psi + 1;
        }
        if psi == 0 {
            return psi;
        }
        if DOUBLING <= seen {
            return psi;
        }
        self.double();
        psi - 1
    }
}
