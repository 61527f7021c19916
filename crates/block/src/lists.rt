// The lists of a block.
ghost use Rattle.std.specs.Prelude.{◌≡◌};
ghost use Rattle.block.specs.Calls.{handed_in};
ghost use Rattle.block.specs.Lists.{outputs_in};

use filter::weights::Weights;

// What a block is given: m, the gains and the training entries.
#[derive(Clone, Copy)]
pub struct Block<'a> {
    pub m: &'a [i16],
    pub gains: &'a [u8],
    pub entries: &'a [i8],
}

// A lent list for each output.
#[derive(Drop)]
pub struct Outputs<'a> {
    pub y: &'a mut [i32],
    pub xi: &'a mut [u8],
    pub decision: &'a mut [i8],
    pub z: &'a mut [i32],
    pub theta: &'a mut [u8],
}

// The lists for the outputs where they are only read.
#[derive(Clone, Copy)]
pub struct Handed<'a> {
    pub y: &'a [i32],
    pub xi: &'a [u8],
    pub decision: &'a [i8],
    pub z: &'a [i32],
    pub theta: &'a [u8],
}

impl Outputs<'_> {
    // The same lists, to be read.
    pub fn read(&self) -> Handed<'_>
        ensures { handed_in result ≡ outputs_in self.now }
    {
        Handed {
            y: self.y,
            xi: self.xi,
            decision: self.decision,
            z: self.z,
            theta: self.theta,
        }
    }
}

// What the block before left, and this one leaves: the samples end in a place for the next.
#[derive(Drop)]
pub struct Memory<'a> {
    pub weights: Weights<'a>,
    pub samples: &'a mut [i16],
    pub symbols: &'a mut [i16],
    pub psi: u32,
    pub b: u32,
    pub bmax: u32,
}
