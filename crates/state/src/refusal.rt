// Why something is turned down.
ghost use Rattle.std.specs.Prelude.{◌≡◌};
ghost use Rattle.state.specs.Refusal.{number_of};

#[derive(Clone, Copy, PartialEq, Eq, Debug)]
pub enum Refusal {
    // A size is outside its limits.
    Size,
    // M is not admitted.
    Step,
    // A lent list isn't N long.
    Length,
    // A gain is below L or above the greatest.
    Gain,
    // A training entry is neither 0 nor a symbol.
    Entry,
    // ψ would pass its limit.
    Exponent,
    // The buffer is shorter than the image.
    Buffer,
    // The bytes have no image's length.
    Bytes,
    // The state isn't sound.
    State,
}

// The number that stands for it in an answer.
impl From<Refusal> for u8 {
    fn from(refusal: Refusal) -> u8
        ensures { result ≡ number_of refusal }
    {
        match refusal {
            Refusal::Size => 1,
            Refusal::Step => 2,
            Refusal::Length => 3,
            Refusal::Gain => 4,
            Refusal::Entry => 5,
            Refusal::Exponent => 6,
            Refusal::Buffer => 7,
            Refusal::Bytes => 8,
            Refusal::State => 9,
        }
    }
}
