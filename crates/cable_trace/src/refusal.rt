// Why a cable is turned down.
ghost use Rattle.std.specs.Prelude.{◌≡◌};
ghost use Rattle.cable_trace.specs.Refusal.{number_of, cause_of};
ghost use Rattle.cable_trace.specs.declared.refusal.CableRefusal.TheVariants.{Settings};

use state::refusal::Refusal;

#[derive(Clone, Copy, PartialEq, Eq, Debug)]
pub enum CableRefusal {
    // A station can't be set up with these settings.
    Settings(Refusal),
    // The response is empty or too long.
    Response,
    // The symbols are not whole blocks of N, or too many.
    Blocks,
    // There are more training entries than symbols.
    Training,
    // The trace would be too long.
    Length,
    // An entry is not a symbol.
    Entry,
    // The output has another length than the trace.
    Output,
    // Some gain would be below L or does not exist.
    Gain,
}

// The number that stands for it in an answer.
impl From<CableRefusal> for u8 {
    fn from(refusal: CableRefusal) -> u8
        ensures { result ≡ number_of refusal }
    {
        match refusal {
            CableRefusal::Settings(refusal) => u8::from(refusal),
            _ => 10,
        }
    }
}

impl CableRefusal {
    // What is wrong beside a 10: 1 to 7, else 0.
    pub fn cause(self) -> u8
        ensures { result ≡ cause_of self }
    {
        match self {
            CableRefusal::Settings(_) => 0,
            CableRefusal::Response => 1,
            CableRefusal::Blocks => 2,
            CableRefusal::Training => 3,
            CableRefusal::Length => 4,
            CableRefusal::Entry => 5,
            CableRefusal::Output => 6,
            CableRefusal::Gain => 7,
        }
    }
}

// So that `?` takes what is wrong with the settings.
impl From<Refusal> for CableRefusal {
    ghost from_gives = { λ refusal result. result ≡ Settings refusal };

    fn from(refusal: Refusal) -> CableRefusal {
        CableRefusal::Settings(refusal)
    }
}
