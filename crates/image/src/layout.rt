// The layouts of images.
ghost use Rattle.std.specs.Prelude.{◌≡◌};
ghost use Rattle.image.specs.Calls.{Placeable};
ghost use Rattle.image.specs.Layout.{current, data_place, end_place, layout_of};

use state::equaliser::Equaliser;

// What stands before the weights, and a weight, in bytes.
#[derive(Clone, Copy)]
pub struct Layout {
    pub header: usize,
    pub weight: usize,
}

// The shortest header there has been.
pub const LEAST_HEADER: usize = 12;

// What is saved.
pub fn current() -> Layout
    ensures { result ≡ current }
{
    Layout {
        header: Equaliser::HEADER,
        weight: Equaliser::WEIGHT,
    }
}

// Where the data begin, and where an image ends.
pub fn data_place(y: Layout, taps: usize) -> usize
    requires { Placeable y taps }
    ensures { result ≡ data_place y taps }
{
    y.header + y.weight * taps
}

pub fn end_place(y: Layout, taps: usize) -> usize
    requires { Placeable y taps }
    ensures { result ≡ end_place y taps }
{
    data_place(y, taps) + Equaliser::DATUM * taps
}

// The layout of bytes, by their length: there has been one so far.
#[tactic(auto, using(crate::proofs::LayoutLaws::only_current))]
pub fn layout_of(bytes: &[u8]) -> Layout
    ensures { result ≡ layout_of bytes.now }
{
    current()
}
