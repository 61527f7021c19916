// The samples of a block: as received, and as stored.
ghost use Rattle.std.specs.Prelude.{◌≡◌, ◌≤◌, length};
ghost use Rattle.numbers.specs.Cut.{rescale};
ghost use Rattle.steps.specs.Limits.{gain_limit};
ghost use Rattle.steps.specs.Fir.{magnitudes};
ghost use Rattle.steps.specs.Sound.{or_all};
ghost use Rattle.block.specs.Block.{received, received_all, stored_all};
ghost use Rattle.block.specs.Sound.{Receivable, ShiftBounds, StoreBounds};

use numbers::cut::Register;
use steps::limits::{DATA_UNIT, GAIN};

// X = m·2^(GAIN − g).
pub fn received(m: i16, g: u8) -> i32
    requires { g ≤ gain_limit }
    ensures { result ≡ received m g }
{
    i32::from(m).raise(GAIN - u32::from(g))
}

// The bits of every |X| of a block together.
pub fn received_bits(m: &[i16], gains: &[u8]) -> u32
    requires { Receivable m.now gains.now }
    ensures { result ≡ or_all (magnitudes (received_all m.now gains.now)) }
{
    let mut seen = 0;
    for (m, g) in m.iter().zip(gains) {
        seen |= received(*m, *g).unsigned_abs();
    }
    seen
}

// T(x·2^(up−down)) in 16 bits.
fn shifted(x: i32, up: u32, down: u32) -> i16
    requires { ShiftBounds up down x }
    ensures { result ≡ rescale x up down }
{
    x.raise(up).cut(down) as i16
}

// The samples of a block as stored.
pub fn store(m: &[i16], gains: &[u8], shift: u32, out: &mut [i16])
    requires { (StoreBounds m.now gains.now shift) × (length out.old ≡ length m.now) }
    ensures { out.new ≡ stored_all shift m.now gains.now }
{
    let up = DATA_UNIT.saturating_sub(shift);
    let down = shift.saturating_sub(DATA_UNIT);
    // No zip over `out`: what is written through one is not known after the loop.
    for (i, x) in out.iter_mut().enumerate() {
        *x = shifted(received(m[i], gains[i]), up, down);
    }
}
