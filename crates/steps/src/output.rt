// Step 3: the output.
ghost use Rattle.std.specs.Prelude.{◌≡◌, ◌*◌, ◌-◌, ◌^◌, ◌<◌, ◌≤◌, nat_abs, ◌+ℤ◌};
ghost use Rattle.numbers.specs.Cut.{cut, raise};
ghost use Rattle.steps.specs.Limits.{data_unit, output_unit};
ghost use Rattle.steps.specs.Output.{output, output_exponent};
ghost use Rattle.steps.specs.Sound.{OutputBounds};

use super::limits::{MANTISSA_UNIT, RECEIVED_UNIT};
use numbers::cut::Register;

#[derive(Clone, Copy)]
pub struct ScaledOutput {
    pub y: i32,
    pub xi: u32,
}

// Both sums at one exponent. From 31 bits on a cut leaves nothing.
fn added(f: i32, h: i32, down: u32, up: u32) -> i32
    requires { (nat_abs f < 2 ^ (output_unit - 2)) × (up ≤ data_unit) × (nat_abs h * 2 ^ up < 2 ^ (output_unit - 2)) }
    ensures { result ≡ cut f down +ℤ raise h up }
{
    f.cut(down.min(31)) + h.raise(up)
}

// From the sum h of weights times symbols, so H = h·2^(DATA_UNIT − ν). As γ ≤ 9, T(H·2^(ν−γ)) = h·2^(DATA_UNIT − γ):
// nothing is cut off.
pub fn output(f: i32, h: i32, gamma30: u32, nu: u32, psi: u32) -> ScaledOutput
    requires { OutputBounds f h gamma30 nu psi }
    ensures { (result.y ≡ output f (raise h (data_unit - nu)) gamma30 nu) × (result.xi ≡ output_exponent psi gamma30 nu) }
{
    let over = gamma30.max(nu + RECEIVED_UNIT);
    ScaledOutput {
        y: added(f, h, over - gamma30, MANTISSA_UNIT - over),
        xi: psi + over - RECEIVED_UNIT,
    }
}
