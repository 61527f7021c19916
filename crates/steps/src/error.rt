// Step 5: the error.
ghost use Rattle.std.specs.Prelude.{◌≡◌, ◌+◌, ◌*◌, ◌-◌, ◌^◌, ◌<◌, ◌≤◌, nat_abs, ◌-ℤ◌};
ghost use Rattle.numbers.specs.BitLength.{bit_length};
ghost use Rattle.numbers.specs.Cut.{cut, raise};
ghost use Rattle.steps.specs.Limits.{output_unit};
ghost use Rattle.steps.specs.Error.{error, error_exponent};
ghost use Rattle.steps.specs.Sound.{DifferenceBounds, ErrorBounds};

use super::limits::OUTPUT_UNIT;
use numbers::bit_length::signed_bit_length;
use numbers::cut::Register;

#[derive(Clone, Copy)]
pub struct ScaledError {
    pub z: i32,
    pub theta: u32,
}

// The symbol and the output, at one exponent.
fn difference(v: i16, y: i32, up: u32, down: u32) -> i32
    requires { (nat_abs y < 2 ^ (output_unit - 1)) × (up ≤ output_unit) × (down ≤ output_unit) × (nat_abs v * 2 ^ up ≤ 2 ^ (output_unit - 1)) }
    ensures { result ≡ raise v up -ℤ cut y down }
{
    i32::from(v).raise(up) - y.cut(down)
}

// At the larger of both exponents.
fn compared(v: i16, y: i32, xi: u32, kappa: u32) -> ScaledError
    requires { DifferenceBounds v y xi kappa }
    ensures { (result.z ≡ error v y xi kappa) × (result.theta ≡ error_exponent xi kappa) }
{
    let theta = kappa.max(xi);
    ScaledError {
        z: difference(v, y, OUTPUT_UNIT - theta, theta - xi),
        theta,
    }
}

// κ is at most S' + r + 1: from there on ξ is no smaller, whatever v is.
pub fn error(r: u32, sb: u32, v: i16, y: i32, xi: u32) -> ScaledError
    requires { ErrorBounds r sb v y xi }
    ensures { (result.z ≡ error v y xi (sb + bit_length (nat_abs v))) × (result.theta ≡ error_exponent xi (sb + bit_length (nat_abs v))) }
{
    if sb + r + 1 <= xi {
        ScaledError {
            z: difference(v, y, OUTPUT_UNIT - xi, 0),
            theta: xi,
        }
    } else {
        compared(v, y, xi, sb + signed_bit_length(i64::from(v)))
    }
}
