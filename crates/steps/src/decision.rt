// Step 4: the decision.
ghost use Rattle.std.specs.Prelude.{◌≡◌, ◌+◌, ◌-◌, ◌^◌, ◌<◌, ◌≤◌, pos, nat_abs, ◌+ℤ◌, ◌*ℤ◌};
ghost use Rattle.steps.specs.Limits.{output_unit, symbol_limit};
ghost use Rattle.steps.specs.Decision.{floor, clip, top_symbol, decide};

use super::limits::OUTPUT_UNIT;
use numbers::cut::ones32;

// The greatest symbol.
fn top_symbol(r: u32) -> i32
    requires { r ≤ symbol_limit }
    ensures { result ≡ top_symbol r }
{
    ones32(r + 1)
}

// The odd number nearest to y·2^(ξ − OUTPUT_UNIT).
fn nearest(y: i32, xi: u32) -> i32
    requires { (1 ≤ xi) × (xi ≤ output_unit + 1) × (nat_abs y < 2 ^ (output_unit - 1)) }
    ensures { result ≡ pos 2 *ℤ floor y (output_unit + 1 - xi) +ℤ pos 1 }
{
    2 * (y >> (OUTPUT_UNIT + 1 - xi)) + 1
}

// Brought to the nearest end, if beyond it.
fn clip(top: i32, d: i32) -> i16
    requires { nat_abs top < 2 ^ 15 }
    ensures { result ≡ clip top d }
{
    let low = -top;
    if top < d {
        top as i16
    } else if d < low {
        low as i16
    } else {
        d as i16
    }
}

pub fn decide(y: i32, xi: u32, r: u32) -> i16
    requires { (1 ≤ xi) × (xi ≤ output_unit + 1) × (r ≤ symbol_limit) × (nat_abs y < 2 ^ (output_unit - 1)) }
    ensures { result ≡ decide r y xi }
{
    clip(top_symbol(r), nearest(y, xi))
}
