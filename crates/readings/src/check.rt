// What can be read.
ghost use Rattle.std.specs.Prelude.{◌≡◌, ◌&&◌, length};
ghost use Rattle.laws.specs.Lists.{all};
ghost use Rattle.steps.specs.Fir.{all_below};
ghost use Rattle.readings.specs.Limits.{output_limit, error_limit};
ghost use Rattle.readings.specs.Readings.{exponent_fits, lengths_readable, readable};
ghost use Rattle.readings.specs.Lent.{lists_in};

use super::{Lists, limits};
use steps::limits::BLOCK;

// |Y| and |Z|, in one loop.
fn mantissas_fit(y: &[i32], z: &[i32]) -> bool
    requires { length z.now ≡ length y.now }
    ensures { result ≡ (all_below output_limit y.now && all_below error_limit z.now) }
{
    y.iter().zip(z).fold(true, |fit, (y, z)| {
        fit & (y.unsigned_abs() < limits::OUTPUT) & (z.unsigned_abs() < limits::ERROR)
    })
}

fn exponent_fits(e: u8) -> bool
    ensures { result ≡ exponent_fits e }
{
    (1 <= e) & (e <= limits::EXPONENT)
}

// ξ and θ, in one loop.
fn exponents_fit(xi: &[u8], theta: &[u8]) -> bool
    requires { length theta.now ≡ length xi.now }
    ensures { result ≡ (all exponent_fits xi.now && all exponent_fits theta.now) }
{
    xi.iter().zip(theta).fold(true, |fit, (xi, theta)| {
        fit & exponent_fits(*xi) & exponent_fits(*theta)
    })
}

fn lengths_readable(lists: Lists, n: usize) -> bool
    ensures { result ≡ lengths_readable (lists_in lists.entry) n }
{
    (1 <= n)
        & (n <= BLOCK)
        & (lists.y.len() == n)
        & (lists.xi.len() == n)
        & (lists.z.len() == n)
        & (lists.theta.len() == n)
}

// Whether n readings can be given.
pub fn readable(lists: Lists, n: usize) -> bool
    ensures { result ≡ readable (lists_in lists.entry) n }
{
    lengths_readable(lists, n)
        && mantissas_fit(lists.y, lists.z) & exponents_fit(lists.xi, lists.theta)
}
