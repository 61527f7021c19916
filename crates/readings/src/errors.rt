// The error power.
ghost use Rattle.std.specs.Prelude.{◌≡◌, ◌&&◌, ◌+◌, ◌*◌, ◌^◌, ◌≤◌, ◌<◌};
ghost use Rattle.steps.specs.Limits.{block_limit, output_exponent_limit};
ghost use Rattle.readings.specs.Readings.{amplitude, counted, is_uncut, quotient};
ghost use Rattle.readings.specs.Calls.{sum_limit, power_from};

use super::{Power, limits};

// a = floor(256·|error|).
fn amplitude(z: i32, theta: u8) -> u64
    requires { theta ≤ output_exponent_limit }
    ensures { result ≡ amplitude z theta }
{
    (u64::from(z.unsigned_abs()) << theta) >> limits::AMPLITUDE_SHIFT
}

fn counted(a: u64) -> u64
    ensures { result ≡ counted a }
{
    a.min(limits::AMPLITUDE)
}

// A sum of a², and whether none of them was cut: a sum that is a floor is still added to.
#[derive(Clone, Copy)]
pub struct Sum {
    pub sum: u64,
    pub uncut: bool,
}

// One error more.
pub fn with_error(s: Sum, z: i32, theta: u8) -> Sum
    requires { (s.sum ≤ sum_limit) × (theta ≤ output_exponent_limit) }
    ensures { result ≡ record { sum = s.sum + counted (amplitude z theta) * counted (amplitude z theta); uncut = s.uncut && is_uncut (amplitude z theta) } }
{
    let a = amplitude(z, theta);
    let c = counted(a);
    Sum {
        sum: s.sum + c * c,
        uncut: s.uncut & (a <= limits::AMPLITUDE),
    }
}

// A sum over 65536·n.
fn quotient(sum: u64, n: usize) -> f64
    requires { (sum < 2 ^ 53) × (1 ≤ n) × (n ≤ block_limit) }
    ensures { result ≡ quotient sum n }
{
    (sum as f64) / ((65536 * n) as f64)
}

// A mean, or only a floor.
pub fn power(s: Sum, n: usize) -> Power
    requires { (s.sum < 2 ^ 53) × (1 ≤ n) × (n ≤ block_limit) }
    ensures { result ≡ power_from s n }
{
    let q = quotient(s.sum, n);
    if s.uncut {
        Power::Mean(q)
    } else {
        Power::Floor(q)
    }
}
