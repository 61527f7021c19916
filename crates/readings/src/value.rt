// Mantissas and exponents as floats.
ghost use Rattle.std.specs.Prelude.{◌≡◌};
ghost use Rattle.readings.specs.Readings.{value_of, reading_of};
ghost use Rattle.readings.specs.Calls.{Exponent, power_table};

use super::Reading;
use super::limits::EXPONENTS;

// 2^(e − OUTPUT_UNIT) for each e up to the greatest exponent.
const POWERS: [f64; EXPONENTS] = [
    0.000000000931322574615478515625,
    0.00000000186264514923095703125,
    0.0000000037252902984619140625,
    0.000000007450580596923828125,
    0.00000001490116119384765625,
    0.0000000298023223876953125,
    0.000000059604644775390625,
    0.00000011920928955078125,
    0.0000002384185791015625,
    0.000000476837158203125,
    0.00000095367431640625,
    0.0000019073486328125,
    0.000003814697265625,
    0.00000762939453125,
    0.0000152587890625,
    0.000030517578125,
    0.00006103515625,
    0.0001220703125,
    0.000244140625,
    0.00048828125,
    0.0009765625,
    0.001953125,
    0.00390625,
    0.0078125,
    0.015625,
];

// Those powers as they are lent to a loop: made once for all of its turns.
pub fn powers() -> [f64; EXPONENTS]
    ensures { result ≡ power_table }
{
    POWERS
}

// m·2^(e − OUTPUT_UNIT).
fn value(m: i32, e: u8, powers: &[f64; EXPONENTS]) -> f64
    requires { Exponent e × (powers.now ≡ power_table) }
    ensures { result ≡ value_of m e }
{
    (m as f64) * powers[usize::from(e)]
}

pub fn reading_of(y: i32, xi: u8, z: i32, theta: u8, powers: &[f64; EXPONENTS]) -> Reading
    requires { Exponent xi × Exponent theta × (powers.now ≡ power_table) }
    ensures { result ≡ reading_of y xi z theta }
{
    Reading {
        y: value(y, xi, powers),
        error: value(z, theta, powers),
    }
}
