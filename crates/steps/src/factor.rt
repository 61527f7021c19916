ghost use Rattle.std.specs.Prelude.{◌≡◌, ◌^◌, ◌<◌, pos, nat_abs, ◌*ℤ◌};
ghost use Rattle.numbers.specs.Cut.{cut};
ghost use Rattle.steps.specs.Limits.{output_unit};

use numbers::cut::Register;

// Step 6: J, by which data are multiplied.
pub fn factor(m: u32, z: i32, shift: u32) -> i64
    requires { (nat_abs z < 2 ^ output_unit) × (shift < 64) }
    ensures { result ≡ cut (pos m *ℤ z) shift }
{
    (i64::from(m) * i64::from(z)).cut(shift)
}
