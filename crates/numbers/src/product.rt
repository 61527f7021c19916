ghost use Rattle.std.specs.Prelude.{◌≡◌, ◌^◌, ◌<◌, nat_abs, ◌+ℤ◌, ◌*ℤ◌};

// One product more, of two numbers of 16 bits.
pub fn mac(sum: i32, w: i16, a: i16) -> i32
    requires { nat_abs (sum +ℤ w *ℤ a) < 2 ^ 31 }
    ensures { result ≡ sum +ℤ w *ℤ a }
{
    sum + i32::from(w) * i32::from(a)
}
