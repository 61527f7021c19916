ghost use Rattle.std.specs.Prelude.{◌≡◌, ◌+◌, ◌*◌, ◌-◌, ◌^◌, ◌<◌, ℕ, ℤ, pos, nat_abs};
ghost use Rattle.numbers.specs.Cut.{cut, raise, rescale};

// A register of a signed whole number, of so many bits.
pub trait Register: Copy {
    ghost value: { Self → ℤ };

    ghost bits: { ℕ };

    // T(z / 2^k) for a k that a shift takes.
    fn cut(self, k: u32) -> Self
        requires { k < bits }
        ensures { value result ≡ cut (value self) k };

    // z·2^k.
    fn raise(self, k: u32) -> Self
        requires { (k + 1 < bits) × (nat_abs (value self) * 2 ^ k < 2 ^ (bits - 1)) }
        ensures { value result ≡ raise (value self) k };
}

// A negative number is raised by 2^k − 1, so that a shift, which rounds down, gives T. Two bodies: operators of a type
// parameter would take more laws than they spare lines.
impl Register for i64 {
    ghost value = { λ z. z };

    ghost bits = { 64 };

    fn cut(self, k: u32) -> i64 {
        let low = ((1u64 << k) - 1) as i64;
        let lifted = if self < 0 { self + low } else { self };
        lifted >> k
    }

    fn raise(self, k: u32) -> i64 {
        self * (1 << k)
    }
}

impl Register for i32 {
    ghost value = { λ z. z };

    ghost bits = { 32 };

    fn cut(self, k: u32) -> i32 {
        let low = ((1u32 << k) - 1) as i32;
        let lifted = if self < 0 { self + low } else { self };
        lifted >> k
    }

    fn raise(self, k: u32) -> i32 {
        self * (1 << k)
    }
}

// 2^k − 1 in 32 bits.
pub fn ones32(k: u32) -> i32
    requires { k < 32 }
    ensures { result ≡ pos (2 ^ k - 1) }
{
    ((1u32 << k) - 1).cast_signed()
}

// T(z·2^(i−j)). Every number of 64 bits is below 2^64, so from there on nothing is left.
pub fn rescale(z: i64, i: u32, j: u32) -> i64
    requires { (i < 63) × (nat_abs z * 2 ^ i < 2 ^ 63) }
    ensures { result ≡ rescale z i j }
{
    let raised = z.raise(i);
    if j < 64 { raised.cut(j) } else { 0 }
}
