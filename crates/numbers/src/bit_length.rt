ghost use Rattle.std.specs.Prelude.{◌≡◌, nat_abs};
ghost use Rattle.numbers.specs.BitLength.{bit_length};

// The bit length of a whole number without a sign.
pub fn bit_length(n: u64) -> u32
    ensures { result ≡ bit_length n }
{
    u64::BITS - n.leading_zeros()
}

// That of |z|, also of −2^63.
pub fn signed_bit_length(z: i64) -> u32
    ensures { result ≡ bit_length (nat_abs z) }
{
    bit_length(z.unsigned_abs())
}
