ghost use Rattle.std.specs.Prelude.{◌≡◌, ◌^◌, ◌<◌};
ghost use Rattle.numbers.specs.ScaleCount.{scale_count};

// S(k): 0 for none, else the bit length of 2k − 1.
pub fn scale_count(k: usize) -> u32
    requires { k < 2 ^ 63 }
    ensures { result ≡ scale_count k }
{
    if k == 0 {
        return 0;
    }
    super::bit_length::bit_length((2 * k - 1) as u64)
}
