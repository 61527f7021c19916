// Loops over the data of a filter: stored samples, or past symbols.
ghost use Rattle.std.specs.Prelude.{◌≡◌, map, ℤ};
ghost use Rattle.laws.specs.Sums.{Each};
ghost use Rattle.numbers.specs.Cut.{rescale};
ghost use Rattle.steps.specs.Fir.{largest_bits};
ghost use Rattle.steps.specs.Sound.{Storable};

use numbers::bit_length::bit_length;
use numbers::cut::rescale;

// Step 1: the largest bit length of a list. The bits of every magnitude together are as many as the largest has.
pub fn largest_bits(xs: &[i16]) -> u32
    ensures { result ≡ largest_bits xs.now }
{
    let seen = xs.iter().fold(0, |seen, x| seen | x.unsigned_abs());
    bit_length(u64::from(seen))
}

// T(x·2^(i−j)) of a number whose result fits 16 bits.
fn restored(x: i16, i: u32, j: u32) -> i16
    requires { Storable i j x }
    ensures { result ≡ rescale x i j }
{
    rescale(i64::from(x), i, j) as i16
}

// Stored samples at another exponent.
pub fn rescale_all(xs: &mut [i16], i: u32, j: u32)
    requires { Each (Storable i j) xs.old }
    ensures { xs.new ≡ map (λ (a : ℤ). rescale a i j) xs.old }
{
    for x in xs {
        *x = restored(*x, i, j);
    }
}
