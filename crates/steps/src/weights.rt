// Loops over the weights of a filter.
ghost use Rattle.std.specs.Prelude.{◌≡◌, ◌+◌, ◌*◌, ◌-◌, ◌/◌, ◌^◌, ◌<◌, ◌≤◌, pos, nat_abs, ℤ, length};
ghost use Rattle.laws.specs.Sums.{dot, Each};
ghost use Rattle.numbers.specs.Cut.{cut, raise};
ghost use Rattle.steps.specs.Limits.{data_unit, output_unit, update_shift};
ghost use Rattle.steps.specs.Fir.{Small, adapted, adapt, all_below, all_small, halved, doubled, magnitudes};
ghost use Rattle.steps.specs.Sound.{or_all, Summable, Adaptable, MayMake, Makes};

use super::limits::{DATA_UNIT, HALVING, UPDATE_SHIFT};
use numbers::cut::Register;
use numbers::product::mac;

// Up to so many taps are few.
const FEW: usize = 4;

// The sum of weights times data.
fn total(w: &[i16], a: &[i16]) -> i32
    requires { Summable w.now a.now }
    ensures { result ≡ dot w.now a.now }
{
    let mut total = 0;
    for (w, a) in w.iter().zip(a) {
        total = mac(total, *w, *a);
    }
    total
}

// The same for few taps, which a compiler then knows to be a short loop.
fn total_few(w: &[i16], a: &[i16]) -> i32
    requires { Summable w.now a.now }
    ensures { result ≡ dot w.now a.now }
{
    total(w, a)
}

// Step 2: the sum of weights times data.
pub fn sum(w: &[i16], a: &[i16]) -> i32
    requires { Summable w.now a.now }
    ensures { result ≡ dot w.now a.now }
{
    if w.len() <= FEW {
        total_few(w, a)
    } else {
        total(w, a)
    }
}

// Step 6: what a weight gains, without its sign, from |J| and from |a|.
fn increment(factor: u32, size: u16, t: u32) -> i16
    requires { (t ≤ data_unit) × (factor * size < 2 ^ (output_unit - 1 + t)) }
    ensures { result ≡ pos (factor * size / 2 ^ (update_shift - data_unit + t)) }
{
    ((u64::from(factor) * u64::from(size)) >> (UPDATE_SHIFT - DATA_UNIT + t)) as i16
}

// Step 6: one weight and what it gains, by magnitudes.
fn adapted_by_size(j: i32, factor: u32, t: u32, w: i16, a: i16) -> i16
    requires { (t ≤ data_unit) × (factor ≡ nat_abs j) × (Small w) × (nat_abs j * nat_abs a < 2 ^ (output_unit - 1 + t)) }
    ensures { result ≡ adapted (raise j (data_unit - t)) w a }
{
    let more = increment(factor, a.unsigned_abs(), t);
    if (a < 0) != (j < 0) {
        w - more
    } else {
        w + more
    }
}

// Step 6: one weight and what it gains, where k is J·2^(DATA_UNIT − t).
fn adapted(k: i64, w: i16, a: i16) -> i16
    requires { (Small w) × (nat_abs k * nat_abs a < 2 ^ (output_unit - 1 + data_unit)) }
    ensures { result ≡ adapted k w a }
{
    (i64::from(w) + (k * i64::from(a)).cut(UPDATE_SHIFT)) as i16
}

// The new weights, each made of a weight and its datum, and the bits of their magnitudes together.
fn adapt_each<F: Fn(i16, i16) -> i16>(w: &mut [i16], a: &[i16], new: F) -> u16
    requires { (length w.old ≤ length a.now) × MayMake (F.pre new) w.old a.now }
    ensures { (k : ℤ) → Makes (F.post new) k w.old a.now → (w.new ≡ adapt k w.old a.now) × (result ≡ or_all (magnitudes w.new)) }
{
    let mut seen = 0;
    // By index: what is written through a zip of iter_mut is not known after it.
    for (i, w) in w.iter_mut().enumerate() {
        *w = new(*w, a[i]);
        seen |= w.unsigned_abs();
    }
    seen
}

// Step 6: the new weights of a filter, whose data are raised by DATA_UNIT − t bits, and the bits of their magnitudes
// together: by a signed product where taps are few, and where they are many by magnitudes, of which a compiler takes
// several at a time.
pub fn adapt(w: &mut [i16], a: &[i16], j: i32, t: u32) -> u16
    requires { Adaptable j t w.old a.now }
    ensures { (w.new ≡ adapt (raise j (data_unit - t)) w.old a.now) × (result ≡ or_all (magnitudes w.new)) }
{
    if w.len() <= FEW {
        let k = i64::from(j).raise(DATA_UNIT - t);
        adapt_each(w, a, |w, a| adapted(k, w, a))
    } else {
        let factor = j.unsigned_abs();
        adapt_each(w, a, |w, a| adapted_by_size(j, factor, t, w, a))
    }
}

// The bits of every magnitude together.
fn bits(w: &[i16]) -> u16
    ensures { result ≡ or_all (magnitudes w.now) }
{
    w.iter().fold(0, |seen, x| seen | x.unsigned_abs())
}

// Step 7: whether no weight has reached the halving limit.
pub fn all_small(w: &[i16]) -> bool
    ensures { result ≡ all_small w.now }
{
    bits(w) < HALVING
}

// Whether every weight is 0.
pub fn all_zero(w: &[i16]) -> bool
    ensures { result ≡ all_below 1 w.now }
{
    bits(w) < 1
}

fn half(w: i16) -> i16
    ensures { result ≡ cut w 1 }
{
    i32::from(w).cut(1) as i16
}

fn twice(w: i16) -> i16
    requires { Small w }
    ensures { result ≡ raise w 1 }
{
    i32::from(w).raise(1) as i16
}

// Step 7: half of each weight.
pub fn halve(w: &mut [i16])
    ensures { w.new ≡ halved w.old }
{
    for x in w {
        *x = half(*x);
    }
}

// After step 7: twice each weight. As halving but for what is done to each, which alone tells them apart.
pub fn double(w: &mut [i16])
    requires { Each Small w.old }
    ensures { w.new ≡ doubled w.old }
{
    for x in w {
        *x = twice(*x);
    }
}
