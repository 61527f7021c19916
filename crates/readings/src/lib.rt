#![tactic(auto)]

// The readings of a block for plots: y and the error of each sample as an f64, and the error power.
ghost use Rattle.readings.specs.Answers.{Read};
ghost use Rattle.readings.specs.Lent.{lists_in};

pub mod check;
pub mod errors;
pub mod fill;
pub mod limits;
pub mod value;

// What a block handed out: the mantissas and the exponents of its outputs and its errors.
#[derive(Clone, Copy)]
pub struct Lists<'a> {
    pub y: &'a [i32],
    pub xi: &'a [u8],
    pub z: &'a [i32],
    pub theta: &'a [u8],
}

// y and the error of a sample.
#[derive(Clone, Copy)]
pub struct Reading {
    pub y: f64,
    pub error: f64,
}

// The error power of a block: a mean, or only a floor because some a was cut.
#[derive(Clone, Copy)]
pub enum Power {
    Mean(f64),
    Floor(f64),
}

// The lists are not those of a block, or some number is outside its limits.
#[derive(Clone, Copy, PartialEq, Eq, Debug)]
pub struct Unreadable;

// The readings of lists that a block handed out, each as y and the error, with the error power; or nothing, and the output as it was.
pub fn readings(lists: Lists, out: &mut [[f64; 2]]) -> Result<Power, Unreadable>
    ensures { Read (lists_in lists.entry) out.old result out.new }
{
    let n = out.len();
    if !check::readable(lists, n) {
        return Err(Unreadable);
    }
    let s = fill::fill(lists, out);
    Ok(errors::power(s, n))
}
