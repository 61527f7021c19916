// The readings and the errors of all samples, in one loop.
ghost use Rattle.std.specs.Prelude.{◌≡◌, length};
ghost use Rattle.readings.specs.Readings.{readings_of};
ghost use Rattle.readings.specs.Calls.{Fillable, sum_of};
ghost use Rattle.readings.specs.Lent.{lists_in};

use super::Lists;
use super::errors::{Sum, with_error};
use super::value::{powers, reading_of};

// Each reading as y and the error; the sum of a², and whether no a was cut.
pub fn fill(lists: Lists, out: &mut [[f64; 2]]) -> Sum
    requires { Fillable (lists_in lists) (length out.old) }
    ensures { (out.new ≡ readings_of (lists_in lists.entry)) × (result ≡ sum_of lists.entry.z.now lists.entry.theta.now) }
{
    let Lists { y, xi, z, theta } = lists;
    let table = powers();
    let mut s = Sum {
        sum: 0,
        uncut: true,
    };
    // By place: four lists are read in step, which nested zips would hide.
    for (i, place) in out.iter_mut().enumerate() {
        let r = reading_of(y[i], xi[i], z[i], theta[i], &table);
        *place = [r.y, r.error];
        s = with_error(s, z[i], theta[i]);
    }
    s
}
