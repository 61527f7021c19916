// A line of LINE places: no element is ever moved. What a block adds stands before place BLOCK, newest first.
ghost use Rattle.std.specs.Prelude.{◌≡◌, ◌≤◌, length};
ghost use Rattle.steps.specs.Limits.{tap_limit, block_limit};
ghost use Rattle.block.specs.Line.{newest, started, added};

use steps::limits::{BLOCK, LINE};

// The old ones to their places in a line.
pub fn start(old: &[i16], line: &mut [i16; LINE])
    requires { length old.now ≤ tap_limit }
    ensures { line.new ≡ started old.now line.old }
{
    line[BLOCK..BLOCK + old.len()].copy_from_slice(old);
}

// The new ones to their places before the old ones.
pub fn add(new: &[i16], line: &mut [i16; LINE])
    requires { length new.now ≤ block_limit }
    ensures { line.new ≡ added (length new.now) new.now line.old }
{
    // No zip over the line from its end: what is written through one is not known after the loop.
    for (i, x) in new.iter().enumerate() {
        line[BLOCK - 1 - i] = *x;
    }
}

// The newest of a line to which n are added.
pub fn newest(line: &[i16; LINE], n: usize, out: &mut [i16])
    requires { (n ≤ block_limit) × (length out.old ≤ tap_limit) }
    ensures { out.new ≡ newest (length out.old) n line.now }
{
    let first = BLOCK - n;
    out.copy_from_slice(&line[first..first + out.len()]);
}
