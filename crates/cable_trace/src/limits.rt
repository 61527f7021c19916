// The limits of a cable, and the lengths that follow from those of a trace.
use steps::limits::DATA_UNIT;
use trace_layout::limits;

// Values of a response.
pub const RESPONSE: usize = 32;

// A response twice.
pub const TAPS: usize = 2 * RESPONSE;

// Blocks of a trace.
pub const COUNT: usize = 65535;

// Symbols: a sample and its training entry take 4 bytes of the trace.
pub const SENT: usize = (limits::TRACE - limits::TRACE_HEADER) / 4;

// Places of a line: those of the symbols, and what was there before the first.
pub const LINE: usize = SENT + RESPONSE;

// A float of 32 bits: one more than the greatest number of its digits after the first, and of its exponent, which is OFFSET
// more than a bit length.
pub const DIGITS: u32 = 8388608;

pub const EXPONENTS: u32 = 256;

pub const OFFSET: u32 = 126;

// What the first of DATA_UNIT digits counts, and what the last of them counts among the 24 digits of a float.
pub const FIRST: u32 = 1 << (DATA_UNIT - 1);

pub const LAST: u32 = 1 << (24 - DATA_UNIT);

// What the gain counts in the word of a sample.
pub const GAIN_UNIT: u32 = 65536;
