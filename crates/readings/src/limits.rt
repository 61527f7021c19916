// The limits of what can be read.
use steps::limits::OUTPUT_UNIT;

// Y and Z are below these in magnitude.
pub const OUTPUT: u32 = 1 << (OUTPUT_UNIT - 1);

pub const ERROR: u32 = 1 << OUTPUT_UNIT;

// ξ and θ.
pub const EXPONENT: u8 = 24;

// How many exponents there are, with 0; a constant can't call usize::from.
pub const EXPONENTS: usize = EXPONENT as usize + 1;

// a.
pub const AMPLITUDE: u64 = 65535;

// 256·|error| is |Z|·2^θ / 2^AMPLITUDE_SHIFT.
pub const AMPLITUDE_SHIFT: u32 = OUTPUT_UNIT - 8;
