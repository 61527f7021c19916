// The units and the limits of the equaliser, and what follows from them.

// A weight W means W·2^(ψ − WEIGHT_UNIT).
pub const WEIGHT_UNIT: u32 = 15;

// A stored sample A means A·2^(γ − DATA_UNIT), a held symbol its mantissa times 2^(ν − DATA_UNIT).
pub const DATA_UNIT: u32 = 15;

// Y means Y·2^(ξ − OUTPUT_UNIT), Z means Z·2^(θ − OUTPUT_UNIT).
pub const OUTPUT_UNIT: u32 = 30;

// μ is M·2^(−STEP_UNIT).
pub const STEP_UNIT: u32 = 30;

// Taps of one filter.
pub const TAPS: usize = 16;

// Samples of a block.
pub const BLOCK: usize = 128;

// r: a symbol is odd and below 2^(r+1) in magnitude.
pub const SYMBOLS: u32 = 3;

// A gain, and L.
pub const GAIN: u32 = 15;

// ψ.
pub const EXPONENT: u32 = 15;

// Weights are halved from here on.
pub const HALVING: u16 = 1 << (WEIGHT_UNIT - 1);

// Weights that are all below this are doubled, where ψ can fall.
pub const DOUBLING: u16 = 1 << (WEIGHT_UNIT - 3);

// X means X·2^(r − RECEIVED_UNIT); Γ is γ + RECEIVED_UNIT.
pub const RECEIVED_UNIT: u32 = DATA_UNIT + GAIN;

// A datum a of the exponent x means a·2^(x − MANTISSA_UNIT).
pub const MANTISSA_UNIT: u32 = DATA_UNIT + RECEIVED_UNIT;

// J·A·2^S is cut by so many bits to a weight's unit.
pub const UPDATE_SHIFT: u32 = OUTPUT_UNIT + DATA_UNIT - WEIGHT_UNIT;

// B and L together: the bits of a received m and the greatest gain.
pub const LENGTH: u32 = DATA_UNIT + 1 + GAIN;

// Slots of the weights, and of the data, in the record.
pub const SLOTS: usize = 2 * TAPS;

// The length of a line: the samples of a block, and what was there before it.
pub const LINE: usize = BLOCK + TAPS;
