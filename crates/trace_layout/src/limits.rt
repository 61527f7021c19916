// The lengths of a trace, in bytes.

// What stands before the samples.
pub const TRACE_HEADER: usize = 12;

// The longest trace.
pub const TRACE: usize = 65536;
