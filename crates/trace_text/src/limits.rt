// The length of the text of a trace, in bytes.
use trace_layout::limits::TRACE;

// The longest line.
const LINE: usize = 24;

// The longest text: a sample takes 4 bytes of the trace.
pub const TEXT: usize = LINE * (TRACE / 4);
