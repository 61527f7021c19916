// The lengths of a description, in bytes.

// What stands before the response.
pub const DESCRIPTION_HEADER: usize = 20;

// The longest description.
pub const DESCRIPTION: usize = 65536;

// No description has as many values of a response.
pub const RESPONSE: usize = DESCRIPTION / 2;
