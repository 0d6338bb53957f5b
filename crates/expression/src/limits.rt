// The fixed limits (01, "The sheet": Limits).

// Bytes of an expression.
pub const BYTE_LIMIT: usize = 4096;

pub const ATOM_LIMIT: u64 = 63;

pub const RULE_LIMIT: u64 = 256;

// Bytes of a name (02, Item 1).
pub const NAME_LENGTH: usize = 16;

// Operands on the stack at a time.
pub const DEPTH_LIMIT: u64 = 8;

// The most areas of a workspace: one for each operand, and scratch.
pub const AREAS: usize = DEPTH_LIMIT as usize + 1;

// The most that the limits P and G may be.
pub const TABLE_LIMIT: u64 = 1024;
