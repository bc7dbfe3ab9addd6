// The instructions by number, as code_flat's Opcodes.antt has them.
// They stay numbers: code is a lent slice of numbers.
pub const LIST: u32 = 1;

pub const LEAVE: u32 = 2;

pub const ASK: u32 = 3;

pub const SELECT: u32 = 4;

pub const OPEN: u32 = 5;

pub const END: u32 = 6;

pub const CASE: u32 = 7;
