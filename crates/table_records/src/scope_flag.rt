// A scope's flags, which are added up: bits of one number of the lent table.
// strict
pub const STRICT: u32 = 1;
// top
pub const TOP: u32 = 2;
// function
pub const FUNCTION_SCOPE: u32 = 4;
// arrow
pub const ARROW_SCOPE: u32 = 8;
// static block
pub const STATIC_BLOCK_SCOPE: u32 = 16;
