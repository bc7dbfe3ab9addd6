// The contexts of findings: numbers of the lent slice, as the codes are.
// no context
pub const NONE: u32 = 0;
// strict
pub const STRICT_MODE: u32 = 1;
// class
pub const CLASS: u32 = 2;
// module
pub const MODULE: u32 = 3;
// module await
pub const MODULE_AWAIT: u32 = 4;
