// A node's flags, which are added up: bits of one number of the lent table.
// static
pub const STATIC: u32 = 2;
// private key
pub const PRIVATE_KEY: u32 = 4;
// written to
pub const WRITTEN: u32 = 8;
// `for await`
pub const FOR_AWAIT: u32 = 16;
// declaration
pub const DECLARATION: u32 = 32;
// has heritage
pub const HERITAGE: u32 = 64;
// method
pub const METHOD: u32 = 128;
// has initialiser
pub const INITIALISER: u32 = 256;
// of a For: has a test
pub const TEST: u32 = 256;
// id is a plain name
pub const PLAIN_NAME: u32 = 512;
// simple parameters
pub const SIMPLE_PARAMETERS: u32 = 1024;
// `delete`
pub const DELETE: u32 = 2048;
// `default`
pub const DEFAULT: u32 = 4096;
