// The roles of a node under its parent: numbers of the lent table, as the kinds are, and asked for by ranges.
// other
pub const OTHER: u32 = 0;
// value or argument
pub const VALUE: u32 = 1;
// key
pub const KEY: u32 = 2;
// held statement or body
pub const HELD: u32 = 3;
// alternate or catch
pub const ALTERNATE: u32 = 4;
// finally
pub const FINALLY: u32 = 5;
// label
pub const LABEL: u32 = 6;
// left of a for
pub const LEFT: u32 = 7;
