// "Ends: 0 fell through, 1 returned, 2 thrown, 3 answers spent", of a walk and of a run alike; 4 where a run is stopped, and 5 where a break or a continue
// has no target, which no unit that passes 9 comes to, or at what the code of a unit never comes to.
// They stay numbers: an END of a lent code says its own, and the number goes out through C.
pub const FELL_THROUGH: u32 = 0;

pub const RETURNED: u32 = 1;

pub const THROWN: u32 = 2;

pub const SPENT: u32 = 3;

pub const STOPPED: u32 = 4;

pub const ASTRAY: u32 = 5;
