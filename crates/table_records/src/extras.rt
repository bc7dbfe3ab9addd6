// A node's extra number, by its kind: one column of the lent table, which means something else for each kind, and for two kinds is any number.
// of a VariableDeclaration
pub const VAR: u32 = 0;

pub const LET: u32 = 1;

pub const CONST: u32 = 2;

pub const USING: u32 = 3;

pub const AWAIT_USING: u32 = 4;
// of a MethodDefinition
pub const CONSTRUCTOR: u32 = 0;

pub const PLAIN_METHOD: u32 = 1;

pub const GET: u32 = 2;

pub const SET: u32 = 3;
// of a NumericLiteral
pub const DECIMAL: u32 = 0;

pub const FLOAT: u32 = 1;

pub const BINARY: u32 = 2;

pub const OCTAL: u32 = 3;

pub const HEXADECIMAL: u32 = 4;
// of an ObjectProperty
pub const INIT: u32 = 0;

pub const PROPERTY_GET: u32 = 1;

pub const PROPERTY_SET: u32 = 2;
// of anything else
pub const PARENTHESIS: u32 = 1;
