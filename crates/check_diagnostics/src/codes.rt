// The codes of findings, numbered as document 01 does, under the names of diagnostics.rs. Numbers and no enum: a finding is seven numbers in a slice that a
// C caller lends, and nothing here asks for a finding's code again. The theorems do, by number and by range (`with_code`, `within f.code 1 33`), and an enum
// would put a `number` into each of those tests.
// redeclaration
pub const REDECLARATION: u32 = 1;
// reserved word
pub const RESERVED_KEYWORD: u32 = 2;
// await in static block
pub const CLASS_STATIC_BLOCK_AWAIT: u32 = 3;
// eval or arguments assigned
pub const UNEXPECTED_IDENTIFIER_ASSIGN: u32 = 4;
// let in lexical declaration
pub const INVALID_LET_DECLARATION: u32 = 5;
// arguments in field or static block
pub const UNEXPECTED_ARGUMENTS: u32 = 6;
// private name outside class
pub const PRIVATE_NOT_IN_CLASS: u32 = 7;
// private name undeclared
pub const PRIVATE_FIELD_UNDECLARED: u32 = 8;
// legacy octal
pub const LEGACY_OCTAL: u32 = 9;
// leading-zero decimal
pub const LEADING_ZERO_DECIMAL: u32 = 10;
// `\8` or `\9`
pub const NON_OCTAL_DECIMAL_ESCAPE_SEQUENCE: u32 = 11;
// "use strict" with non-simple parameters
pub const ILLEGAL_USE_STRICT: u32 = 12;
// using in script
pub const USING_DECLARATION_NOT_ALLOWED_IN_SCRIPT: u32 = 13;
// await using in static block
pub const CLASS_STATIC_BLOCK_AWAIT_USING: u32 = 14;
// strict function declaration
pub const FUNCTION_DECLARATION_STRICT: u32 = 15;
// sloppy one
pub const FUNCTION_DECLARATION_NON_STRICT: u32 = 16;
// with
pub const WITH_STATEMENT: u32 = 17;
// break
pub const INVALID_BREAK: u32 = 18;
// undefined label
pub const INVALID_LABEL_TARGET: u32 = 19;
// jump over a function
pub const INVALID_LABEL_JUMP_TARGET: u32 = 20;
// continue
pub const INVALID_CONTINUE: u32 = 21;
// label of no loop
pub const INVALID_LABEL_NON_ITERATION: u32 = 22;
// label twice
pub const LABEL_REDECLARATION: u32 = 23;
// for-head initialiser
pub const UNEXPECTED_INITIALIZER_IN_FOR_LOOP_HEAD: u32 = 24;
// for await in static block
pub const CLASS_STATIC_BLOCK_FOR_AWAIT: u32 = 25;
// class name
pub const REQUIRE_CLASS_NAME: u32 = 26;
// second constructor
pub const DUPLICATE_CONSTRUCTOR: u32 = 27;
// super without heritage
pub const SUPER_WITHOUT_DERIVED_CLASS: u32 = 28;
// super call
pub const UNEXPECTED_SUPER_CALL: u32 = 29;
// super reference
pub const UNEXPECTED_SUPER_REFERENCE: u32 = 30;
// delete of name
pub const DELETE_OF_UNQUALIFIED: u32 = 31;
// delete of private
pub const DELETE_PRIVATE_FIELD: u32 = 32;
// await or yield in parameters
pub const AWAIT_OR_YIELD_IN_PARAMETER: u32 = 33;
