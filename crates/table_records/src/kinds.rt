// The kinds of node, numbered as document 01 does. Numbers and no enum: a kind is read off a table that a C caller lends, refusal 2 judges any number there,
// and the checks ask for ranges of kinds.
pub const PROGRAM: u32 = 0;

pub const FUNCTION: u32 = 1;

pub const ARROW: u32 = 2;

pub const STATIC_BLOCK: u32 = 3;

pub const FUNCTION_BODY: u32 = 4;

pub const BLOCK: u32 = 5;

pub const LABELED: u32 = 6;

pub const FOR: u32 = 7;

pub const FOR_IN: u32 = 8;

pub const FOR_OF: u32 = 9;

pub const WHILE: u32 = 10;

pub const DO_WHILE: u32 = 11;

pub const IF: u32 = 12;

pub const WITH: u32 = 13;

pub const SWITCH: u32 = 14;

pub const SWITCH_CASE: u32 = 15;

pub const TRY: u32 = 16;

pub const CATCH_CLAUSE: u32 = 17;

pub const BREAK: u32 = 18;

pub const CONTINUE: u32 = 19;

pub const RETURN: u32 = 20;

pub const THROW: u32 = 21;

pub const OTHER_STATEMENT: u32 = 22;

pub const DIRECTIVE: u32 = 23;

pub const VARIABLE_DECLARATION: u32 = 24;

pub const VARIABLE_DECLARATOR: u32 = 25;

pub const CLASS: u32 = 26;

pub const CLASS_BODY: u32 = 27;

pub const METHOD_DEFINITION: u32 = 28;

pub const PROPERTY_DEFINITION: u32 = 29;

pub const ACCESSOR_PROPERTY: u32 = 30;

pub const BINDING_IDENTIFIER: u32 = 31;

pub const IDENTIFIER_REFERENCE: u32 = 32;

pub const LABEL_IDENTIFIER: u32 = 33;

pub const PRIVATE_IDENTIFIER: u32 = 34;

pub const NUMERIC_LITERAL: u32 = 35;

pub const STRING_LITERAL: u32 = 36;

pub const SUPER: u32 = 37;

pub const CALL: u32 = 38;

pub const NEW: u32 = 39;

pub const OTHER_MEMBER: u32 = 40;

pub const PRIVATE_FIELD: u32 = 41;

pub const PRIVATE_IN: u32 = 42;

pub const OBJECT: u32 = 43;

pub const OBJECT_PROPERTY: u32 = 44;

pub const UNARY: u32 = 45;

pub const CHAIN: u32 = 46;

pub const AWAIT: u32 = 47;

pub const YIELD: u32 = 48;

pub const FORMAL_PARAMETER: u32 = 49;

pub const FORMAL_PARAMETER_REST: u32 = 50;

pub const BINDING_REST_ELEMENT: u32 = 51;

pub const JSX_ATTRIBUTE: u32 = 52;

pub const EXPORT_DEFAULT: u32 = 53;

pub const EXPORT_NAMED: u32 = 54;

pub const ANYTHING_ELSE: u32 = 55;
