// The statements of a unit, from the node table, with `try` and static blocks.
#![tactic(auto)]

// What a node is to the code. A SwitchCase is no statement, but has numbers of its own; a CatchClause passes its Block on; a class, or an export that declares one, has its static blocks as parts.
#[derive(Clone, Copy, PartialEq, Eq)]
pub enum Shape {
    Leaf,
    Class,
    If,
    With,
    Block,
    Label,
    Loop,
    Switch,
    Case,
    Try,
    Catch,
}
