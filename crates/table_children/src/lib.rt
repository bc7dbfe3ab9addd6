// The children of a node, by scanning the nodes below it and not the table.
#![tactic(auto)]

ghost use Rattle.std.specs.Prelude.{◌≡◌, ◌+◌, ◌<◌, ◌≤◌};
ghost use Rattle.table_records.specs.Table.{count};
ghost use Rattle.table_children.specs.Children.{is_child, next_child, first_child, how_many, label_of, key_of, value_of, held_of, alternate_of, function_body_of, class_body_of, inner_of, below};

use table_records::nodes::Nodes;
use table_records::{NodeId, kinds, roles};

// A part of a node: its children with a kind from `low` to `high` and a role from `first` to `last`.
#[derive(Clone, Copy)]
pub struct Part {
    pub low: u32,
    pub high: u32,
    pub first: u32,
    pub last: u32,
}

impl Part {
    // Any child.
    pub const ANY: Part = Part {
        low: kinds::PROGRAM,
        high: kinds::ANYTHING_ELSE,
        first: roles::OTHER,
        last: roles::LEFT,
    };

    // The children of this kind. It and `of_role` are one expression each, over bounds of their own.
    pub fn of_kind(kind: u32) -> Part
        ensures { result ≡ record { low = kind; high = kind; first = 0; last = 7 } }
    {
        Part {
            low: kind,
            high: kind,
            ..Part::ANY
        }
    }

    // The children in this role.
    pub fn of_role(role: u32) -> Part
        ensures { result ≡ record { low = 0; high = 55; first = role; last = role } }
    {
        Part {
            first: role,
            last: role,
            ..Part::ANY
        }
    }

    // The children of this kind in this role.
    pub fn of(kind: u32, role: u32) -> Part
        ensures { result ≡ record { low = kind; high = kind; first = role; last = role } }
    {
        Part {
            low: kind,
            high: kind,
            first: role,
            last: role,
        }
    }
}

// Whether node i is a child of p that is fit for this part.
#[tactic(auto, unfolding(crate::specs::Children::is_child))]
pub fn is_child(nodes: &[u32], p: NodeId, part: Part, i: NodeId) -> bool
    requires { i.0 < count nodes.now }
    ensures { result ≡ is_child nodes.now p.0 part.low part.high part.first part.last i.0 }
{
    table_records::parent(nodes, i) == p
        && (part.low..=part.high).contains(&table_records::kind(nodes, i))
        && (part.first..=part.last).contains(&table_records::role(nodes, i))
}

// The first such child of p from `from` on: reads the nodes below p, and one more.
#[tactic(auto, using(crate::proofs::ChildrenLaws::child_out, crate::proofs::ChildrenLaws::node_past, crate::proofs::ChildrenLaws::node_stop, crate::proofs::ChildrenLaws::node_on, crate::proofs::ChildrenLaws::node_end))]
pub fn next_child(nodes: &Nodes, p: NodeId, part: Part, from: u32) -> Option<NodeId>
    requires p_lt_from { p.0 < from }
    requires from_bound { from ≤ count nodes.now }
    ensures value { result ≡ next_child nodes.now p.0 part.low part.high part.first part.last from }
    ensures below { below nodes.now result }
{
    let numbers = nodes.numbers; // names the field, so that its invariant is known
    for i in from.. {
        if !table_records::is_node(numbers, i) {
            break;
        }
        if table_records::parent(numbers, NodeId(i)).0 < p.0 {
            break;
        }
        if is_child(numbers, p, part, NodeId(i)) {
            return Some(NodeId(i));
        }
    }
    None
}

// The first such child of p.
pub fn first_child(nodes: &Nodes, p: NodeId, part: Part) -> Option<NodeId>
    requires p_bound { p.0 < count nodes.now }
    ensures value { result ≡ first_child nodes.now p.0 part.low part.high part.first part.last }
    ensures below { below nodes.now result }
{
    let _ = &nodes.numbers; // names the field, so that its invariant is known
    next_child(nodes, p, part, p.0 + 1)
}

// How many children of p are fit for this part: reads the nodes below p, and one more.
#[tactic(auto, using(crate::proofs::ChildrenLaws::one_more, crate::proofs::ChildrenLaws::tally_all, crate::proofs::ChildrenLaws::tally_turn, crate::proofs::ChildrenLaws::tally_end, crate::proofs::ChildrenLaws::tally_out))]
pub fn how_many(nodes: &Nodes, p: NodeId, part: Part) -> u32
    requires p_bound { p.0 < count nodes.now }
    ensures { result ≡ how_many nodes.now p.0 part.low part.high part.first part.last }
{
    let numbers = nodes.numbers; // names the field, so that its invariant is known
    let mut c = 0;
    for i in p.0 + 1..table_records::size(numbers) {
        if table_records::parent(numbers, NodeId(i)).0 < p.0 {
            return c;
        }
        c += u32::from(is_child(numbers, p, part, NodeId(i)));
    }
    c
}

// The label of a Labeled, a Break or a Continue.
pub fn label_of(nodes: &Nodes, n: NodeId) -> Option<NodeId>
    requires n_bound { n.0 < count nodes.now }
    ensures value { result ≡ label_of nodes.now n.0 }
    ensures below { below nodes.now result }
{
    first_child(nodes, n, Part::of(kinds::LABEL_IDENTIFIER, roles::LABEL))
}

// The key of an element or a property.
pub fn key_of(nodes: &Nodes, n: NodeId) -> Option<NodeId>
    requires n_bound { n.0 < count nodes.now }
    ensures value { result ≡ key_of nodes.now n.0 }
    ensures below { below nodes.now result }
{
    first_child(nodes, n, Part::of_role(roles::KEY))
}

// The value of an element or a property, the argument of a unary expression.
pub fn value_of(nodes: &Nodes, n: NodeId) -> Option<NodeId>
    requires n_bound { n.0 < count nodes.now }
    ensures value { result ≡ value_of nodes.now n.0 }
    ensures below { below nodes.now result }
{
    first_child(nodes, n, Part::of_role(roles::VALUE))
}

// The statement that a statement holds.
pub fn held_of(nodes: &Nodes, n: NodeId) -> Option<NodeId>
    requires n_bound { n.0 < count nodes.now }
    ensures value { result ≡ held_of nodes.now n.0 }
    ensures below { below nodes.now result }
{
    first_child(nodes, n, Part::of_role(roles::HELD))
}

// The alternate of an If.
pub fn alternate_of(nodes: &Nodes, n: NodeId) -> Option<NodeId>
    requires n_bound { n.0 < count nodes.now }
    ensures value { result ≡ alternate_of nodes.now n.0 }
    ensures below { below nodes.now result }
{
    first_child(nodes, n, Part::of_role(roles::ALTERNATE))
}

// The body of a function or an arrow.
pub fn function_body_of(nodes: &Nodes, n: NodeId) -> Option<NodeId>
    requires n_bound { n.0 < count nodes.now }
    ensures value { result ≡ function_body_of nodes.now n.0 }
    ensures below { below nodes.now result }
{
    first_child(nodes, n, Part::of_kind(kinds::FUNCTION_BODY))
}

// The body of a class.
pub fn class_body_of(nodes: &Nodes, n: NodeId) -> Option<NodeId>
    requires n_bound { n.0 < count nodes.now }
    ensures value { result ≡ class_body_of nodes.now n.0 }
    ensures below { below nodes.now result }
{
    first_child(nodes, n, Part::of_kind(kinds::CLASS_BODY))
}

// What a parenthesis or a chain holds.
pub fn inner_of(nodes: &Nodes, n: NodeId) -> Option<NodeId>
    requires n_bound { n.0 < count nodes.now }
    ensures value { result ≡ inner_of nodes.now n.0 }
    ensures below { below nodes.now result }
{
    first_child(nodes, n, Part::ANY)
}
