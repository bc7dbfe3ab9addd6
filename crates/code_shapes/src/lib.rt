// What a node is to the code, whose part it is, and what holds a unit's statements, read from the node table.
#![tactic(auto)]

ghost use Rattle.std.specs.Prelude.{◌≡◌, ◌&&◌, ◌+◌, ◌<◌, ◌≤◌, eqb};
ghost use Rattle.table_records.specs.Table.{count};
ghost use Rattle.table_children.specs.Children.{below};
ghost use Rattle.code_tree.specs.Labels.{name_id, id_at};
ghost use Rattle.code_tree.specs.First.{first_of};
ghost use Rattle.code_tree.specs.Parts.{entered_by, up_of, shape_at, is_labeled, part_by, is_part, parts};
ghost use Rattle.code_tree.specs.Statements.{before_at, test_at, default_at, holder_of};
ghost use Rattle.code_layout.specs.Widths.{is_try, number_by};
ghost use Rattle.code_layout.specs.Exact.{open_at};

use code_tree::Shape;
use table_names::named::NamedNodes;
use table_records::nodes::Nodes;
use table_records::{NodeId, kinds, node_flag, roles};

// What a node is to the code.
#[tactic(auto, unfolding(code_tree::specs::Parts::shape_by))]
pub fn shape_of(nodes: &[u32], n: NodeId) -> Shape
    requires { n.0 < count nodes.now }
    ensures { result ≡ shape_at nodes.now n.0 }
{
    match table_records::kind(nodes, n) {
        kinds::PROGRAM | kinds::STATIC_BLOCK | kinds::FUNCTION_BODY | kinds::BLOCK => Shape::Block,
        kinds::LABELED => Shape::Label,
        kinds::FOR..=kinds::DO_WHILE => Shape::Loop,
        kinds::IF => Shape::If,
        kinds::WITH => Shape::With,
        kinds::SWITCH => Shape::Switch,
        kinds::SWITCH_CASE => Shape::Case,
        kinds::TRY => Shape::Try,
        kinds::CATCH_CLAUSE => Shape::Catch,
        kinds::CLASS | kinds::EXPORT_DEFAULT | kinds::EXPORT_NAMED => Shape::Class,
        _ => Shape::Leaf,
    }
}

// THE TABLE: how many words a node takes, by its shape.
pub fn number_by(s: Shape) -> u32
    ensures value { result ≡ number_by s }
    ensures upper_bound { result ≤ 10 }
{
    match s {
        Shape::Leaf | Shape::Class => 5,
        Shape::If | Shape::Switch => 7,
        Shape::With => 2,
        Shape::Block => 3,
        Shape::Loop => 10,
        Shape::Case => 4,
        Shape::Label | Shape::Try | Shape::Catch => 0,
    }
}

pub fn is_try(s: Shape) -> bool
    ensures { result ≡ is_try s }
{
    matches!(s, Shape::Try)
}

pub fn is_labeled(s: Shape) -> bool
    ensures { result ≡ is_labeled s }
{
    matches!(s, Shape::Label)
}

// Whether the label of p has the name of the label l.
#[tactic(auto, using(code_tree::proofs::LabelLaws::id_test))]
pub fn has_same_label(named: &NamedNodes, p: NodeId, l: NodeId) -> bool
    requires p_bound { p.0 < count named.now.nodes }
    requires l_bound { l.0 < count named.now.nodes }
    ensures { result ≡ eqb (name_id named.now.nodes named.now.names l.0) (id_at named.now.nodes named.now.names p.0) }
{
    let Some(own) = table_children::label_of(named.nodes, p) else {
        return false;
    };
    table_names::same_name(named.nodes, named.names, own, l)
}

// Whether a node of this kind in the role r is a part of what has the shape s.
pub fn part_by(s: Shape, kind: u32, r: u32) -> bool
    ensures { result ≡ part_by s kind r }
{
    match s {
        Shape::Leaf => false,
        Shape::Class => kind == kinds::STATIC_BLOCK,
        Shape::If => matches!(r, roles::HELD | roles::ALTERNATE),
        Shape::Try => matches!(r, roles::HELD | roles::ALTERNATE | roles::FINALLY),
        Shape::With
        | Shape::Block
        | Shape::Label
        | Shape::Loop
        | Shape::Switch
        | Shape::Case
        | Shape::Catch => r == roles::HELD,
    }
}

// Where a class is entered from: itself, or the export that declares it.
fn entered_by(nodes: &Nodes, c: NodeId) -> NodeId
    requires c_bound { c.0 < count nodes.now }
    ensures { result.0 ≡ entered_by nodes.now c.0 }
{
    let exported = matches!(
        table_ancestry::parent_kind(nodes, c),
        kinds::EXPORT_DEFAULT..=kinds::EXPORT_NAMED,
    );
    let declares = table_records::has_flag(table_records::flags(nodes, c), node_flag::DECLARATION);
    if exported && declares {
        return table_records::parent(nodes, c);
    }
    c
}

// Whose part a node may be.
#[tactic(auto, unfolding(code_tree::specs::Parts::up_of))]
pub fn up_of(nodes: &Nodes, n: NodeId) -> NodeId
    requires n_nonzero { 0 < n.0 }
    requires n_bound { n.0 < count nodes.now }
    ensures result_value { result.0 ≡ up_of nodes.now n.0 }
    ensures result_lt_n { result.0 < n.0 }
{
    let p = table_ancestry::up(nodes, n);
    if table_records::kind(nodes, n) != kinds::STATIC_BLOCK {
        return p;
    }
    entered_by(nodes, table_records::parent(nodes, p))
}

// Whether a node is a part of its holder.
#[tactic(auto, unfolding(code_tree::specs::Parts::is_part))]
pub fn is_part(nodes: &Nodes, n: NodeId) -> bool
    requires n_nonzero { 0 < n.0 }
    requires n_bound { n.0 < count nodes.now }
    ensures { result ≡ is_part nodes.now n.0 }
{
    let p = up_of(nodes, n);
    part_by(
        shape_of(nodes, p),
        table_records::kind(nodes, n),
        table_records::role(nodes, n),
    )
}

// Whether n is a part of p.
fn is_part_of(nodes: &Nodes, p: NodeId, n: NodeId) -> bool
    requires n_nonzero { 0 < n.0 }
    requires n_bound { n.0 < count nodes.now }
    ensures { result ≡ (eqb (up_of nodes.now n.0) p.0 && is_part nodes.now n.0) }
{
    up_of(nodes, n) == p && is_part(nodes, n)
}

// The first part of p from `from` on. From behind p it reads the nodes below p, and one more.
#[tactic(auto, using(crate::proofs::SearchLaws::part_stop, crate::proofs::SearchLaws::part_on, crate::proofs::SearchLaws::part_out, crate::proofs::SearchLaws::part_none))]
pub fn next_part(nodes: &Nodes, p: NodeId, from: u32) -> Option<NodeId>
    requires from_nonzero { 0 < from }
    ensures { result ≡ first_of (parts nodes.now p.0 from) }
{
    let _ = &nodes.numbers; // names the field, so that its invariant is known
    for i in from.. {
        if !table_records::is_node(nodes, i) {
            break;
        }
        if p.0 < i && table_records::parent(nodes, NodeId(i)).0 < p.0 {
            break;
        }
        if is_part_of(nodes, p, NodeId(i)) {
            return Some(NodeId(i));
        }
    }
    None
}

// OPEN's words, counted at the finally block.
#[tactic(auto, unfolding(code_layout::specs::Exact::open_at))]
pub fn open_at(nodes: &Nodes, n: NodeId) -> u32
    requires n_nonzero { 0 < n.0 }
    requires n_bound { n.0 < count nodes.now }
    ensures value { result ≡ open_at nodes.now n.0 }
    ensures upper_bound { result ≤ 2 }
{
    let p = up_of(nodes, n);
    if table_records::role(nodes, n) != roles::FINALLY {
        return 0;
    }
    if is_try(shape_of(nodes, p)) {
        return 2;
    }
    0
}

// Whether a loop takes its answer before the body.
pub fn is_before(nodes: &[u32], n: NodeId) -> bool
    requires { n.0 < count nodes.now }
    ensures { result ≡ before_at nodes.now n.0 }
{
    table_records::kind(nodes, n) != kinds::DO_WHILE
}

// Whether a loop heeds its answer.
pub fn has_test(nodes: &[u32], n: NodeId) -> bool
    requires { n.0 < count nodes.now }
    ensures { result ≡ test_at nodes.now n.0 }
{
    let kind = table_records::kind(nodes, n);
    let tested = table_records::has_flag(table_records::flags(nodes, n), node_flag::TEST);
    kind != kinds::FOR || tested
}

// Whether a case is the `default`.
pub fn is_default(nodes: &[u32], n: NodeId) -> bool
    requires { n.0 < count nodes.now }
    ensures { result ≡ default_at nodes.now n.0 }
{
    table_records::has_flag(table_records::flags(nodes, n), node_flag::DEFAULT)
}

// The node that holds a unit's statements.
#[tactic(auto, unfolding(code_tree::specs::Statements::holder_of))]
pub fn holder(nodes: &Nodes, u: NodeId) -> Option<NodeId>
    requires u_bound { u.0 < count nodes.now }
    ensures value { result ≡ holder_of nodes.now u.0 }
    ensures below { below nodes.now result }
{
    let kind = table_records::kind(nodes, u);
    if matches!(kind, kinds::FUNCTION..=kinds::ARROW) {
        return table_children::function_body_of(nodes, u);
    }
    Some(u)
}
