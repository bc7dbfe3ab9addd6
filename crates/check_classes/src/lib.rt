// What is checked at a private name and at a Class.
#![tactic(auto)]

ghost use Rattle.std.specs.Prelude.{◌≡◌, ◌+◌, ◌<◌, ◌≤◌};
ghost use Rattle.table_records.specs.Table.{count, span_start_of};
ghost use Rattle.table_children.specs.Children.{below};
ghost use Rattle.check_diagnostics.specs.Raises.{Adds};
ghost use Rattle.check_classes.specs.ClassChecks.{private_outside, is_reference, undeclared_at, undeclared_in, private_undeclared, has_id, require_class_name, constructor_span, duplicate_constructor, second_constructor, check_class, is_reference_of, raised_at, is_constructor_of, next_constructor};

use check_class_table::Span;
use check_diagnostics::{Finding, Findings, codes, contexts};
use check_element_index::Elements;
use table_children::Part;
use table_records::nodes::Nodes;
use table_records::{ClassId, ElementId, NodeId, kinds, node_flag};

pub fn check_private_identifier_outside_class(nodes: &Nodes, n: NodeId) -> Option<Finding>
    requires n_bound { n.0 < count nodes.now }
    ensures { result ≡ private_outside nodes.now n.0 }
{
    let None = check_class_table::current_class(nodes, n) else {
        return None;
    };
    check_diagnostics::error_at(nodes, codes::PRIVATE_NOT_IN_CLASS, n, n, contexts::NONE)
}

// Whether a node is a PrivateIdentifier in a member expression or a PrivateIn.
fn is_reference(nodes: &Nodes, m: NodeId) -> bool
    requires m_bound { m.0 < count nodes.now }
    ensures { result ≡ is_reference nodes.now m.0 }
{
    table_records::kind(nodes, m) == kinds::PRIVATE_IDENTIFIER
        && matches!(
            table_ancestry::parent_kind(nodes, m),
            kinds::OTHER_MEMBER..=kinds::PRIVATE_IN
        )
}

// Whether a node is a private reference of class c.
#[tactic(auto, unfolding(crate::specs::ClassChecks::is_reference_of))]
fn is_reference_of(nodes: &Nodes, c: ClassId, m: NodeId) -> bool
    requires m_bound { m.0 < count nodes.now }
    ensures { result ≡ is_reference_of nodes.now c.0 m.0 }
{
    if is_reference(nodes, m) {
        let Some(d) = check_class_table::current_class(nodes, m) else {
            return false;
        };
        return d == c;
    }
    false
}

// What a private reference of class c raises at node n.
#[tactic(auto, unfolding(crate::specs::ClassChecks::undeclared_at))]
fn undeclared_at(elements: &Elements, n: NodeId, c: ClassId, m: NodeId) -> Option<Finding>
    requires c_bound { c.0 < count elements.now.nodes }
    requires m_bound { m.0 < count elements.now.nodes }
    ensures { result ≡ undeclared_at elements.now.source_type elements.now.nodes elements.now.names n.0 c.0 m.0 }
{
    let named = elements.named;
    if check_element_index::is_declared(
        elements,
        c,
        table_names::name(named.nodes, named.names, m),
    ) {
        return None;
    }
    check_diagnostics::error_at(
        named.nodes,
        codes::PRIVATE_FIELD_UNDECLARED,
        n,
        m,
        contexts::NONE,
    )
}

// What a node raises as a private reference of class c.
#[tactic(auto, unfolding(crate::specs::ClassChecks::raised_at))]
fn raised_at(elements: &Elements, n: NodeId, c: ClassId, m: NodeId) -> Option<Finding>
    requires c_bound { c.0 < count elements.now.nodes }
    requires m_bound { m.0 < count elements.now.nodes }
    ensures { result ≡ raised_at elements.now.source_type elements.now.nodes elements.now.names n.0 c.0 m.0 }
{
    let named = elements.named;
    if is_reference_of(named.nodes, c, m) {
        return undeclared_at(elements, n, c, m);
    }
    None
}

// What the private references of class c raise at node n.
fn undeclared_in(elements: &Elements, n: NodeId, c: ClassId, findings: &mut Findings)
    requires c_bound { c.0 < count elements.now.nodes }
    requires raised_bound { findings.old.raised ≤ 999999000000 }
    ensures adds { Adds findings.old findings.new (undeclared_in elements.now.source_type elements.now.nodes elements.now.names n.0 c.0) }
    ensures upper_bound { findings.new.raised ≤ findings.old.raised + 458745 }
{
    let named = elements.named;
    let nodes = named.nodes;
    let _ = &nodes.numbers; // names the field, so that its invariant is known
    for i in c.0 + 1..table_records::size(nodes) {
        if table_records::parent(nodes, NodeId(i)).0 < c.0 {
            return;
        }
        findings.raise(raised_at(elements, n, c, NodeId(i)));
    }
}

// Private names of the class that is current at node n which it and the classes around it do not declare.
fn check_private_identifier(elements: &Elements, n: NodeId, findings: &mut Findings)
    requires n_bound { n.0 < count elements.now.nodes }
    requires raised_bound { findings.old.raised ≤ 999999000000 }
    ensures adds { Adds findings.old findings.new (private_undeclared elements.now.source_type elements.now.nodes elements.now.names n.0) }
    ensures upper_bound { findings.new.raised ≤ findings.old.raised + 458745 }
{
    let named = elements.named;
    let Some(c) = check_class_table::current_class(named.nodes, n) else {
        return;
    };
    undeclared_in(elements, n, c, findings);
}

fn has_id(nodes: &Nodes, n: NodeId) -> bool
    requires n_bound { n.0 < count nodes.now }
    ensures { result ≡ has_id nodes.now n.0 }
{
    let id = table_children::first_child(nodes, n, Part::of_kind(kinds::BINDING_IDENTIFIER));
    id.is_some()
}

// A class declaration needs an id, but for that of an `export default`.
#[tactic(auto, unfolding(crate::specs::ClassChecks::require_class_name))]
fn require_class_name(nodes: &Nodes, n: NodeId) -> Option<Finding>
    requires n_bound { n.0 < count nodes.now }
    requires n_bound_2 { span_start_of nodes.now n.0 ≤ 1048576 }
    ensures { result ≡ require_class_name nodes.now n.0 }
{
    let is_declaration = table_records::has_flag(
        table_records::flags(nodes, n),
        node_flag::DECLARATION,
    );
    if is_declaration
        && !has_id(nodes, n)
        && table_ancestry::parent_kind(nodes, n) != kinds::EXPORT_DEFAULT
    {
        let start = table_records::span_start(nodes, n);
        return check_diagnostics::error(
            codes::REQUIRE_CLASS_NAME,
            n,
            start,
            start + 5,
            contexts::NONE,
        );
    }
    None
}

// Whether a node is a constructor of class c with a body.
#[tactic(auto, unfolding(crate::specs::ClassChecks::is_constructor_of))]
fn is_constructor_of(nodes: &Nodes, c: ClassId, e: ElementId) -> bool
    requires e_bound { e.0 < count nodes.now }
    ensures { result ≡ is_constructor_of nodes.now c.0 e.0 }
{
    table_records::parent(nodes, NodeId::from(e)) == NodeId::from(c)
        && check_class_table::is_constructor(nodes, e)
        && check_class_table::has_body(nodes, e)
}

// The first constructor of class c with a body from node `from` on.
#[tactic(auto, using(crate::proofs::ClassChecksLaws::constructor_out, table_children::proofs::ChildrenLaws::node_stop, table_children::proofs::ChildrenLaws::node_on, table_children::proofs::ChildrenLaws::node_end))]
fn next_constructor(nodes: &Nodes, c: ClassId, from: u32) -> Option<NodeId>
    requires c_lt_from { c.0 < from }
    requires from_bound { from ≤ count nodes.now }
    ensures value { result ≡ next_constructor nodes.now c.0 from }
    ensures below { below nodes.now result }
{
    for i in from..table_records::size(nodes) {
        if table_records::parent(nodes, NodeId(i)).0 < c.0 {
            return None;
        }
        if is_constructor_of(nodes, c, ElementId(i)) {
            return Some(NodeId(i));
        }
    }
    None
}

// The span of a constructor: that of its key if its name is fixed.
#[tactic(auto, unfolding(crate::specs::ClassChecks::constructor_span))]
fn constructor_span(source_type: u32, nodes: &Nodes, e: ElementId) -> Span
    requires e_bound { e.0 < count nodes.now }
    ensures { result ≡ constructor_span source_type nodes.now e.0 }
{
    if check_class_table::has_fixed_name(source_type, nodes, e) {
        return check_class_table::element_span(nodes, e);
    }
    check_class_table::span_at(nodes, Some(NodeId::from(e)))
}

// The finding that constructor b repeats a.
fn duplicate_constructor(
    source_type: u32,
    nodes: &Nodes,
    n: NodeId,
    a: ElementId,
    b: ElementId,
) -> Option<Finding>
    requires a_bound { a.0 < count nodes.now }
    requires b_bound { b.0 < count nodes.now }
    ensures { result ≡ duplicate_constructor source_type nodes.now n.0 a.0 b.0 }
{
    let first = constructor_span(source_type, nodes, a);
    let second = constructor_span(source_type, nodes, b);
    Some(Finding {
        code: codes::DUPLICATE_CONSTRUCTOR,
        node: n,
        start: first.start,
        end: first.end,
        start2: second.start,
        end2: second.end,
        context: contexts::NONE,
    })
}

// The first two constructors of a class.
// > ClassBody : ClassElementList
// > It is a Syntax Error if PrototypePropertyNameList of ClassElementList contains more than one occurrence of "constructor".
fn second_constructor(source_type: u32, nodes: &Nodes, n: NodeId) -> Option<Finding>
    requires n_bound { n.0 < count nodes.now }
    ensures { result ≡ second_constructor source_type nodes.now n.0 }
{
    let _ = &nodes.numbers; // names the field, so that its invariant is known
    let body = table_children::class_body_of(nodes, n)?;
    let c = ClassId::from(body);
    let a = next_constructor(nodes, c, body.0 + 1)?;
    let b = next_constructor(nodes, c, a.0 + 1)?;
    duplicate_constructor(
        source_type,
        nodes,
        n,
        ElementId::from(a),
        ElementId::from(b),
    )
}

pub fn check_class(elements: &Elements, n: NodeId, findings: &mut Findings)
    requires n_bound { n.0 < count elements.now.nodes }
    requires n_bound_2 { span_start_of elements.now.nodes n.0 ≤ 1048576 }
    requires raised_bound { findings.old.raised ≤ 999999000000 }
    ensures adds { Adds findings.old findings.new (check_class elements.now.source_type elements.now.nodes elements.now.names n.0) }
    ensures upper_bound { findings.new.raised ≤ findings.old.raised + 458759 }
{
    let named = elements.named;
    check_private_identifier(elements, n, findings);
    findings.raise(require_class_name(named.nodes, n));
    findings.raise(second_constructor(elements.source_type, named.nodes, n));
}
