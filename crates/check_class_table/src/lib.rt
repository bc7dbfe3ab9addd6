// The classes of a tree, their elements and the class current at a node: class/table.rs and class/builder.rs, read off the node table.
#![tactic(auto)]

ghost use Rattle.std.specs.Prelude.{◌≡◌, ◌<◌};
ghost use Rattle.table_records.specs.Table.{count, parent_of};
ghost use Rattle.table_children.specs.Children.{below};
ghost use Rattle.check_class_table.specs.Classes.{class_at, current_class, parent_class, in_table, before};
ghost use Rattle.check_class_table.specs.Elements.{span_at, element_name, element_span, is_static, is_private, is_method_of, is_getter, is_setter, is_constructor, is_definition, has_name, has_body, fixed_name, enters, is_compared_definition, is_compared_element};

use table_ancestry::nearest;
use table_names::named::NamedNodes;
use table_records::nodes::Nodes;
use table_records::{ClassId, ElementId, NodeId, extras, kinds, node_flag};
use table_source::is_typescript;

// Of an element in TypeScript: it has no fixed name.
pub const NO_FIXED_NAME: u32 = 16384;

// A half-open range of bytes of the source.
#[derive(Clone, Copy)]
pub struct Span {
    pub start: u32,
    pub end: u32,
}

// The class whose ClassBody was found.
fn class_at(body: Option<NodeId>) -> Option<ClassId>
    ensures { result ≡ class_at body }
{
    Some(ClassId::from(body?))
}

// The class that is current where a node is checked.
#[tactic(auto, unfolding(crate::specs::Classes::current_class))]
pub fn current_class(nodes: &Nodes, n: NodeId) -> Option<ClassId>
    requires n_bound { n.0 < count nodes.now }
    ensures value { result ≡ current_class nodes.now n.0 }
    ensures in_table { in_table nodes.now result }
{
    let k = table_records::kind(nodes, n);
    if k == kinds::CLASS {
        return class_at(table_children::class_body_of(nodes, n));
    }
    if k == kinds::CLASS_BODY {
        return Some(ClassId::from(n));
    }
    class_at(nearest(nodes, n, kinds::CLASS_BODY, kinds::CLASS_BODY))
}

// The class around a class.
pub fn parent_class(nodes: &Nodes, c: ClassId) -> Option<ClassId>
    requires c_bound { c.0 < count nodes.now }
    ensures value { result ≡ parent_class nodes.now c.0 }
    ensures before { before c.0 result }
{
    let _ = &nodes.numbers; // names the field, so that its invariant is known
    class_at(nearest(nodes, NodeId::from(c), kinds::CLASS_BODY, kinds::CLASS_BODY))
}

// The Class whose body a class has its number from.
pub fn class_node(nodes: &[u32], c: ClassId) -> NodeId
    requires { c.0 < count nodes.now }
    ensures { result.0 ≡ parent_of nodes.now c.0 }
{
    table_records::parent(nodes, NodeId::from(c))
}

// This and `is_private` are two functions, since each is one call of `has_flag` with a flag of its own, which one function for both would be again.
pub fn is_static(nodes: &[u32], e: ElementId) -> bool
    requires { e.0 < count nodes.now }
    ensures { result ≡ is_static nodes.now e.0 }
{
    table_records::has_flag(
        table_records::flags(nodes, NodeId::from(e)),
        node_flag::STATIC,
    )
}

pub fn is_private(nodes: &[u32], e: ElementId) -> bool
    requires { e.0 < count nodes.now }
    ensures { result ≡ is_private nodes.now e.0 }
{
    table_records::has_flag(
        table_records::flags(nodes, NodeId::from(e)),
        node_flag::PRIVATE_KEY,
    )
}

// Whether a node is a MethodDefinition with this extra number.
fn is_method_of(nodes: &[u32], e: ElementId, extra: u32) -> bool
    requires { e.0 < count nodes.now }
    ensures { result ≡ is_method_of nodes.now e.0 extra }
{
    let k = table_records::kind(nodes, NodeId::from(e));
    let x = table_records::extra(nodes, NodeId::from(e));
    k == kinds::METHOD_DEFINITION && x == extra
}

pub fn is_getter(nodes: &[u32], e: ElementId) -> bool
    requires { e.0 < count nodes.now }
    ensures { result ≡ is_getter nodes.now e.0 }
{
    is_method_of(nodes, e, extras::GET)
}

pub fn is_setter(nodes: &[u32], e: ElementId) -> bool
    requires { e.0 < count nodes.now }
    ensures { result ≡ is_setter nodes.now e.0 }
{
    is_method_of(nodes, e, extras::SET)
}

pub fn is_constructor(nodes: &[u32], e: ElementId) -> bool
    requires { e.0 < count nodes.now }
    ensures { result ≡ is_constructor nodes.now e.0 }
{
    is_method_of(nodes, e, extras::CONSTRUCTOR)
}

pub fn is_definition(nodes: &[u32], e: ElementId) -> bool
    requires { e.0 < count nodes.now }
    ensures { result ≡ is_definition nodes.now e.0 }
{
    matches!(
        table_records::kind(nodes, NodeId::from(e)),
        kinds::METHOD_DEFINITION..=kinds::ACCESSOR_PROPERTY
    )
}

// The span of a part that was looked for.
pub fn span_at(nodes: &[u32], part: Option<NodeId>) -> Span
    requires { below nodes.now part }
    ensures { result ≡ span_at nodes.now part }
{
    let Some(m) = part else {
        return Span { start: 0, end: 0 };
    };
    Span {
        start: table_records::span_start(nodes, m),
        end: table_records::span_end(nodes, m),
    }
}

// The span of an element: that of its key.
#[tactic(auto, unfolding(crate::specs::Elements::element_span))]
pub fn element_span(nodes: &Nodes, e: ElementId) -> Span
    requires e_bound { e.0 < count nodes.now }
    ensures { result ≡ element_span nodes.now e.0 }
{
    span_at(nodes, table_children::key_of(nodes, NodeId::from(e)))
}

// The name of an element: that of its key.
#[tactic(auto, unfolding(crate::specs::Elements::element_name))]
pub fn element_name<'a>(named: &'a NamedNodes, e: ElementId) -> &'a [u8]
    requires e_bound { e.0 < count named.now.nodes }
    ensures { result.now ≡ element_name named.now.nodes named.now.names e.0 }
{
    let Some(m) = table_children::key_of(named.nodes, NodeId::from(e)) else {
        return &named.names[0..0];
    };
    table_names::name(named.nodes, named.names, m)
}

// Whether an element's key has a name: an IdentifierReference is the expression of a computed key, and gives the element none.
fn has_name(nodes: &Nodes, e: ElementId) -> bool
    requires e_bound { e.0 < count nodes.now }
    ensures { result ≡ has_name nodes.now e.0 }
{
    let Some(m) = table_children::key_of(nodes, NodeId::from(e)) else {
        return false;
    };
    table_records::kind(nodes, m) != kinds::IDENTIFIER_REFERENCE
        && table_records::name_len(nodes, m) != 0
}

// Whether the function that is a method's value has a body.
#[tactic(auto, unfolding(crate::specs::Elements::has_body))]
pub fn has_body(nodes: &Nodes, e: ElementId) -> bool
    requires e_bound { e.0 < count nodes.now }
    ensures { result ≡ has_body nodes.now e.0 }
{
    let Some(f) = table_children::value_of(nodes, NodeId::from(e)) else {
        return false;
    };
    table_children::function_body_of(nodes, f).is_some()
}

// Whether an element has a fixed name: in TypeScript its flag alone says so.
#[tactic(auto, unfolding(crate::specs::Elements::fixed_name))]
pub fn has_fixed_name(source_type: u32, nodes: &Nodes, e: ElementId) -> bool
    requires e_bound { e.0 < count nodes.now }
    ensures { result ≡ fixed_name source_type nodes.now e.0 }
{
    if is_typescript(source_type) {
        return !table_records::has_flag(
            table_records::flags(nodes, NodeId::from(e)),
            NO_FIXED_NAME,
        );
    }
    has_name(nodes, e)
}

// Constructors, bodiless methods and elements without a fixed name enter no element.
#[tactic(auto, unfolding(crate::specs::Elements::enters))]
pub fn enters(source_type: u32, nodes: &Nodes, e: ElementId) -> bool
    requires e_bound { e.0 < count nodes.now }
    ensures { result ≡ enters source_type nodes.now e.0 }
{
    let is_method = table_records::kind(nodes, NodeId::from(e)) == kinds::METHOD_DEFINITION;
    if is_constructor(nodes, e) || is_method && !has_body(nodes, e) {
        return false;
    }
    has_fixed_name(source_type, nodes, e)
}

// Whether a node is a definition in the body of class c that is compared with others: a private one, and in TypeScript any.
#[tactic(auto, unfolding(crate::specs::Elements::is_compared_definition))]
fn is_compared_definition(source_type: u32, nodes: &[u32], c: ClassId, e: ElementId) -> bool
    requires { e.0 < count nodes.now }
    ensures { result ≡ is_compared_definition source_type nodes.now c.0 e.0 }
{
    table_records::parent(nodes, NodeId::from(e)) == NodeId::from(c)
        && (is_typescript(source_type) || is_private(nodes, e))
        && is_definition(nodes, e)
}

// Whether a node is a compared element of class c.
#[tactic(auto, unfolding(crate::specs::Elements::is_compared_element))]
pub fn is_compared_element(source_type: u32, nodes: &Nodes, c: ClassId, e: ElementId) -> bool
    requires e_bound { e.0 < count nodes.now }
    ensures { result ≡ is_compared_element source_type nodes.now c.0 e.0 }
{
    is_compared_definition(source_type, nodes, c, e) && enters(source_type, nodes, e)
}
