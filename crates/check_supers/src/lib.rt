// Where `super` may stand: what one scope and one class say to check_super's search.
#![tactic(auto)]

ghost use Rattle.std.specs.Prelude.{◌≡◌, ◌<◌};
ghost use Rattle.table_records.specs.Table.{count, count_scopes, scope_node_of};
ghost use Rattle.table_children.specs.Children.{below};
ghost use Rattle.check_class_table.specs.Classes.{body_above};
ghost use Rattle.check_supers.specs.Super.{is_call, if_call, part_of, part_at, is_value_of, is_method_like, heritage_use, first_class, dummy_use, derived_use, object_use, method_use, function_use, is_class_scope, scope_step, leave_class, body_of};

use table_records::nodes::Nodes;
use table_records::{ClassId, NodeId, ScopeId, extras, kinds, node_flag, scope_flag};

// What the search finds of a `super`: that it is legal, or illegal, or a call in the constructor of this class, which has no heritage; or that the Rust fails.
#[derive(Clone, Copy)]
pub enum Reach {
    Legal,
    Illegal,
    Underived(NodeId),
    Fails,
}

// Where a node stands in a class element.
#[derive(Clone, Copy)]
pub enum ElementPart {
    Value,
    Key,
}

// What one scope of the search says: it ends, or it goes on outside the class, or just on.
#[derive(Clone, Copy)]
pub enum Step {
    Stop(Reach),
    Leave,
    On,
}

// Whether a `super` is called.
pub fn is_call(nodes: &Nodes, n: NodeId) -> bool
    requires n_bound { n.0 < count nodes.now }
    ensures { result ≡ is_call nodes.now n.0 }
{
    matches!(
        table_ancestry::parent_kind(nodes, n),
        kinds::CALL..=kinds::NEW
    )
}

// Where a property may be taken of `super`, and `super` may not be called.
pub fn if_call(call: bool) -> Reach
    ensures { result ≡ if_call call }
{
    if call {
        return Reach::Illegal;
    }
    Reach::Legal
}

// Whether x is the value of a.
#[tactic(auto, unfolding(crate::specs::Super::is_value_of))]
fn is_value_of(nodes: &Nodes, a: NodeId, x: NodeId) -> bool
    requires a_bound { a.0 < count nodes.now }
    ensures { result ≡ is_value_of nodes.now a.0 x.0 }
{
    let Some(v) = table_children::value_of(nodes, a) else {
        return false;
    };
    v == x
}

// The part of the class element a in which its child x stands.
#[tactic(auto, unfolding(crate::specs::Super::part_of))]
fn part_of(nodes: &Nodes, a: NodeId, x: NodeId) -> ElementPart
    requires a_bound { a.0 < count nodes.now }
    ensures { result ≡ part_of nodes.now a.0 x.0 }
{
    if table_records::kind(nodes, a) == kinds::METHOD_DEFINITION {
        return ElementPart::Key;
    }
    if is_value_of(nodes, a, x) {
        return ElementPart::Value;
    }
    ElementPart::Key
}

// The same for any node a, if it is a class element.
#[tactic(auto, unfolding(crate::specs::Super::part_at))]
pub fn part_at(nodes: &Nodes, a: NodeId, x: NodeId) -> Option<ElementPart>
    requires a_bound { a.0 < count nodes.now }
    ensures { result ≡ part_at nodes.now a.0 x.0 }
{
    match table_records::kind(nodes, a) {
        kinds::METHOD_DEFINITION..=kinds::ACCESSOR_PROPERTY => Some(part_of(nodes, a, x)),
        _ => None,
    }
}

// A call in the constructor of the class c.
// > ClassTail : ClassHeritageopt { ClassBody }
// > * It is a Syntax Error if ClassHeritage is not present and the following algorithm returns true:
// >   1. Let constructor be ConstructorMethod of ClassBody.
// >   2. If constructor is empty, return false.
// >   3. Return HasDirectSuper of constructor.
fn heritage_use(nodes: &Nodes, c: ClassId) -> Reach
    requires c_bound { c.0 < count nodes.now }
    ensures { result ≡ heritage_use nodes.now c.0 }
{
    let class = table_records::parent(nodes, NodeId::from(c));
    if table_records::has_flag(table_records::flags(nodes, class), node_flag::HERITAGE) {
        return Reach::Legal;
    }
    Reach::Underived(class)
}

// The first ClassBody of the table: class number 0.
#[tactic(auto, using(crate::proofs::SuperLaws::classes_start, crate::proofs::SuperLaws::classes_here, crate::proofs::SuperLaws::classes_on, crate::proofs::SuperLaws::classes_past))]
fn first_class(nodes: &Nodes) -> Option<NodeId>
    ensures value { result ≡ first_class nodes.now }
    ensures below { below nodes.now result }
{
    let numbers = nodes.numbers; // names the field, so that its invariant is known
    for i in 0.. {
        if !table_records::is_node(numbers, i) {
            break;
        }
        if table_records::kind(numbers, NodeId(i)) == kinds::CLASS_BODY {
            return Some(NodeId(i));
        }
    }
    None
}

// A call in a constructor while no class is current: class number 0 must be around the Super.
fn dummy_use(nodes: &Nodes, n: NodeId) -> Reach
    requires n_bound { n.0 < count nodes.now }
    ensures { result ≡ dummy_use nodes.now n.0 (first_class nodes.now) }
{
    let Some(b) = first_class(nodes) else {
        return Reach::Fails;
    };
    let class = table_records::parent(nodes, b);
    if table_ancestry::is_on_path(nodes, class.0, n) {
        return heritage_use(nodes, ClassId::from(b));
    }
    Reach::Fails
}

// A call in a constructor of the class, if one is current.
fn derived_use(nodes: &Nodes, n: NodeId, class: Option<ClassId>) -> Reach
    requires n_bound { n.0 < count nodes.now }
    requires below { below nodes.now (body_of class) }
    ensures { result ≡ derived_use nodes.now n.0 (body_of class) }
{
    let Some(c) = class else {
        return dummy_use(nodes, n);
    };
    heritage_use(nodes, c)
}

// Whether a property of an object is a method, getter or setter.
fn is_method_like(nodes: &[u32], p: NodeId) -> bool
    requires { p.0 < count nodes.now }
    ensures { result ≡ is_method_like nodes.now p.0 }
{
    table_records::has_flag(table_records::flags(nodes, p), node_flag::METHOD)
        || table_records::extra(nodes, p) != extras::INIT
}

// A `super` in the function f, which is the value of a property of an object, or not.
#[tactic(auto, unfolding(crate::specs::Super::object_use))]
fn object_use(nodes: &Nodes, call: bool, p: NodeId, f: NodeId) -> Reach
    requires p_bound { p.0 < count nodes.now }
    ensures { result ≡ object_use nodes.now call p.0 f.0 }
{
    if is_method_like(nodes, p) && is_value_of(nodes, p, f) {
        return if_call(call);
    }
    Reach::Illegal
}

// A `super` in the function f, which is the value of a method of a class, or not.
#[tactic(auto, unfolding(crate::specs::Super::method_use))]
fn method_use(
    nodes: &Nodes,
    n: NodeId,
    call: bool,
    class: Option<ClassId>,
    p: NodeId,
    f: NodeId,
) -> Reach
    requires n_bound { n.0 < count nodes.now }
    requires below { below nodes.now (body_of class) }
    requires p_bound { p.0 < count nodes.now }
    ensures { result ≡ method_use nodes.now n.0 call (body_of class) p.0 f.0 }
{
    if !is_value_of(nodes, p, f) {
        return Reach::Illegal;
    }
    if !call {
        return Reach::Legal;
    }
    if table_records::extra(nodes, p) != extras::CONSTRUCTOR {
        return Reach::Illegal;
    }
    derived_use(nodes, n, class)
}

// A `super` in the function f.
#[tactic(auto, unfolding(crate::specs::Super::function_use))]
fn function_use(nodes: &Nodes, n: NodeId, call: bool, class: Option<ClassId>, f: NodeId) -> Reach
    requires n_bound { n.0 < count nodes.now }
    requires below { below nodes.now (body_of class) }
    requires f_bound { f.0 < count nodes.now }
    ensures { result ≡ function_use nodes.now n.0 call (body_of class) f.0 }
{
    if f.0 == 0 {
        return Reach::Fails;
    }
    let p = table_ancestry::up(nodes, f);
    match table_records::kind(nodes, p) {
        kinds::OBJECT_PROPERTY => object_use(nodes, call, p, f),
        kinds::METHOD_DEFINITION => method_use(nodes, n, call, class, p, f),
        _ => Reach::Illegal,
    }
}

// Whether s is the scope of the class (the first of get_class_details).
pub fn is_class_scope(nodes: &Nodes, class: Option<ClassId>, s: ScopeId) -> bool
    requires below { below nodes.now (body_of class) }
    ensures { result ≡ is_class_scope nodes.now (body_of class) s.0 }
{
    let Some(c) = class else {
        return false;
    };
    let class_node = table_records::parent(nodes, NodeId::from(c));
    s.0 == table_records::extra(nodes, class_node)
}

// What the scope s of the search says, where it isn't the class's: `super.foo` is legal in static blocks, `super()` is not; scopes that are
// no functions, and arrow functions, are skipped.
// > ClassStaticBlockBody : ClassStaticBlockStatementList
// > * It is a Syntax Error if ClassStaticBlockStatementList Contains SuperCall is true.
pub fn scope_step(
    nodes: &Nodes,
    scopes: &[u32],
    n: NodeId,
    call: bool,
    class: Option<ClassId>,
    s: ScopeId,
) -> Step
    requires n_bound { n.0 < count nodes.now }
    requires below { below nodes.now (body_of class) }
    requires s_bound { s.0 < count_scopes scopes.now }
    requires s_bound_2 { scope_node_of scopes.now s.0 < count nodes.now }
    ensures { result ≡ scope_step nodes.now scopes.now n.0 call (body_of class) s.0 }
{
    let flags = table_records::scope_flags(scopes, s);
    if table_records::has_flag(flags, scope_flag::STATIC_BLOCK_SCOPE) {
        return Step::Stop(if_call(call));
    }
    if !table_records::has_flag(flags, scope_flag::FUNCTION_SCOPE)
        || table_records::has_flag(flags, scope_flag::ARROW_SCOPE)
    {
        return Step::On;
    }
    let f = table_records::scope_node(scopes, s);
    Step::Stop(function_use(nodes, n, call, class, f))
}

// The class around a node.
pub fn class_around(nodes: &Nodes, n: NodeId) -> Option<ClassId>
    requires n_bound { n.0 < count nodes.now }
    ensures result_value { body_of result ≡ body_above nodes.now n.0 }
    ensures below { below nodes.now (body_of result) }
{
    let b = table_ancestry::nearest(nodes, n, kinds::CLASS_BODY, kinds::CLASS_BODY)?;
    Some(ClassId::from(b))
}

// The class around a class.
pub fn leave_class(nodes: &Nodes, class: Option<ClassId>) -> Option<ClassId>
    requires below { below nodes.now (body_of class) }
    ensures result_value { body_of result ≡ leave_class nodes.now (body_of class) }
    ensures below_2 { below nodes.now (body_of result) }
{
    let c = class?;
    class_around(nodes, NodeId::from(c))
}
