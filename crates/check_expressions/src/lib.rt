// Object literals, `delete`, and `await` and `yield` in parameters.
#![tactic(auto)]

ghost use Rattle.std.specs.Prelude.{◌≡◌, ◌+◌, ◌<◌, ◌≤◌};
ghost use Rattle.table_records.specs.Table.{count};
ghost use Rattle.table_records.specs.Facts.{Scoped, Spanned};
ghost use Rattle.table_children.specs.Children.{inner_of, below};
ghost use Rattle.check_diagnostics.specs.Raises.{Adds};
ghost use Rattle.check_expressions.specs.Expressions.{proto_key, check_object_expression, is_parenthesis, inner_expression, chain_finding, delete_of, check_unary_expression, is_parameter, in_formal_parameters, in_parameter, in_block, check_await_expression, check_yield_expression, repeated, later};

use check_diagnostics::{Finding, Findings, codes, contexts, error_at};
use table_children::Part;
use table_names::named::NamedNodes;
use table_records::nodes::Nodes;
use table_records::scopes::Scopes;
use table_records::{NodeId, extras, kinds, node_flag};

// The key of a property, where it is written `__proto__: value`.
#[tactic(auto, unfolding(crate::specs::Expressions::proto_key))]
fn proto_key(named: &NamedNodes, p: NodeId) -> Option<NodeId>
    requires p_bound { p.0 < count named.now.nodes }
    ensures value { result ≡ proto_key named.now.nodes named.now.names p.0 }
    ensures below { below named.now.nodes result }
{
    if table_records::extra(named.nodes, p) != extras::INIT {
        return None;
    }
    if table_records::has_flag(table_records::flags(named.nodes, p), node_flag::METHOD) {
        return None;
    }
    let key = table_children::key_of(named.nodes, p)?;
    // An IdentifierReference as key is that of `[a]`: a computed key has no PropName.
    if table_records::kind(named.nodes, key) == kinds::IDENTIFIER_REFERENCE {
        return None;
    }
    if table_names::name_is(named.nodes, named.names, key, b"__proto__") {
        return Some(key);
    }
    None
}

// The finding for a key b, where a came before it.
fn repeated(nodes: &Nodes, n: NodeId, a: Option<NodeId>, b: Option<NodeId>) -> Option<Finding>
    requires below { below nodes.now a }
    requires below_2 { below nodes.now b }
    ensures { result ≡ repeated nodes.now n.0 a b }
{
    let (Some(first), Some(second)) = (a, b) else {
        return None;
    };
    check_diagnostics::error_between(nodes, codes::REDECLARATION, n, first, second)
}

// The key that came last.
fn later(a: Option<NodeId>, b: Option<NodeId>) -> Option<NodeId>
    ensures { result ≡ later a b }
{
    b.or(a)
}

// Of the keys `__proto__` of an object each but the first repeats the one before it.
// > It is a Syntax Error if PropertyNameList of PropertyDefinitionList contains any duplicate entries for "__proto__" and at least two of those entries
// > were obtained from productions of the form PropertyDefinition : PropertyName : AssignmentExpression.
pub fn check_object_expression(named: &NamedNodes, n: NodeId, findings: &mut Findings)
    requires n_bound { n.0 < count named.now.nodes }
    requires raised_bound { findings.old.raised ≤ 900000000000 }
    ensures adds { Adds findings.old findings.new (check_object_expression named.now.nodes named.now.names n.0) }
    ensures upper_bound { findings.new.raised ≤ findings.old.raised + 458745 }
{
    let nodes = named.nodes;
    let _ = &nodes.numbers; // names the field, so that its invariant is known
    let mut from = n.0 + 1;
    let mut previous = None;
    loop {
        let Some(p) = table_children::next_child(
            nodes,
            n,
            Part::of_kind(kinds::OBJECT_PROPERTY),
            from,
        ) else {
            return;
        };
        let key = proto_key(named, p);
        findings.raise(repeated(nodes, n, previous, key));
        previous = later(previous, key);
        from = p.0 + 1;
    }
}

// Its body is that of is_label (call_labels) by chance: that one asks for a role, this one for an extra number.
fn is_parenthesis(nodes: &[u32], n: NodeId) -> bool
    requires { n.0 < count nodes.now }
    ensures { result ≡ is_parenthesis nodes.now n.0 }
{
    table_records::kind(nodes, n) == kinds::ANYTHING_ELSE
        && table_records::extra(nodes, n) == extras::PARENTHESIS
}

// An expression without the parentheses around it.
#[tactic(auto, using(crate::proofs::ExpressionLaws::inner_bare, crate::proofs::ExpressionLaws::inner_empty, crate::proofs::ExpressionLaws::inner_on, table_children::proofs::ChildrenLaws::found_child))]
fn get_inner_expression(nodes: &Nodes, n: NodeId) -> NodeId
    requires n_bound { n.0 < count nodes.now }
    ensures result_value { result.0 ≡ inner_expression nodes.now n.0 }
    ensures result_bound { result.0 < count nodes.now }
{
    let mut at = n;
    while is_parenthesis(nodes, at) {
        let Some(m) = table_children::inner_of(nodes, at) else {
            return at;
        };
        at = m;
    }
    at
}

// `delete` of the chain e: a private field that it ends in is reported by its name.
fn delete_of_chain(nodes: &Nodes, n: NodeId, e: NodeId) -> Option<Finding>
    requires e_bound { e.0 < count nodes.now }
    ensures { result ≡ chain_finding nodes.now n.0 (inner_of nodes.now e.0) }
{
    let member = table_children::inner_of(nodes, e)?;
    if table_records::kind(nodes, member) != kinds::PRIVATE_FIELD {
        return None;
    }
    let Some(field) = table_children::first_child(
        nodes,
        member,
        Part::of_kind(kinds::PRIVATE_IDENTIFIER),
    ) else {
        return check_diagnostics::error(codes::DELETE_PRIVATE_FIELD, n, 0, 0, contexts::NONE);
    };
    error_at(nodes, codes::DELETE_PRIVATE_FIELD, n, field, contexts::NONE)
}

// `delete` of the expression e.
#[tactic(auto, unfolding(crate::specs::Expressions::delete_of))]
fn delete_of(nodes: &Nodes, scopes: &[u32], n: NodeId, e: NodeId) -> Option<Finding>
    requires scoped { Scoped nodes.now scopes.now }
    requires n_bound { n.0 < count nodes.now }
    requires e_bound { e.0 < count nodes.now }
    ensures { result ≡ delete_of nodes.now scopes.now n.0 e.0 }
{
    match table_records::kind(nodes, e) {
        kinds::IDENTIFIER_REFERENCE => {
            if table_scoping::strict_mode(nodes, scopes, n) {
                return error_at(nodes, codes::DELETE_OF_UNQUALIFIED, n, e, contexts::NONE);
            }
            None
        }
        kinds::PRIVATE_FIELD => error_at(nodes, codes::DELETE_PRIVATE_FIELD, n, e, contexts::NONE),
        kinds::CHAIN => delete_of_chain(nodes, n, e),
        _ => None,
    }
}

// What may not be deleted.
// > It is a Syntax Error if IsStrict(the UnaryExpression) is true and the derived UnaryExpression is
// > PrimaryExpression : IdentifierReference, MemberExpression : MemberExpression . PrivateIdentifier,
// > CallExpression : CallExpression . PrivateIdentifier, OptionalChain : ?. PrivateIdentifier, OptionalChain : OptionalChain . PrivateIdentifier
// > PrimaryExpression : CoverParenthesizedExpressionAndArrowParameterList and [it] ultimately derives a phrase that, if used in place of UnaryExpression,
// > would produce a Syntax Error according to these rules. This rule is recursively applied.
#[tactic(auto, unfolding(crate::specs::Expressions::check_unary_expression))]
pub fn check_unary_expression(nodes: &Nodes, scopes: &[u32], n: NodeId) -> Option<Finding>
    requires scoped { Scoped nodes.now scopes.now }
    requires n_bound { n.0 < count nodes.now }
    ensures { result ≡ check_unary_expression nodes.now scopes.now n.0 }
{
    if !table_records::has_flag(table_records::flags(nodes, n), node_flag::DELETE) {
        return None;
    }
    let argument = table_children::value_of(nodes, n)?;
    let inner = get_inner_expression(nodes, argument);
    delete_of(nodes, scopes, n, inner)
}

// Whether a is a parameter, or the binding of a rest parameter.
#[tactic(auto, unfolding(crate::specs::Expressions::is_parameter))]
fn is_parameter(nodes: &Nodes, a: NodeId) -> bool
    requires a_bound { a.0 < count nodes.now }
    ensures { result ≡ is_parameter nodes.now a.0 }
{
    let k = table_records::kind(nodes, a);
    k == kinds::FORMAL_PARAMETER
        || k == kinds::BINDING_REST_ELEMENT
            && table_ancestry::parent_kind(nodes, a) == kinds::FORMAL_PARAMETER_REST
}

// Whether a parameter comes before a function on the way up.
#[tactic(auto, using(crate::proofs::ExpressionLaws::parameter_found, crate::proofs::ExpressionLaws::parameter_stop, crate::proofs::ExpressionLaws::parameter_on, crate::proofs::ExpressionLaws::parameter_root))]
fn is_in_formal_parameters(nodes: &Nodes, n: NodeId) -> bool
    requires n_bound { n.0 < count nodes.now }
    ensures { result ≡ in_formal_parameters nodes.now n.0 }
{
    let mut at = n;
    loop {
        if at.0 == 0 {
            break false;
        }
        at = table_ancestry::up(nodes, at);
        if is_parameter(nodes, at) {
            break true;
        }
        if let kinds::PROGRAM..=kinds::ARROW = table_records::kind(nodes, at) {
            break false;
        }
    }
}

#[tactic(auto, unfolding(crate::specs::Expressions::in_parameter))]
fn in_parameter(nodes: &Nodes, n: NodeId) -> Option<Finding>
    requires n_bound { n.0 < count nodes.now }
    ensures { result ≡ in_parameter nodes.now n.0 }
{
    if is_in_formal_parameters(nodes, n) {
        return error_at(
            nodes,
            codes::AWAIT_OR_YIELD_IN_PARAMETER,
            n,
            n,
            contexts::NONE,
        );
    }
    None
}

// `await` in a static block: the span is that of the word.
#[tactic(auto, unfolding(crate::specs::Expressions::in_block))]
fn in_block(nodes: &Nodes, scopes: &Scopes, n: NodeId) -> Option<Finding>
    requires scoped { Scoped nodes.now scopes.now }
    requires spanned { Spanned nodes.now }
    requires n_bound { n.0 < count nodes.now }
    ensures { result ≡ in_block nodes.now scopes.now n.0 }
{
    if table_scoping::is_in_class_static_block(nodes, scopes, n) {
        let start = table_records::span_start(nodes, n);
        return check_diagnostics::error(
            codes::CLASS_STATIC_BLOCK_AWAIT,
            n,
            start,
            start + 5,
            contexts::NONE,
        );
    }
    None
}

// `await` in parameters, and in a static block.
// > It is a Syntax Error if FormalParameters Contains AwaitExpression is true.
// > It is a Syntax Error if ClassStaticBlockStatementList Contains await is true.
pub fn check_await_expression(nodes: &Nodes, scopes: &Scopes, n: NodeId, findings: &mut Findings)
    requires scoped { Scoped nodes.now scopes.now }
    requires spanned { Spanned nodes.now }
    requires n_bound { n.0 < count nodes.now }
    requires raised_bound { findings.old.raised ≤ 900000000000 }
    ensures adds { Adds findings.old findings.new (check_await_expression nodes.now scopes.now n.0) }
    ensures upper_bound { findings.new.raised ≤ findings.old.raised + 14 }
{
    findings.raise(in_parameter(nodes, n));
    findings.raise(in_block(nodes, scopes, n));
}

// `yield` in parameters.
// > It is a Syntax Error if FormalParameters Contains YieldExpression is true.
pub fn check_yield_expression(nodes: &Nodes, n: NodeId) -> Option<Finding>
    requires n_bound { n.0 < count nodes.now }
    ensures { result ≡ check_yield_expression nodes.now n.0 }
{
    in_parameter(nodes, n)
}
