// Identifiers and directives: names that a place may not have.
#![tactic(auto)]

ghost use Rattle.std.specs.Prelude.{◌≡◌, ◌<◌};
ghost use Rattle.table_records.specs.Table.{count, scope_of, scope_node_of};
ghost use Rattle.table_records.specs.Facts.{Scoped, Named, Input};
ghost use Rattle.check_identifiers.specs.Identifiers.{strict_context, await_finding, is_strict_word, check_identifier, is_eval_or_arguments, let_bound, let_from, check_binding_identifier, is_field_value, arguments_from, is_invalid_target, check_identifier_reference, is_not_simple, check_directive};

use check_diagnostics::{Finding, codes, contexts, error_at};
use table_ancestry::{has_ancestor, up};
use table_names::name_is;
use table_records::nodes::Nodes;
use table_records::{NodeId, extras, kinds, node_flag, scope_flag};
use table_scoping::{current_scope_flags, strict_mode};
use table_source::is_module;

// Why strict code has a name reserved: a class, a module, or neither.
#[tactic(auto, unfolding(crate::specs::Identifiers::strict_context))]
fn unexpected_identifier_assign_context(source_type: u32, nodes: &Nodes, n: NodeId) -> u32
    requires n_bound { n.0 < count nodes.now }
    ensures { result ≡ strict_context source_type nodes.now n.0 }
{
    if has_ancestor(nodes, n, kinds::CLASS, kinds::CLASS) {
        return contexts::CLASS;
    }
    if is_module(source_type) {
        return contexts::MODULE;
    }
    contexts::STRICT_MODE
}

// `await` as a name.
// > It is a Syntax Error if the goal symbol of the syntactic grammar is Module and the StringValue of IdentifierName is "await".
// > It is a Syntax Error if ClassStaticBlockStatementList Contains await is true.
#[tactic(auto, unfolding(crate::specs::Identifiers::await_finding))]
fn check_await(source_type: u32, nodes: &[u32], scopes: &[u32], n: NodeId) -> Option<Finding>
    requires scoped { Scoped nodes.now scopes.now }
    requires n_bound { n.0 < count nodes.now }
    ensures { result ≡ await_finding source_type nodes.now scopes.now n.0 }
{
    if is_module(source_type) {
        return error_at(nodes, codes::RESERVED_KEYWORD, n, n, contexts::MODULE_AWAIT);
    }
    if table_records::has_flag(
        current_scope_flags(nodes, scopes, n),
        scope_flag::STATIC_BLOCK_SCOPE,
    ) {
        return error_at(nodes, codes::CLASS_STATIC_BLOCK_AWAIT, n, n, contexts::NONE);
    }
    None
}

// Whether a name is reserved in strict code.
// > It is a Syntax Error if this phrase is contained in strict mode code and the StringValue of IdentifierName is: "implements", "interface", "let",
// > "package", "private", "protected", "public", "static", or "yield".
#[tactic(auto, unfolding(crate::specs::Identifiers::is_strict_word))]
pub fn is_strict_word(nodes: &[u32], names: &[u8], n: NodeId) -> bool
    requires named { Named nodes.now names.now }
    requires n_bound { n.0 < count nodes.now }
    ensures { result ≡ is_strict_word nodes.now names.now n.0 }
{
    name_is(nodes, names, n, b"implements")
        || name_is(nodes, names, n, b"interface")
        || name_is(nodes, names, n, b"let")
        || name_is(nodes, names, n, b"package")
        || name_is(nodes, names, n, b"private")
        || name_is(nodes, names, n, b"protected")
        || name_is(nodes, names, n, b"public")
        || name_is(nodes, names, n, b"static")
        || name_is(nodes, names, n, b"yield")
}

// A reserved word is no name.
#[tactic(auto, unfolding(crate::specs::Identifiers::check_identifier))]
pub fn check_identifier(
    source_type: u32,
    nodes: &[u32],
    scopes: &[u32],
    names: &[u8],
    n: NodeId,
) -> Option<Finding>
    requires input { Input nodes.now scopes.now names.now }
    requires n_bound { n.0 < count nodes.now }
    ensures { result ≡ check_identifier source_type nodes.now scopes.now names.now n.0 }
{
    let tree = &Nodes { numbers: nodes };
    if name_is(nodes, names, n, b"await") {
        return check_await(source_type, nodes, scopes, n);
    }
    if !is_strict_word(nodes, names, n) {
        return None;
    }
    if !strict_mode(nodes, scopes, n) {
        return None;
    }
    let context = unexpected_identifier_assign_context(source_type, tree, n);
    error_at(nodes, codes::RESERVED_KEYWORD, n, n, context)
}

fn is_eval_or_arguments(nodes: &[u32], names: &[u8], n: NodeId) -> bool
    requires named { Named nodes.now names.now }
    requires n_bound { n.0 < count nodes.now }
    ensures { result ≡ is_eval_or_arguments nodes.now names.now n.0 }
{
    name_is(nodes, names, n, b"eval") || name_is(nodes, names, n, b"arguments")
}

// `let` as the name n that the declaration d binds: `var` may.
fn let_bound(nodes: &[u32], n: NodeId, d: NodeId) -> Option<Finding>
    requires n_bound { n.0 < count nodes.now }
    requires d_bound { d.0 < count nodes.now }
    ensures { result ≡ let_bound nodes.now n.0 d.0 }
{
    if table_records::extra(nodes, d) == extras::VAR {
        return None;
    }
    error_at(nodes, codes::INVALID_LET_DECLARATION, n, n, contexts::NONE)
}

// `let` as a name in sloppy code: the nearest declaration, if no function comes first, is no lexical one.
// > LexicalDeclaration : LetOrConst BindingList ;
// > * It is a Syntax Error if the BoundNames of BindingList contains "let".
#[tactic(auto, using(crate::proofs::IdentifierLaws::let_found, crate::proofs::IdentifierLaws::let_function, crate::proofs::IdentifierLaws::let_on, crate::proofs::IdentifierLaws::let_root))]
fn let_declared(nodes: &Nodes, n: NodeId) -> Option<Finding>
    requires n_bound { n.0 < count nodes.now }
    ensures { result ≡ let_from nodes.now n.0 n.0 }
{
    let mut at = n;
    loop {
        if at.0 == 0 {
            break None;
        }
        at = up(nodes, at);
        match table_records::kind(nodes, at) {
            kinds::VARIABLE_DECLARATION => break let_bound(nodes, n, at),
            kinds::FUNCTION..=kinds::ARROW => break None,
            _ => {}
        }
    }
}

// What a binding may not be called.
#[tactic(auto, unfolding(crate::specs::Identifiers::check_binding_identifier))]
pub fn check_binding_identifier(
    source_type: u32,
    nodes: &[u32],
    scopes: &[u32],
    names: &[u8],
    n: NodeId,
) -> Option<Finding>
    requires input { Input nodes.now scopes.now names.now }
    requires n_bound { n.0 < count nodes.now }
    ensures { result ≡ check_binding_identifier source_type nodes.now scopes.now names.now n.0 }
{
    let tree = &Nodes { numbers: nodes };
    if strict_mode(nodes, scopes, n) {
        if is_eval_or_arguments(nodes, names, n) {
            let context = unexpected_identifier_assign_context(source_type, tree, n);
            return error_at(nodes, codes::UNEXPECTED_IDENTIFIER_ASSIGN, n, n, context);
        }
        return None;
    }
    if name_is(nodes, names, n, b"let") {
        return let_declared(tree, n);
    }
    None
}

// Whether v is the initialiser of the field p.
#[tactic(auto, unfolding(crate::specs::Identifiers::is_field_value))]
fn is_field_value(nodes: &Nodes, p: NodeId, v: NodeId) -> bool
    requires p_bound { p.0 < count nodes.now }
    ensures { result ≡ is_field_value nodes.now p.0 v.0 }
{
    if table_records::kind(nodes, p) != kinds::PROPERTY_DEFINITION {
        return false;
    }
    let Some(m) = table_children::value_of(nodes, p) else {
        return false;
    };
    m == v
}

// `arguments` in a class: no function comes before a field's initialiser or a static block.
// > FieldDefinition : ClassElementName Initializeropt
// >   It is a Syntax Error if Initializer is present and ContainsArguments of Initializer is true.
// > ClassStaticBlockBody : ClassStaticBlockStatementList
// >   It is a Syntax Error if ContainsArguments of ClassStaticBlockStatementList is true.
#[tactic(auto, using(crate::proofs::IdentifierLaws::arguments_function, crate::proofs::IdentifierLaws::arguments_found, crate::proofs::IdentifierLaws::arguments_on, crate::proofs::IdentifierLaws::arguments_root))]
fn arguments_in_class(nodes: &Nodes, n: NodeId) -> Option<Finding>
    requires n_bound { n.0 < count nodes.now }
    ensures { result ≡ arguments_from nodes.now n.0 n.0 }
{
    let numbers = nodes.numbers; // names the field, so that its invariant is known
    let mut previous = n;
    loop {
        if previous.0 == 0 {
            break None;
        }
        let at = up(nodes, previous);
        let k = table_records::kind(numbers, at);
        if k == kinds::FUNCTION {
            break None;
        }
        if k == kinds::STATIC_BLOCK || is_field_value(nodes, at, previous) {
            break error_at(numbers, codes::UNEXPECTED_ARGUMENTS, n, n, contexts::NONE);
        }
        previous = at;
    }
}

// Whether strict code writes to `eval` or `arguments`.
fn is_invalid_target(nodes: &[u32], scopes: &[u32], names: &[u8], n: NodeId) -> bool
    requires input { Input nodes.now scopes.now names.now }
    requires n_bound { n.0 < count nodes.now }
    ensures { result ≡ is_invalid_target nodes.now scopes.now names.now n.0 }
{
    let written = table_records::has_flag(table_records::flags(nodes, n), node_flag::WRITTEN);
    written && is_eval_or_arguments(nodes, names, n) && strict_mode(nodes, scopes, n)
}

// Where `eval` and `arguments` may not be written to, and `arguments` not be named.
#[tactic(auto, unfolding(crate::specs::Identifiers::check_identifier_reference))]
pub fn check_identifier_reference(
    source_type: u32,
    nodes: &[u32],
    scopes: &[u32],
    names: &[u8],
    n: NodeId,
) -> Option<Finding>
    requires input { Input nodes.now scopes.now names.now }
    requires n_bound { n.0 < count nodes.now }
    ensures { result ≡ check_identifier_reference source_type nodes.now scopes.now names.now n.0 }
{
    let tree = &Nodes { numbers: nodes };
    if is_invalid_target(nodes, scopes, names, n) {
        let context = unexpected_identifier_assign_context(source_type, tree, n);
        return error_at(nodes, codes::UNEXPECTED_IDENTIFIER_ASSIGN, n, n, context);
    }
    if !name_is(nodes, names, n, b"arguments") {
        return None;
    }
    if !has_ancestor(tree, n, kinds::CLASS_BODY, kinds::CLASS_BODY) {
        return None;
    }
    arguments_in_class(tree, n)
}

// The node whose scope is current at n: n itself or one above it.
#[tactic(auto, using(crate::proofs::IdentifierLaws::scope_node_below))]
fn current_scope_node(nodes: &Nodes, scopes: &[u32], n: NodeId) -> NodeId
    requires scoped { Scoped nodes.now scopes.now }
    requires n_bound { n.0 < count nodes.now }
    ensures result_value { result.0 ≡ scope_node_of scopes.now (scope_of nodes.now n.0) }
    ensures result_bound { result.0 < count nodes.now }
{
    table_records::scope_node(scopes, table_records::scope(nodes, n))
}

// Whether f is a function or an arrow whose parameters are not simple.
fn is_not_simple(nodes: &[u32], f: NodeId) -> bool
    requires { f.0 < count nodes.now }
    ensures { result ≡ is_not_simple nodes.now f.0 }
{
    let simple = table_records::has_flag(
        table_records::flags(nodes, f),
        node_flag::SIMPLE_PARAMETERS,
    );
    matches!(
        table_records::kind(nodes, f),
        kinds::FUNCTION..=kinds::ARROW
    ) && !simple
}

// A function whose parameters are not simple has no "use strict".
// > It is a Syntax Error if FunctionBodyContainsUseStrict of AsyncFunctionBody is true and IsSimpleParameterList of FormalParameters is false.
#[tactic(auto, unfolding(crate::specs::Identifiers::check_directive))]
pub fn check_directive(nodes: &[u32], scopes: &[u32], names: &[u8], n: NodeId) -> Option<Finding>
    requires input { Input nodes.now scopes.now names.now }
    requires n_bound { n.0 < count nodes.now }
    ensures { result ≡ check_directive nodes.now scopes.now names.now n.0 }
{
    let tree = &Nodes { numbers: nodes };
    if !name_is(nodes, names, n, b"use strict") {
        return None;
    }
    if !table_records::has_flag(
        current_scope_flags(nodes, scopes, n),
        scope_flag::FUNCTION_SCOPE,
    ) {
        return None;
    }
    if !is_not_simple(nodes, current_scope_node(tree, scopes, n)) {
        return None;
    }
    error_at(nodes, codes::ILLEGAL_USE_STRICT, n, n, contexts::NONE)
}
