// Statements and declarations: the checks of checker/javascript.rs on functions in statement position, with, for heads, `for await` and `using`.
#![tactic(auto)]

ghost use Rattle.std.specs.Prelude.{◌≡◌, ◌<◌, None};
ghost use Rattle.table_records.specs.Table.{count};
ghost use Rattle.table_records.specs.Facts.{Scoped, Spanned};
ghost use Rattle.table_children.specs.Children.{below, when_found};
ghost use Rattle.check_statements.specs.Statements.{check_function_declaration, check_body, check_consequent, check_alternate, labelled_function, check_labeled_item, check_function_declaration_in_labeled_statement, check_with_statement, check_initialiser, check_left, check_for_statement_left, check_for_of_statement, check_using, check_await_using};

use check_diagnostics::{Finding, codes, contexts, error, error_at};
use table_children::Part;
use table_records::nodes::Nodes;
use table_records::scopes::Scopes;
use table_records::{NodeId, extras, kinds, node_flag, roles, scope_flag};

// A function declaration as the statement that n holds.
#[tactic(auto, unfolding(crate::specs::Statements::check_function_declaration))]
pub fn check_function_declaration(
    nodes: &[u32],
    scopes: &[u32],
    n: NodeId,
    stmt: NodeId,
    is_if_stmt_or_labeled_stmt: bool,
) -> Option<Finding>
    requires scoped { Scoped nodes.now scopes.now }
    requires n_bound { n.0 < count nodes.now }
    requires stmt_bound { stmt.0 < count nodes.now }
    ensures { result ≡ check_function_declaration nodes.now scopes.now n.0 is_if_stmt_or_labeled_stmt stmt.0 }
{
    if table_records::kind(nodes, stmt) != kinds::FUNCTION {
        return None;
    }
    if table_scoping::strict_mode(nodes, scopes, n) {
        return error_at(
            nodes,
            codes::FUNCTION_DECLARATION_STRICT,
            n,
            stmt,
            contexts::NONE,
        );
    }
    if is_if_stmt_or_labeled_stmt {
        return None;
    }
    error_at(
        nodes,
        codes::FUNCTION_DECLARATION_NON_STRICT,
        n,
        stmt,
        contexts::NONE,
    )
}

// The same of a statement that was looked for.
fn check_found(
    nodes: &[u32],
    scopes: &[u32],
    n: NodeId,
    found: Option<NodeId>,
    is_if_stmt_or_labeled_stmt: bool,
) -> Option<Finding>
    requires scoped { Scoped nodes.now scopes.now }
    requires n_bound { n.0 < count nodes.now }
    requires below { below nodes.now found }
    ensures { result ≡ when_found found (check_function_declaration nodes.now scopes.now n.0 is_if_stmt_or_labeled_stmt) None }
{
    check_function_declaration(nodes, scopes, n, found?, is_if_stmt_or_labeled_stmt)
}

// The body of a With or a loop.
pub fn check_body(nodes: &Nodes, scopes: &[u32], n: NodeId) -> Option<Finding>
    requires scoped { Scoped nodes.now scopes.now }
    requires n_bound { n.0 < count nodes.now }
    ensures { result ≡ check_body nodes.now scopes.now n.0 }
{
    check_found(nodes, scopes, n, table_children::held_of(nodes, n), false)
}

// The consequent of an If. It and the alternate are one call each over what they share, `check_found`.
pub fn check_consequent(nodes: &Nodes, scopes: &[u32], n: NodeId) -> Option<Finding>
    requires scoped { Scoped nodes.now scopes.now }
    requires n_bound { n.0 < count nodes.now }
    ensures { result ≡ check_consequent nodes.now scopes.now n.0 }
{
    check_found(nodes, scopes, n, table_children::held_of(nodes, n), true)
}

// The alternate of an If, where it has one.
pub fn check_alternate(nodes: &Nodes, scopes: &[u32], n: NodeId) -> Option<Finding>
    requires scoped { Scoped nodes.now scopes.now }
    requires n_bound { n.0 < count nodes.now }
    ensures { result ≡ check_alternate nodes.now scopes.now n.0 }
{
    check_found(
        nodes,
        scopes,
        n,
        table_children::alternate_of(nodes, n),
        true,
    )
}

// A labelled function in sloppy code: past nested labels, no loop, If or With holds it.
#[tactic(auto, using(crate::proofs::StatementsLaws::function_on, crate::proofs::StatementsLaws::function_held, crate::proofs::StatementsLaws::function_free, crate::proofs::StatementsLaws::function_root), unfolding(crate::specs::Statements::labelled_function))]
fn labelled_function(nodes: &Nodes, n: NodeId, function: NodeId) -> Option<Finding>
    requires n_bound { n.0 < count nodes.now }
    requires function_bound { function.0 < count nodes.now }
    ensures { result ≡ labelled_function nodes.now n.0 function.0 n.0 }
{
    let mut at = n;
    loop {
        if at.0 == 0 {
            break None;
        }
        at = table_ancestry::up(nodes, at);
        match table_records::kind(nodes, at) {
            kinds::LABELED => {}
            kinds::FOR..=kinds::WITH => {
                break error_at(
                    nodes,
                    codes::FUNCTION_DECLARATION_NON_STRICT,
                    n,
                    function,
                    contexts::NONE,
                );
            }
            _ => break None,
        }
    }
}

#[tactic(auto, unfolding(crate::specs::Statements::check_labeled_item))]
fn check_labeled_item(nodes: &Nodes, scopes: &[u32], n: NodeId, item: NodeId) -> Option<Finding>
    requires scoped { Scoped nodes.now scopes.now }
    requires n_bound { n.0 < count nodes.now }
    requires item_bound { item.0 < count nodes.now }
    ensures { result ≡ check_labeled_item nodes.now scopes.now n.0 item.0 }
{
    if table_records::kind(nodes, item) != kinds::FUNCTION {
        return None;
    }
    if table_scoping::strict_mode(nodes, scopes, n) {
        return error_at(
            nodes,
            codes::FUNCTION_DECLARATION_STRICT,
            n,
            item,
            contexts::NONE,
        );
    }
    labelled_function(nodes, n, item)
}

// A function declaration as the statement of a Labeled. Its body is that of check_labeled_statement (check_jumps) by chance: each goes on with a check of its own.
// > It is a Syntax Error if IsLabelledFunction(Statement) is true.
pub fn check_function_declaration_in_labeled_statement(
    nodes: &Nodes,
    scopes: &[u32],
    n: NodeId,
) -> Option<Finding>
    requires scoped { Scoped nodes.now scopes.now }
    requires n_bound { n.0 < count nodes.now }
    ensures { result ≡ check_function_declaration_in_labeled_statement nodes.now scopes.now n.0 }
{
    let item = table_children::held_of(nodes, n)?;
    check_labeled_item(nodes, scopes, n, item)
}

// No With in strict code, nor in TypeScript.
#[tactic(auto, unfolding(crate::specs::Statements::check_with_statement))]
pub fn check_with_statement(
    source_type: u32,
    nodes: &[u32],
    scopes: &[u32],
    n: NodeId,
) -> Option<Finding>
    requires scoped { Scoped nodes.now scopes.now }
    requires spanned { Spanned nodes.now }
    requires n_bound { n.0 < count nodes.now }
    ensures { result ≡ check_with_statement source_type nodes.now scopes.now n.0 }
{
    let typescript = table_source::is_typescript(source_type);
    let strict = table_scoping::strict_mode(nodes, scopes, n);
    if typescript || strict {
        let start = table_records::span_start(nodes, n);
        return error(codes::WITH_STATEMENT, n, start, start + 4, contexts::NONE);
    }
    None
}

// A declarator in the head of a ForIn or a ForOf, the only one of its declaration.
#[tactic(auto, unfolding(crate::specs::Statements::check_initialiser))]
fn check_initialiser(
    nodes: &[u32],
    scopes: &[u32],
    n: NodeId,
    is_for_in: bool,
    decl: NodeId,
    declarator: NodeId,
) -> Option<Finding>
    requires scoped { Scoped nodes.now scopes.now }
    requires n_bound { n.0 < count nodes.now }
    requires decl_bound { decl.0 < count nodes.now }
    requires declarator_bound { declarator.0 < count nodes.now }
    ensures { result ≡ check_initialiser nodes.now scopes.now n.0 is_for_in decl.0 declarator.0 }
{
    let flags = table_records::flags(nodes, declarator);
    let strict_var = table_scoping::strict_mode(nodes, scopes, n)
        && table_records::extra(nodes, decl) == extras::VAR;
    let other = !is_for_in || !table_records::has_flag(flags, node_flag::PLAIN_NAME);
    let has_init = table_records::has_flag(flags, node_flag::INITIALISER);
    if has_init && (strict_var || other) {
        return error_at(
            nodes,
            codes::UNEXPECTED_INITIALIZER_IN_FOR_LOOP_HEAD,
            n,
            decl,
            contexts::NONE,
        );
    }
    None
}

#[tactic(auto, unfolding(crate::specs::Statements::check_left))]
fn check_left(
    nodes: &Nodes,
    scopes: &[u32],
    n: NodeId,
    is_for_in: bool,
    decl: NodeId,
) -> Option<Finding>
    requires scoped { Scoped nodes.now scopes.now }
    requires n_bound { n.0 < count nodes.now }
    requires decl_bound { decl.0 < count nodes.now }
    ensures { result ≡ check_left nodes.now scopes.now n.0 is_for_in decl.0 }
{
    if table_records::kind(nodes, decl) != kinds::VARIABLE_DECLARATION {
        return None;
    }
    let declarators = table_children::how_many(
        nodes,
        decl,
        Part::of_kind(kinds::VARIABLE_DECLARATOR),
    );
    if declarators > 1 {
        return None;
    }
    let declarator = table_children::first_child(
        nodes,
        decl,
        Part::of_kind(kinds::VARIABLE_DECLARATOR),
    )?;
    check_initialiser(nodes, scopes, n, is_for_in, decl, declarator)
}

// The left of a ForIn or a ForOf: where its declaration may have an initialiser.
pub fn check_for_statement_left(
    nodes: &Nodes,
    scopes: &[u32],
    n: NodeId,
    is_for_in: bool,
) -> Option<Finding>
    requires scoped { Scoped nodes.now scopes.now }
    requires n_bound { n.0 < count nodes.now }
    ensures { result ≡ check_for_statement_left nodes.now scopes.now n.0 is_for_in }
{
    let decl = table_children::first_child(nodes, n, Part::of_role(roles::LEFT))?;
    check_left(nodes, scopes, n, is_for_in, decl)
}

// No `for await` in a static block.
// > ClassStaticBlockBody : ClassStaticBlockStatementList
// >   It is a Syntax Error if ClassStaticBlockStatementList Contains await is true.
#[tactic(auto, unfolding(crate::specs::Statements::check_for_of_statement))]
pub fn check_for_of_statement(nodes: &[u32], scopes: &Scopes, n: NodeId) -> Option<Finding>
    requires scoped { Scoped nodes.now scopes.now }
    requires n_bound { n.0 < count nodes.now }
    ensures { result ≡ check_for_of_statement nodes.now scopes.now n.0 }
{
    let waits = table_records::has_flag(table_records::flags(nodes, n), node_flag::FOR_AWAIT);
    if waits && table_scoping::is_in_class_static_block(nodes, scopes, n) {
        return error_at(
            nodes,
            codes::CLASS_STATIC_BLOCK_FOR_AWAIT,
            n,
            n,
            contexts::NONE,
        );
    }
    None
}

// The first half of check_variable_declaration: no `using` at the top level of a script.
#[tactic(auto, unfolding(crate::specs::Statements::check_using))]
pub fn check_using(source_type: u32, nodes: &[u32], scopes: &[u32], n: NodeId) -> Option<Finding>
    requires scoped { Scoped nodes.now scopes.now }
    requires n_bound { n.0 < count nodes.now }
    ensures { result ≡ check_using source_type nodes.now scopes.now n.0 }
{
    let using = matches!(
        table_records::extra(nodes, n),
        extras::USING..=extras::AWAIT_USING
    );
    let top = table_records::has_flag(
        table_scoping::current_scope_flags(nodes, scopes, n),
        scope_flag::TOP,
    );
    if using && source_type == 0 && top {
        return error_at(
            nodes,
            codes::USING_DECLARATION_NOT_ALLOWED_IN_SCRIPT,
            n,
            n,
            contexts::NONE,
        );
    }
    None
}

// The second half: no `await using` in a static block.
#[tactic(auto, unfolding(crate::specs::Statements::check_await_using))]
pub fn check_await_using(nodes: &[u32], scopes: &Scopes, n: NodeId) -> Option<Finding>
    requires scoped { Scoped nodes.now scopes.now }
    requires n_bound { n.0 < count nodes.now }
    ensures { result ≡ check_await_using nodes.now scopes.now n.0 }
{
    let await_using = table_records::extra(nodes, n) == extras::AWAIT_USING;
    if await_using && table_scoping::is_in_class_static_block(nodes, scopes, n) {
        return error_at(
            nodes,
            codes::CLASS_STATIC_BLOCK_AWAIT_USING,
            n,
            n,
            contexts::NONE,
        );
    }
    None
}
