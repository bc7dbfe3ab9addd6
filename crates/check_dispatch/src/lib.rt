// The dispatch by kind: the findings of a node, in the order of the Rust's checks, and of the tree.
#![tactic(auto)]

ghost use Rattle.std.specs.Prelude.{◌≡◌, ◌+◌, ◌<◌, ◌≤◌};
ghost use Rattle.table_records.specs.Table.{count};
ghost use Rattle.table_records.specs.Facts.{Input, Sourced};
ghost use Rattle.check_diagnostics.specs.Raises.{Adds, Raises};
ghost use Rattle.check_dispatch.specs.Findings.{findings_at};
ghost use Rattle.check_dispatch.specs.Lent.{rule_of, SameTable};
ghost use Rattle.check_dispatch.specs.Reported.{reported_at, reported};

use check_diagnostics::Findings;
use check_element_index::{Elements, Entry};
use table_names::named::NamedNodes;
use table_records::nodes::Nodes;
use table_records::scopes::Scopes;
use table_records::{NodeId, kinds};

// For how many nodes the arrays of the index have room: rules of an office have a hundred nodes and less, or some hundreds; the last is room for any table.
const FEW: usize = 128;

const SMALL: usize = 1024;

const LARGE: usize = 8192;

const MOST: usize = 65536;

// What a call is given of a rule, as it is lent: the source type, the option on async and generator bodies, and the tables.
#[derive(Clone, Copy)]
pub struct Rule<'a> {
    pub source_type: u32,
    pub async_bodies: u32,
    pub nodes: &'a [u32],
    pub scopes: &'a [u32],
    pub source: &'a [u8],
    pub names: &'a [u8],
}

// The findings of a node, by its kind: the `match` of mod.rs.
fn check_node(rule: &Rule, elements: &Elements, n: NodeId, findings: &mut Findings)
    requires input { Input rule.now.nodes.now rule.now.scopes.now rule.now.names.now }
    requires sourced { Sourced rule.now.nodes.now rule.now.source.now }
    requires same { SameTable rule.now elements.now }
    requires n_bound { n.0 < count rule.now.nodes.now }
    requires raised_bound { findings.old.raised ≤ 800000000000 }
    ensures adds { Adds findings.old findings.new (findings_at rule.now.source_type rule.now.nodes.now rule.now.scopes.now rule.now.source.now rule.now.names.now n.0) }
    ensures upper_bound { findings.new.raised ≤ findings.old.raised + 458780 }
{
    let tree = &Nodes {
        numbers: rule.nodes,
    };
    let chain = &Scopes {
        numbers: rule.scopes,
    };
    let named = &NamedNodes {
        nodes: tree,
        names: rule.names,
    };
    match table_records::kind(rule.nodes, n) {
        kinds::BINDING_IDENTIFIER => {
            let a = check_identifiers::check_identifier(
                rule.source_type,
                rule.nodes,
                rule.scopes,
                rule.names,
                n,
            );
            let b = check_identifiers::check_binding_identifier(
                rule.source_type,
                rule.nodes,
                rule.scopes,
                rule.names,
                n,
            );
            findings.raise_all(&[a, b]);
        }
        kinds::IDENTIFIER_REFERENCE => {
            let a = check_identifiers::check_identifier(
                rule.source_type,
                rule.nodes,
                rule.scopes,
                rule.names,
                n,
            );
            let b = check_identifiers::check_identifier_reference(
                rule.source_type,
                rule.nodes,
                rule.scopes,
                rule.names,
                n,
            );
            findings.raise_all(&[a, b]);
        }
        kinds::LABEL_IDENTIFIER => findings.raise(check_identifiers::check_identifier(
            rule.source_type,
            rule.nodes,
            rule.scopes,
            rule.names,
            n,
        )),
        kinds::PRIVATE_IDENTIFIER => findings.raise(
            check_classes::check_private_identifier_outside_class(tree, n),
        ),
        kinds::NUMERIC_LITERAL => findings.raise(check_literals::check_number_literal(
            rule.nodes,
            rule.scopes,
            rule.source,
            n,
        )),
        kinds::STRING_LITERAL => findings.raise(check_literals::check_string_literal(
            tree,
            rule.scopes,
            rule.source,
            n,
        )),
        kinds::DIRECTIVE => findings.raise(check_identifiers::check_directive(
            rule.nodes,
            rule.scopes,
            rule.names,
            n,
        )),
        kinds::WITH => {
            let a = check_statements::check_body(tree, rule.scopes, n);
            let b = check_statements::check_with_statement(
                rule.source_type,
                rule.nodes,
                rule.scopes,
                n,
            );
            findings.raise_all(&[a, b]);
        }
        kinds::BREAK => findings.raise(check_jumps::check_break_statement(named, n)),
        kinds::CONTINUE => findings.raise(check_jumps::check_continue_statement(named, n)),
        kinds::LABELED => {
            let a = check_jumps::check_labeled_statement(named, n);
            let b = check_statements::check_function_declaration_in_labeled_statement(
                tree,
                rule.scopes,
                n,
            );
            findings.raise_all(&[a, b]);
        }
        kinds::FOR_IN => {
            let a = check_statements::check_body(tree, rule.scopes, n);
            let b = check_statements::check_for_statement_left(tree, rule.scopes, n, true);
            findings.raise_all(&[a, b]);
        }
        kinds::FOR_OF => {
            let a = check_statements::check_body(tree, rule.scopes, n);
            let b = check_statements::check_for_of_statement(rule.nodes, chain, n);
            let d = check_statements::check_for_statement_left(tree, rule.scopes, n, false);
            findings.raise_all(&[a, b, d]);
        }
        // Three arms: one arm for the three kinds was tried, and its proof did not close.
        kinds::WHILE => findings.raise(check_statements::check_body(tree, rule.scopes, n)),
        kinds::DO_WHILE => findings.raise(check_statements::check_body(tree, rule.scopes, n)),
        kinds::FOR => findings.raise(check_statements::check_body(tree, rule.scopes, n)),
        kinds::IF => {
            let a = check_statements::check_consequent(tree, rule.scopes, n);
            let b = check_statements::check_alternate(tree, rule.scopes, n);
            findings.raise_all(&[a, b]);
        }
        kinds::CLASS => check_classes::check_class(elements, n, findings),
        kinds::SUPER => findings.raise(check_super_search::check_super(tree, chain, n)),
        kinds::AWAIT => check_expressions::check_await_expression(tree, chain, n, findings),
        kinds::OBJECT => check_expressions::check_object_expression(named, n, findings),
        kinds::UNARY => findings.raise(check_expressions::check_unary_expression(
            tree,
            rule.scopes,
            n,
        )),
        kinds::YIELD => findings.raise(check_expressions::check_yield_expression(tree, n)),
        kinds::VARIABLE_DECLARATION => {
            let a = check_statements::check_using(rule.source_type, rule.nodes, rule.scopes, n);
            let b = check_statements::check_await_using(rule.nodes, chain, n);
            findings.raise_all(&[a, b]);
        }
        _ => (),
    }
}

// The findings of a node, and with the option on those of async bodies behind them.
fn check_node_and_bodies(rule: &Rule, elements: &Elements, n: NodeId, findings: &mut Findings)
    requires input { Input rule.now.nodes.now rule.now.scopes.now rule.now.names.now }
    requires sourced { Sourced rule.now.nodes.now rule.now.source.now }
    requires same { SameTable rule.now elements.now }
    requires n_bound { n.0 < count rule.now.nodes.now }
    requires raised_bound { findings.old.raised ≤ 800000000000 }
    ensures adds { Adds findings.old findings.new (reported_at (rule_of rule.now) n.0) }
    ensures upper_bound { findings.new.raised ≤ findings.old.raised + 458794 }
{
    check_node(rule, elements, n, findings);
    if rule.async_bodies == 0 {
        return;
    }
    let tree = &Nodes {
        numbers: rule.nodes,
    };
    check_bodies::check_async_bodies(tree, rule.scopes, n, findings);
}

// The findings of the tree, over the index of its class elements.
fn check_tree_by(rule: &Rule, elements: &Elements, findings: &mut [u32]) -> usize
    requires input { Input rule.now.nodes.now rule.now.scopes.now rule.now.names.now }
    requires sourced { Sourced rule.now.nodes.now rule.now.source.now }
    requires same { SameTable rule.now elements.now }
    ensures { Raises findings.old findings.new 0 result (reported (rule_of rule.now)) }
{
    let mut all = Findings::new(findings);
    check_duplicates::check_duplicate_class_elements(elements, &mut all);
    for i in 0..table_records::size(rule.nodes) {
        check_node_and_bodies(rule, elements, NodeId(i), &mut all);
    }
    all.raised
}

// With an index of N buckets, and room for N nodes in it. It stands by itself, so that no call makes room for larger arrays than its own.
#[inline(never)]
fn check_tree_within<const N: usize>(rule: &Rule, findings: &mut [u32]) -> usize
    requires input { Input rule.now.nodes.now rule.now.scopes.now rule.now.names.now }
    requires sourced { Sourced rule.now.nodes.now rule.now.source.now }
    requires nodes_bound { count rule.now.nodes.now ≤ N }
    requires size_bound { N ≤ 65536 }
    ensures { Raises findings.old findings.new 0 result (reported (rule_of rule.now)) }
{
    let tree = &Nodes {
        numbers: rule.nodes,
    };
    let named = &NamedNodes {
        nodes: tree,
        names: rule.names,
    };
    let mut last: [u16; N] = [0; N];
    let mut entries: [Entry; N] = [Entry { earlier: 0, key: 0 }; N];
    check_element_index::build(rule.source_type, named, &mut last, &mut entries);
    let elements = Elements {
        source_type: rule.source_type,
        named,
        last: &last,
        entries: &entries,
    };
    check_tree_by(rule, &elements, findings)
}

// The findings of the tree, each written where there is room for it; answers how many numbers they are.
pub fn check_tree(rule: &Rule, findings: &mut [u32]) -> usize
    requires input { Input rule.now.nodes.now rule.now.scopes.now rule.now.names.now }
    requires sourced { Sourced rule.now.nodes.now rule.now.source.now }
    ensures { Raises findings.old findings.new 0 result (reported (rule_of rule.now)) }
{
    // the smallest arrays with room, since they are cleared
    if table_records::is_node(rule.nodes, LARGE as u32) {
        return check_tree_within::<MOST>(rule, findings);
    }
    if table_records::is_node(rule.nodes, SMALL as u32) {
        return check_tree_within::<LARGE>(rule, findings);
    }
    if table_records::is_node(rule.nodes, FEW as u32) {
        return check_tree_within::<SMALL>(rule, findings);
    }
    check_tree_within::<FEW>(rule, findings)
}
