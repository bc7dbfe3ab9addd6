// Breaks, continues and labels: check_break_statement, check_continue_statement and check_labeled_statement of checker/javascript.rs.
#![tactic(auto)]

ghost use Rattle.std.specs.Prelude.{◌≡◌, ◌<◌, cond};
ghost use Rattle.table_records.specs.Table.{count};
ghost use Rattle.table_children.specs.Children.{below};
ghost use Rattle.check_jumps.specs.Jumps.{is_boundary, is_unit, is_iteration, walk_up, same_label, labeled_item, plain_break_at, no_label, labelled_break_at, plain_continue_at, continue_to, labelled_continue_at, labeled_at, check_break_statement, check_continue_statement, check_labeled_statement};

use check_diagnostics::{Finding, codes, contexts, error_at, error_between};
use table_names::named::NamedNodes;
use table_records::nodes::Nodes;
use table_records::{NodeId, kinds};

fn is_boundary(kind: u32) -> bool
    ensures { result ≡ is_boundary kind }
{
    matches!(kind, kinds::FUNCTION..=kinds::STATIC_BLOCK)
}

fn is_unit(kind: u32) -> bool
    ensures { result ≡ is_unit kind }
{
    matches!(kind, kinds::PROGRAM..=kinds::STATIC_BLOCK)
}

fn is_iteration_statement(kind: u32) -> bool
    ensures { result ≡ is_iteration kind }
{
    matches!(kind, kinds::FOR..=kinds::DO_WHILE)
}

// The label of a, where a is a Labeled with the name of this label.
#[tactic(auto, unfolding(crate::specs::Jumps::same_label))]
fn same_label(named: &NamedNodes, label: NodeId, a: NodeId) -> Option<NodeId>
    requires label_bound { label.0 < count named.now.nodes }
    requires a_bound { a.0 < count named.now.nodes }
    ensures value { result ≡ same_label named.now.nodes named.now.names label.0 a.0 }
    ensures below { below named.now.nodes result }
{
    let kind = table_records::kind(named.nodes, a);
    if kind != kinds::LABELED {
        return None;
    }
    let own = table_children::label_of(named.nodes, a)?;
    if table_names::same_name(named.nodes, named.names, own, label) {
        return Some(own);
    }
    None
}

// What a Labeled labels, through nested ones.
#[tactic(auto, using(crate::proofs::JumpsLaws::held_after_lem, crate::proofs::JumpsLaws::item_here, crate::proofs::JumpsLaws::item_none, crate::proofs::JumpsLaws::item_down))]
fn labeled_item(nodes: &Nodes, labeled: NodeId) -> NodeId
    requires labeled_bound { labeled.0 < count nodes.now }
    ensures result_value { result.0 ≡ labeled_item nodes.now labeled.0 }
    ensures result_bound { result.0 < count nodes.now }
{
    let mut target = labeled;
    loop {
        let kind = table_records::kind(nodes, target);
        if kind != kinds::LABELED {
            break target;
        }
        let Some(nested) = table_children::held_of(nodes, target) else {
            break target;
        };
        target = nested;
    }
}

// A break without a label, or else a continue: the nearest loop is its target, and of a break the nearest switch too. A flag and no closure for the test:
// the gate holds each walk up free of divisions (tests/walks.sh), and follows calls by name.
#[tactic(auto, using(crate::proofs::JumpsLaws::walk_up_lem, crate::proofs::JumpsLaws::walk_root), unfolding(crate::specs::Jumps::plain_break_at, crate::specs::Jumps::plain_continue_at))]
fn plain_jump(nodes: &Nodes, n: NodeId, is_break: bool) -> Option<Finding>
    requires n_bound { n.0 < count nodes.now }
    ensures { result ≡ walk_up nodes.now (cond is_break (plain_break_at nodes.now n.0) (plain_continue_at nodes.now n.0)) n.0 }
{
    let code = if is_break {
        codes::INVALID_BREAK
    } else {
        codes::INVALID_CONTINUE
    };
    let mut at = n;
    loop {
        if at.0 == 0 {
            break None;
        }
        at = table_ancestry::up(nodes, at);
        let kind = table_records::kind(nodes, at);
        if is_unit(kind) {
            break error_at(nodes, code, n, n, contexts::NONE);
        }
        if is_iteration_statement(kind) || is_break && kind == kinds::SWITCH {
            break None;
        }
    }
}

// A jump whose label is not found up to a unit of this kind.
#[tactic(auto, unfolding(crate::specs::Jumps::no_label))]
fn no_label(nodes: &[u32], n: NodeId, label: NodeId, kind: u32) -> Option<Finding>
    requires { label.0 < count nodes.now }
    ensures { result ≡ no_label nodes.now n.0 label.0 kind }
{
    if kind == kinds::PROGRAM {
        return error_at(nodes, codes::INVALID_LABEL_TARGET, n, label, contexts::NONE);
    }
    error_at(
        nodes,
        codes::INVALID_LABEL_JUMP_TARGET,
        n,
        label,
        contexts::NONE,
    )
}

#[tactic(auto, using(crate::proofs::JumpsLaws::walk_up_lem, crate::proofs::JumpsLaws::walk_root), unfolding(crate::specs::Jumps::labelled_break_at))]
fn labelled_break(named: &NamedNodes, n: NodeId, label: NodeId) -> Option<Finding>
    requires n_bound { n.0 < count named.now.nodes }
    requires label_bound { label.0 < count named.now.nodes }
    ensures { result ≡ walk_up named.now.nodes (labelled_break_at named.now.nodes named.now.names n.0 label.0) n.0 }
{
    let mut at = n;
    loop {
        if at.0 == 0 {
            break None;
        }
        at = table_ancestry::up(named.nodes, at);
        let kind = table_records::kind(named.nodes, at);
        if is_unit(kind) {
            break no_label(named.nodes, n, label, kind);
        }
        let Some(_) = same_label(named, label, at) else {
            continue;
        };
        break None;
    }
}

// A break has a target: without a label the nearest loop or switch, with one the nearest Labeled of that name.
// > It is a Syntax Error if this BreakStatement is not nested, directly or indirectly (but not crossing function or static initialization block
// > boundaries), within an IterationStatement or a SwitchStatement.
pub fn check_break_statement(named: &NamedNodes, n: NodeId) -> Option<Finding>
    requires n_bound { n.0 < count named.now.nodes }
    ensures { result ≡ check_break_statement named.now.nodes named.now.names n.0 }
{
    let Some(label) = table_children::label_of(named.nodes, n) else {
        return plain_jump(named.nodes, n, true);
    };
    labelled_break(named, n, label)
}

// A continue at the Labeled of its label's name, whose own label is `outer`.
#[tactic(auto, unfolding(crate::specs::Jumps::continue_to))]
fn continue_to(
    nodes: &Nodes,
    n: NodeId,
    label: NodeId,
    labeled: NodeId,
    outer: NodeId,
) -> Option<Finding>
    requires label_bound { label.0 < count nodes.now }
    requires labeled_bound { labeled.0 < count nodes.now }
    requires outer_bound { outer.0 < count nodes.now }
    ensures { result ≡ continue_to nodes.now n.0 label.0 labeled.0 outer.0 }
{
    let target = labeled_item(nodes, labeled);
    if is_iteration_statement(table_records::kind(nodes, target)) {
        return None;
    }
    error_between(nodes, codes::INVALID_LABEL_NON_ITERATION, n, outer, label)
}

#[tactic(auto, using(crate::proofs::JumpsLaws::walk_up_lem, crate::proofs::JumpsLaws::walk_root), unfolding(crate::specs::Jumps::labelled_continue_at))]
fn labelled_continue(named: &NamedNodes, n: NodeId, label: NodeId) -> Option<Finding>
    requires n_bound { n.0 < count named.now.nodes }
    requires label_bound { label.0 < count named.now.nodes }
    ensures { result ≡ walk_up named.now.nodes (labelled_continue_at named.now.nodes named.now.names n.0 label.0) n.0 }
{
    let mut at = n;
    loop {
        if at.0 == 0 {
            break None;
        }
        at = table_ancestry::up(named.nodes, at);
        let kind = table_records::kind(named.nodes, at);
        if is_unit(kind) {
            break no_label(named.nodes, n, label, kind);
        }
        let Some(outer) = same_label(named, label, at) else {
            continue;
        };
        break continue_to(named.nodes, n, label, at, outer);
    }
}

// A continue has a target: the nearest loop, with a label the loop that the nearest Labeled of that name labels.
// > It is a Syntax Error if this ContinueStatement is not nested, directly or indirectly (but not crossing function or static initialization block
// > boundaries), within an IterationStatement.
pub fn check_continue_statement(named: &NamedNodes, n: NodeId) -> Option<Finding>
    requires n_bound { n.0 < count named.now.nodes }
    ensures { result ≡ check_continue_statement named.now.nodes named.now.names n.0 }
{
    let Some(label) = table_children::label_of(named.nodes, n) else {
        return plain_jump(named.nodes, n, false);
    };
    labelled_continue(named, n, label)
}

#[tactic(auto, using(crate::proofs::JumpsLaws::walk_up_lem, crate::proofs::JumpsLaws::walk_root), unfolding(crate::specs::Jumps::labeled_at))]
fn redeclared_label(named: &NamedNodes, n: NodeId, label: NodeId) -> Option<Finding>
    requires n_bound { n.0 < count named.now.nodes }
    requires label_bound { label.0 < count named.now.nodes }
    ensures { result ≡ walk_up named.now.nodes (labeled_at named.now.nodes named.now.names n.0 label.0) n.0 }
{
    let mut at = n;
    loop {
        if at.0 == 0 {
            break None;
        }
        at = table_ancestry::up(named.nodes, at);
        if is_boundary(table_records::kind(named.nodes, at)) {
            break None;
        }
        let Some(outer) = same_label(named, label, at) else {
            continue;
        };
        break error_between(named.nodes, codes::LABEL_REDECLARATION, n, outer, label);
    }
}

// A label does not stand within a Labeled of the same name.
pub fn check_labeled_statement(named: &NamedNodes, n: NodeId) -> Option<Finding>
    requires n_bound { n.0 < count named.now.nodes }
    ensures { result ≡ check_labeled_statement named.now.nodes named.now.names n.0 }
{
    let label = table_children::label_of(named.nodes, n)?;
    redeclared_label(named, n, label)
}
