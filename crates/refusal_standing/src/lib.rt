// Refusal 13, a misplaced child: where a node of a kind and a role may stand.
#![tactic(auto)]

ghost use Rattle.std.specs.Prelude.{◌≡◌, ◌<◌};
ghost use Rattle.table_records.specs.Table.{count};
ghost use Rattle.refusal_verdict.specs.First.{first};
ghost use Rattle.refusal_standing.specs.Standing.{is_statement, may_be_statement, is_holder, is_held, stray_statement, stray_held, stray_alternate, stray_in_switch, stray_case, try_part, stray_in_try, stray_clause, stray_in_clause, stray_function_body, stray_class_body, stray_element, stray_value, misplaced_statement, misplaced_part, misplaced_element, misplaced, misplaced_child_at};

use table_records::nodes::Nodes;
use table_records::{NodeId, kinds, roles};

#[tactic(auto, unfolding(crate::specs::Standing::is_statement))]
pub fn is_statement(kind: u32) -> bool
    ensures { result ≡ is_statement kind }
{
    matches!(
        kind,
        kinds::BLOCK..=kinds::SWITCH | kinds::TRY | kinds::BREAK..=kinds::OTHER_STATEMENT
    )
}

// Kinds that are statements where they are held, and else are not.
#[tactic(auto, unfolding(crate::specs::Standing::may_be_statement))]
pub fn may_be_statement(kind: u32) -> bool
    ensures { result ≡ may_be_statement kind }
{
    matches!(
        kind,
        kinds::FUNCTION
            | kinds::VARIABLE_DECLARATION
            | kinds::CLASS
            | kinds::EXPORT_DEFAULT..=kinds::EXPORT_NAMED
    )
}

#[tactic(auto, unfolding(crate::specs::Standing::is_holder))]
pub fn is_holder(kind: u32) -> bool
    ensures { result ≡ is_holder kind }
{
    matches!(
        kind,
        kinds::PROGRAM | kinds::STATIC_BLOCK..=kinds::WITH | kinds::SWITCH_CASE..=kinds::CATCH_CLAUSE
    )
}

fn is_held(role: u32) -> bool
    ensures { result ≡ is_held role }
{
    matches!(role, roles::HELD..=roles::FINALLY)
}

// A child as it is judged: `above` is the kind of its parent.
#[derive(Clone, Copy)]
struct Child {
    kind: u32,
    role: u32,
    above: u32,
}

#[tactic(auto, unfolding(crate::specs::Standing::stray_statement))]
fn stray_statement(child: Child) -> bool
    ensures { result ≡ stray_statement child.kind child.role child.above }
{
    is_statement(child.kind) && !(is_held(child.role) && is_holder(child.above))
}

#[tactic(auto, unfolding(crate::specs::Standing::stray_held))]
fn stray_held(child: Child) -> bool
    ensures { result ≡ stray_held child.kind child.role child.above }
{
    let clause = child.kind == kinds::CATCH_CLAUSE && child.above == kinds::TRY;
    is_held(child.role)
        && is_holder(child.above)
        && !(is_statement(child.kind) || may_be_statement(child.kind) || clause)
}

#[tactic(auto, unfolding(crate::specs::Standing::stray_alternate))]
fn stray_alternate(child: Child) -> bool
    ensures { result ≡ stray_alternate child.role child.above }
{
    let of_if = child.above == kinds::IF && child.role == roles::ALTERNATE;
    matches!(child.role, roles::ALTERNATE..=roles::FINALLY) && !(child.above == kinds::TRY || of_if)
}

#[tactic(auto, unfolding(crate::specs::Standing::stray_in_switch))]
fn stray_in_switch(child: Child) -> bool
    ensures { result ≡ stray_in_switch child.kind child.role child.above }
{
    child.above == kinds::SWITCH && child.role == roles::HELD && child.kind != kinds::SWITCH_CASE
}

// This and `stray_clause` are a sentence of refusal 13 each, alike but for the numbers that they name.
#[tactic(auto, unfolding(crate::specs::Standing::stray_case))]
fn stray_case(child: Child) -> bool
    ensures { result ≡ stray_case child.kind child.role child.above }
{
    child.kind == kinds::SWITCH_CASE && !(child.above == kinds::SWITCH && child.role == roles::HELD)
}

// What a Try holds with a role.
#[tactic(auto, unfolding(crate::specs::Standing::try_part))]
fn try_part(role: u32) -> u32
    ensures { result ≡ try_part role }
{
    if role == roles::ALTERNATE {
        return kinds::CATCH_CLAUSE;
    }
    kinds::BLOCK
}

#[tactic(auto, unfolding(crate::specs::Standing::stray_in_try))]
fn stray_in_try(child: Child) -> bool
    ensures { result ≡ stray_in_try child.kind child.role child.above }
{
    child.above == kinds::TRY && is_held(child.role) && child.kind != try_part(child.role)
}

#[tactic(auto, unfolding(crate::specs::Standing::stray_clause))]
fn stray_clause(child: Child) -> bool
    ensures { result ≡ stray_clause child.kind child.role child.above }
{
    child.kind == kinds::CATCH_CLAUSE
        && !(child.above == kinds::TRY && child.role == roles::ALTERNATE)
}

#[tactic(auto, unfolding(crate::specs::Standing::stray_in_clause))]
fn stray_in_clause(child: Child) -> bool
    ensures { result ≡ stray_in_clause child.kind child.role child.above }
{
    child.above == kinds::CATCH_CLAUSE && child.role == roles::HELD && child.kind != kinds::BLOCK
}

#[tactic(auto, unfolding(crate::specs::Standing::stray_function_body))]
fn stray_function_body(child: Child) -> bool
    ensures { result ≡ stray_function_body child.kind child.above }
{
    child.kind == kinds::FUNCTION_BODY && !matches!(child.above, kinds::FUNCTION..=kinds::ARROW)
}

#[tactic(auto, unfolding(crate::specs::Standing::stray_class_body))]
fn stray_class_body(child: Child) -> bool
    ensures { result ≡ stray_class_body child.kind child.above }
{
    child.kind == kinds::CLASS_BODY && child.above != kinds::CLASS
}

#[tactic(auto, unfolding(crate::specs::Standing::stray_element))]
fn stray_element(child: Child) -> bool
    ensures { result ≡ stray_element child.kind child.above }
{
    let element = matches!(
        child.kind,
        kinds::METHOD_DEFINITION..=kinds::ACCESSOR_PROPERTY
    );
    (element || child.kind == kinds::STATIC_BLOCK) && child.above != kinds::CLASS_BODY
}

#[tactic(auto, unfolding(crate::specs::Standing::stray_value))]
fn stray_value(child: Child) -> bool
    ensures { result ≡ stray_value child.kind child.role child.above }
{
    child.above == kinds::METHOD_DEFINITION
        && child.role == roles::VALUE
        && child.kind != kinds::FUNCTION
}

#[tactic(auto, unfolding(crate::specs::Standing::misplaced_statement))]
fn misplaced_statement(child: Child) -> bool
    ensures { result ≡ misplaced_statement child.kind child.role child.above }
{
    stray_statement(child) || stray_held(child) || stray_alternate(child)
}

#[tactic(auto, unfolding(crate::specs::Standing::misplaced_part))]
fn misplaced_part(child: Child) -> bool
    ensures { result ≡ misplaced_part child.kind child.role child.above }
{
    stray_in_switch(child)
        || stray_case(child)
        || stray_in_try(child)
        || stray_clause(child)
        || stray_in_clause(child)
}

#[tactic(auto, unfolding(crate::specs::Standing::misplaced_element))]
fn misplaced_element(child: Child) -> bool
    ensures { result ≡ misplaced_element child.kind child.role child.above }
{
    stray_function_body(child)
        || stray_class_body(child)
        || stray_element(child)
        || stray_value(child)
}

// Whether a child is misplaced under its parent.
#[tactic(auto, unfolding(crate::specs::Standing::misplaced))]
pub fn misplaced(kind: u32, role: u32, above: u32) -> bool
    ensures { result ≡ misplaced kind role above }
{
    let child = Child { kind, role, above };
    misplaced_statement(child) || misplaced_part(child) || misplaced_element(child)
}

#[tactic(auto, unfolding(crate::specs::Standing::misplaced_child_at))]
pub fn misplaced_child_at(nodes: &Nodes, n: NodeId) -> bool
    requires n_bound { n.0 < count nodes.now }
    ensures { result ≡ misplaced_child_at nodes.now n.0 }
{
    let kind = table_records::kind(nodes, n);
    let role = table_records::role(nodes, n);
    let above = table_ancestry::parent_kind(nodes, n);
    0 < n.0 && misplaced(kind, role, above)
}

// The lowest misplaced child.
pub fn misplaced_child(nodes: &Nodes) -> Option<u32>
    ensures { result ≡ first (misplaced_child_at nodes.now) 0 (count nodes.now) }
{
    (0..table_records::size(nodes)).find(|&i| misplaced_child_at(nodes, NodeId(i)))
}
