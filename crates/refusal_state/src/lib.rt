// Refusals 7 and 9: what is named as unit, and findings of the tree.
#![tactic(auto)]

ghost use Rattle.std.specs.Prelude.{◌≡◌};
ghost use Rattle.table_records.specs.Facts.{Input, Sourced};
ghost use Rattle.check_dispatch.specs.Lent.{rule_of};
ghost use Rattle.refusal_state.specs.Targets.{names_unit, state_place, unit_refusal, state_answer};

use check_dispatch::Rule;
use refusal_verdict::{Refusal, Refused};
use table_records::{NodeId, kinds};

// Whether a number names a unit: a Program, a Function, an Arrow or a StaticBlock.
#[tactic(auto, unfolding(crate::specs::Targets::names_unit))]
fn names_unit(nodes: &[u32], u: u32) -> bool
    ensures { result ≡ names_unit nodes.now u }
{
    table_records::is_node(nodes, u)
        && matches!(
            table_records::kind(nodes, NodeId(u)),
            kinds::PROGRAM..=kinds::STATIC_BLOCK,
        )
}

// Refusal 7.
#[tactic(auto, unfolding(crate::specs::Targets::unit_refusal))]
pub fn unit_refusal(nodes: &[u32], u: u32) -> Result<(), Refused>
    ensures { result ≡ unit_refusal nodes.now u }
{
    if !names_unit(nodes, u) {
        return Err(Refused::At(Refusal::Unit, u));
    }
    Ok(())
}

// The place of refusal 9. Where there are no findings each jump has its target, so that none is sought.
#[tactic(auto, using(crate::proofs::TargetsLaws::place_none, crate::proofs::TargetsLaws::place_some))]
pub fn state_place(rule: &Rule) -> Option<u32>
    requires input { Input rule.now.nodes.now rule.now.scopes.now rule.now.names.now }
    requires sourced { Sourced rule.now.nodes.now rule.now.source.now }
    ensures { result ≡ state_place (rule_of rule.now) }
{
    let mut first: [u32; 7] = [0; 7];
    let written = check_dispatch::check_tree(rule, &mut first);
    if written == 0 {
        return None;
    }
    Some(first[1])
}

// Refusals 7 and 9 of well-formed tables, in their order.
#[tactic(auto, unfolding(crate::specs::Targets::state_answer))]
pub fn state_refusal(rule: &Rule, u: u32) -> Result<(), Refused>
    requires input { Input rule.now.nodes.now rule.now.scopes.now rule.now.names.now }
    requires sourced { Sourced rule.now.nodes.now rule.now.source.now }
    ensures { result ≡ state_answer (rule_of rule.now) u }
{
    unit_refusal(rule.nodes, u)?;
    let place = state_place(rule);
    Refusal::Findings.at(place)
}
