// The public call `check`: the refusals of the input (1 to 6, 13, 14) and 10, or the findings.
#![tactic(auto)]

ghost use Rattle.std.specs.Prelude.{◌≡◌, ◌*◌, ◌≤◌, length};
ghost use Rattle.table_records.specs.Facts.{Input, Sourced};
ghost use Rattle.check_dispatch.specs.Lent.{rule_of};
ghost use Rattle.check_dispatch.specs.Reported.{reported};
ghost use Rattle.call_check.specs.Check.{report_answer, report_slice, check_answer, check_slice};

use check_dispatch::Rule;
use refusal_verdict::{Refusal, Refused};

// How many numbers of findings are kept while they are counted: those of 256 findings. A rule with more is gone over twice.
const FEW: usize = 1792;

// How many findings well-formed tables have, seven numbers each, written from the slice's start: counted first, and written only where there is room for all.
#[tactic(auto, using(crate::proofs::CheckLaws::answer_short, crate::proofs::CheckLaws::slice_short, crate::proofs::CheckLaws::answer_room, crate::proofs::CheckLaws::slice_room, crate::proofs::CheckLaws::slice_copied))]
fn report(rule: &Rule, findings: &mut [u32]) -> Result<usize, Refused>
    requires input { Input rule.now.nodes.now rule.now.scopes.now rule.now.names.now }
    requires sourced { Sourced rule.now.nodes.now rule.now.source.now }
    ensures value { result ≡ report_answer (reported (rule_of rule.now)) (length findings.old) }
    ensures findings_after { findings.new ≡ report_slice (reported (rule_of rule.now)) findings.old }
{
    let mut few: [u32; FEW] = [0; FEW];
    let needed = check_dispatch::check_tree(rule, &mut few);
    if findings.len() < needed {
        return Err(Refused::Short(Refusal::FindingsSlice, needed as u64));
    }
    if needed <= FEW {
        findings[..needed].copy_from_slice(&few[..needed]);
        return Ok(needed / 7);
    }
    let written = check_dispatch::check_tree(rule, findings);
    Ok(written / 7)
}

// Checks the tables of a rule, and says how many findings it wrote.
#[tactic(auto, using(refusal_input::proofs::InputLaws::input_well_formed, refusal_verdict::proofs::VerdictLaws::handed), unfolding(crate::specs::Check::check_answer, crate::specs::Check::check_slice))]
pub fn check(rule: &Rule, findings: &mut [u32]) -> Result<usize, Refused>
    ensures value { result ≡ check_answer (rule_of rule.now) (length findings.old) }
    ensures findings_after { findings.new ≡ check_slice (rule_of rule.now) findings.old }
{
    refusal_input::refusal(
        rule.source_type,
        rule.nodes,
        rule.scopes,
        rule.source,
        rule.names,
    )?;
    report(rule, findings)
}
