// The public calls `code` and `route`: a refusal (1 to 7, 9, 11 to 15), or the flat code of a unit, or its route.
#![tactic(auto)]

ghost use Rattle.std.specs.Prelude.{◌≡◌, ◌≤◌, length, take};
ghost use Rattle.code_flat.specs.Code.{unit as code_of};
ghost use Rattle.code_tree.specs.Statements.{unit_of};
ghost use Rattle.code_assemble.specs.Assembled.{assembled_slice};
ghost use Rattle.code_assemble.specs.Ready.{Ready};
ghost use Rattle.check_dispatch.specs.Lent.{rule_of};
ghost use Rattle.call_routes.specs.Calls.{code_refusal, code_answer, code_slice, route_answer, route_slice};
ghost use Rattle.call_routes.specs.Made.{made_answer, made_slice};

use check_dispatch::Rule;
use refusal_verdict::Refused;
use route_viewer::Route;
use table_records::NodeId;

// The refusals of both calls before 11, of the walk and of the calls of marks. Its body is that of check (call_check) by chance: behind the refusals of the
// tables that one reports findings, this one asks for those of a unit.
#[tactic(auto, using(refusal_input::proofs::InputLaws::input_well_formed, refusal_verdict::proofs::VerdictLaws::handed), unfolding(crate::specs::Calls::code_refusal))]
pub fn refusal(rule: &Rule, unit: u32) -> Result<(), Refused>
    ensures { result ≡ code_refusal (rule_of rule.now) unit }
{
    refusal_input::refusal(
        rule.source_type,
        rule.nodes,
        rule.scopes,
        rule.source,
        rule.names,
    )?;
    refusal_state::state_refusal(rule, unit)
}

// Makes the flat code of a unit, and says how many numbers it wrote.
#[tactic(auto, using(refusal_verdict::proofs::VerdictLaws::handed, crate::proofs::CallsLaws::ready, crate::proofs::CallsLaws::exact, crate::proofs::CallsLaws::by_room), unfolding(crate::specs::Calls::code_answer, crate::specs::Calls::code_slice, code_assemble::specs::Assembled::assembled, code_assemble::specs::Assembled::assembled_slice))]
pub fn code(rule: &Rule, unit: u32, code: &mut [u32]) -> Result<usize, Refused>
    ensures value { result ≡ code_answer (rule_of rule.now) unit (length code.old) }
    ensures code_after { code.new ≡ code_slice (rule_of rule.now) unit code.old }
{
    refusal(rule, unit)?;
    code_assemble::code_unit(rule.nodes, rule.names, NodeId(unit), code)
}

// The first n numbers.
pub fn front(s: &[u32], n: usize) -> &[u32]
    requires { n ≤ length s.now }
    ensures { result.now ≡ take n s.now }
{
    &s[..n]
}

// Makes the code of a unit that is not refused, runs it, and shows the route, where the code slice has room.
#[tactic(auto, using(crate::proofs::CallsLaws::code_route_lem, crate::proofs::CallsLaws::front_code, crate::proofs::CallsLaws::over_length, crate::proofs::CallsLaws::told_code, crate::proofs::CallsLaws::told_short, crate::proofs::CallsLaws::slice_over, crate::proofs::CallsLaws::made_room, crate::proofs::CallsLaws::kept_room, crate::proofs::CallsLaws::made_short, crate::proofs::CallsLaws::kept_short, refusal_verdict::proofs::VerdictLaws::handed))]
fn made(
    nodes: &[u32],
    names: &[u8],
    u: NodeId,
    answers: &[u32],
    code: &mut [u32],
    out: &mut [u32],
) -> Result<Route, Refused>
    requires { Ready nodes.now names.now u.0 }
    ensures value { result ≡ made_answer (unit_of nodes.now names.now u.0) answers.now (length code.old) (length out.old) }
    ensures code_after { code.new ≡ assembled_slice (code_of (unit_of nodes.now names.now u.0)) code.old }
    ensures out_after { out.new ≡ made_slice (unit_of nodes.now names.now u.0) answers.now (length code.old) out.old }
{
    let n = code_assemble::code_unit(nodes, names, u, code)?;
    route_viewer::show(front(code, n), answers, out)
}

// Makes the flat code of a unit, runs it over the answers, and shows the route.
#[tactic(auto, using(refusal_verdict::proofs::VerdictLaws::handed, crate::proofs::CallsLaws::ready, crate::proofs::CallsLaws::exact, crate::proofs::CallsLaws::by_room), unfolding(crate::specs::Calls::route_answer, crate::specs::Calls::code_slice, crate::specs::Calls::route_slice, code_assemble::specs::Assembled::assembled_slice, crate::specs::Made::made_answer, crate::specs::Made::made_slice))]
pub fn route(
    rule: &Rule,
    unit: u32,
    answers: &[u32],
    code: &mut [u32],
    out: &mut [u32],
) -> Result<Route, Refused>
    ensures value { result ≡ route_answer (rule_of rule.now) unit answers.now (length code.old) (length out.old) }
    ensures code_after { code.new ≡ code_slice (rule_of rule.now) unit code.old }
    ensures out_after { out.new ≡ route_slice (rule_of rule.now) unit answers.now (length code.old) out.old }
{
    refusal(rule, unit)?;
    made(rule.nodes, rule.names, NodeId(unit), answers, code, out)
}
