// The public call `shared`: the code call's refusals, or the length of the longest beginning that the routes for two lists of answers share.
#![tactic(auto)]

ghost use Rattle.std.specs.Prelude.{◌≡◌, length};
ghost use Rattle.check_dispatch.specs.Lent.{rule_of};
ghost use Rattle.call_routes.specs.Calls.{code_slice};
ghost use Rattle.call_shared.specs.Shared.{shared_answer};

use check_dispatch::Rule;
use refusal_verdict::Refused;

// Makes the flat code of a unit, and runs it over both lists of answers in step.
#[tactic(auto, using(crate::proofs::SharedLaws::shared_by, crate::proofs::SharedLaws::shared_by_lem, crate::proofs::SharedLaws::inside, refusal_verdict::proofs::VerdictLaws::handed))]
pub fn shared(
    rule: &Rule,
    unit: u32,
    first: &[u32],
    second: &[u32],
    code: &mut [u32],
) -> Result<u64, Refused>
    ensures value { result ≡ shared_answer (rule_of rule.now) unit first.now second.now (length code.old) }
    ensures code_after { code.new ≡ code_slice (rule_of rule.now) unit code.old }
{
    let n = call_routes::code(rule, unit, code)?;
    let made = call_routes::front(code, n);
    Ok(route_shared::shared_entries(made, first, second))
}
