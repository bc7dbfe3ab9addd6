// The public call `walk`, the second engine: a refusal (1 to 7, 9, 12 to 15), or the route of a unit by a walk of its statements. No code is made.
#![tactic(auto)]

ghost use Rattle.std.specs.Prelude.{◌≡◌, length};
ghost use Rattle.route_completion.specs.Route.{route};
ghost use Rattle.route_viewer.specs.Shown.{shown_answer, shown_slice};
ghost use Rattle.route_walk.specs.Walk.{Enterable};
ghost use Rattle.code_tree.specs.Statements.{unit_of};
ghost use Rattle.check_dispatch.specs.Lent.{rule_of};
ghost use Rattle.call_walk.specs.Walked.{walk_answer, walk_slice};

use check_dispatch::Rule;
use refusal_verdict::{Refusal, Refused};
use route_viewer::Route;
use table_records::NodeId;

// Walks a unit that is not refused: counts its list first, and writes it only where there is room for all of it.
#[tactic(auto, using(route_viewer::proofs::ShownLaws::short_answer, route_viewer::proofs::ShownLaws::short_slice, route_viewer::proofs::ShownLaws::whole_answer, route_viewer::proofs::ShownLaws::whole_slice))]
fn shown(
    nodes: &[u32],
    names: &[u8],
    u: NodeId,
    answers: &[u32],
    out: &mut [u32],
) -> Result<Route, Refused>
    requires { Enterable nodes.now names.now u.0 }
    ensures value { result ≡ shown_answer (route (unit_of nodes.now names.now u.0) answers.now) (length out.old) }
    ensures out_after { out.new ≡ shown_slice (route (unit_of nodes.now names.now u.0) answers.now) out.old }
{
    let mut none: [u32; 1] = [0; 1];
    let counted = route_walk::walk_unit(nodes, names, answers, &mut none, u);
    if (out.len() as u64) < counted.entries {
        return Err(Refused::Short(Refusal::RouteSlice, counted.entries));
    }
    let walked = route_walk::walk_unit(nodes, names, answers, out, u);
    let end = route_walk::end_of(walked.how);
    let route = Route {
        end,
        entries: walked.entries as usize,
        taken: walked.taken as u64,
    };
    Ok(route)
}

// Walks the statements of a unit over the answers, and shows the route.
#[tactic(auto, using(refusal_verdict::proofs::VerdictLaws::handed, crate::proofs::WalkedLaws::enterable), unfolding(crate::specs::Walked::walk_answer, crate::specs::Walked::walk_slice))]
pub fn walk(rule: &Rule, unit: u32, answers: &[u32], out: &mut [u32]) -> Result<Route, Refused>
    ensures value { result ≡ walk_answer (rule_of rule.now) unit answers.now (length out.old) }
    ensures out_after { out.new ≡ walk_slice (rule_of rule.now) unit answers.now out.old }
{
    call_routes::refusal(rule, unit)?;
    shown(rule.nodes, rule.names, NodeId(unit), answers, out)
}
