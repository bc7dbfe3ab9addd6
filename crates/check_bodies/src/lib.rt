// Async functions and generators as bodies of an If or a label, which the Rust leaves to its parser.
#![tactic(auto)]

ghost use Rattle.std.specs.Prelude.{◌≡◌, ◌+◌, ◌<◌, ◌≤◌, None};
ghost use Rattle.table_records.specs.Table.{count};
ghost use Rattle.table_records.specs.Facts.{Scoped};
ghost use Rattle.check_diagnostics.specs.Raises.{Adds};
ghost use Rattle.table_children.specs.Children.{below, when_found};
ghost use Rattle.check_bodies.specs.Bodies.{check_async_body, async_bodies_at};

use check_diagnostics::{Finding, Findings, contexts, error_at};
use table_records::nodes::Nodes;
use table_records::{NodeId, kinds};

// The flag of an async function or a generator.
pub const ASYNC_OR_GENERATOR: u32 = 8192;

// The code of one that is a body.
pub const ASYNC_BODY: u32 = 34;

// A statement that n holds, where it was found.
#[tactic(auto, unfolding(crate::specs::Bodies::check_async_body))]
fn check_async_body(nodes: &[u32], n: NodeId, found: Option<NodeId>) -> Option<Finding>
    requires { below nodes.now found }
    ensures { result ≡ when_found found (check_async_body nodes.now n.0) None }
{
    let stmt = found?;
    if table_records::kind(nodes, stmt) == kinds::FUNCTION
        && table_records::has_flag(table_records::flags(nodes, stmt), ASYNC_OR_GENERATOR)
    {
        return error_at(nodes, ASYNC_BODY, n, stmt, contexts::NONE);
    }
    None
}

// The bodies of an If or a Labeled in sloppy code.
#[tactic(auto, using(check_diagnostics::proofs::RaisesLaws::of_two, check_diagnostics::proofs::RaisesLaws::adds_none), unfolding(crate::specs::Bodies::async_bodies_at))]
pub fn check_async_bodies(nodes: &Nodes, scopes: &[u32], n: NodeId, findings: &mut Findings)
    requires scoped { Scoped nodes.now scopes.now }
    requires n_bound { n.0 < count nodes.now }
    requires raised_bound { findings.old.raised ≤ 900000000000 }
    ensures adds { Adds findings.old findings.new (async_bodies_at nodes.now scopes.now n.0) }
    ensures upper_bound { findings.new.raised ≤ findings.old.raised + 14 }
{
    let numbers = nodes.numbers;
    if table_scoping::strict_mode(numbers, scopes, n) {
        return;
    }
    match table_records::kind(numbers, n) {
        kinds::IF => {
            let a = check_async_body(numbers, n, table_children::held_of(nodes, n));
            let b = check_async_body(numbers, n, table_children::alternate_of(nodes, n));
            findings.raise_all(&[a, b]);
        }
        kinds::LABELED => {
            let a = check_async_body(numbers, n, table_children::held_of(nodes, n));
            findings.raise(a);
        }
        _ => (),
    }
}
