// Refusal 15: a Return in a static block.
#![tactic(auto)]

ghost use Rattle.std.specs.Prelude.{◌≡◌, ◌<◌};
ghost use Rattle.table_records.specs.Table.{count};
ghost use Rattle.refusal_verdict.specs.First.{first};
ghost use Rattle.refusal_return.specs.Return.{return_in_static};

use table_records::nodes::Nodes;
use table_records::{NodeId, kinds};

// Whether n is a Return whose nearest unit is a static block.
#[tactic(auto, unfolding(crate::specs::Return::return_in_static))]
fn is_return_in_static(nodes: &Nodes, n: NodeId) -> bool
    requires n_bound { n.0 < count nodes.now }
    ensures { result ≡ return_in_static nodes.now n.0 }
{
    table_records::kind(nodes, n) == kinds::RETURN
        && matches!(
            table_ancestry::nearest(nodes, n, kinds::PROGRAM, kinds::STATIC_BLOCK),
            Some(unit) if table_records::kind(nodes, unit) == kinds::STATIC_BLOCK
        )
}

// The lowest Return in a static block.
pub fn return_in_static(nodes: &Nodes) -> Option<u32>
    ensures { result ≡ first (return_in_static nodes.now) 0 (count nodes.now) }
{
    (0..table_records::size(nodes)).find(|&i| is_return_in_static(nodes, NodeId(i)))
}
