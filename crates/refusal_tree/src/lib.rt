// Refusal 3: the nodes are a tree in preorder, not too deep.
#![tactic(auto)]

ghost use Rattle.std.specs.Prelude.{◌≡◌, ◌+◌, ◌-◌, ◌<◌};
ghost use Rattle.table_records.specs.Table.{count, parent_of, depth_of, IsTableSize};
ghost use Rattle.base_walk.specs.Above.{Falls};
ghost use Rattle.refusal_verdict.specs.First.{first};
ghost use Rattle.refusal_tree.specs.Tree.{misplaced_at, depth_from, depth_if};

use table_records::{NodeId, kinds};

// The depth of p, which is `at` or an ancestor of it: from that of `at`, `depth`, one less for each step up.
#[tactic(auto, using(base_walk::proofs::OnLaws::on_miss, crate::proofs::TreeLaws::depth_up, crate::proofs::TreeLaws::from_hit, crate::proofs::TreeLaws::on_low, crate::proofs::TreeLaws::from_none))]
fn depth_from(nodes: &[u32], at: NodeId, depth: u32, p: u32) -> Option<u32>
    requires falls { Falls (parent_of nodes.now) (at.0 + 1) }
    requires at_bound { at.0 < count nodes.now }
    requires depth_value { depth ≡ depth_of nodes.now at.0 }
    ensures { result ≡ depth_from nodes.now at.0 p }
{
    let mut a = at;
    let mut d = depth;
    while p < a.0 {
        a = table_records::parent(nodes, a);
        d -= 1;
    }
    if a.0 == p { Some(d) } else { None }
}

// The depth of node i, where `depth` is that of the node before.
#[tactic(auto, using(crate::proofs::TreeLaws::at_program, crate::proofs::TreeLaws::at_stray))]
fn depth_at(nodes: &[u32], i: NodeId, depth: u32) -> Option<u32>
    requires falls { Falls (parent_of nodes.now) i.0 }
    requires i_nonzero { 0 < i.0 }
    requires i_bound { i.0 < count nodes.now }
    requires depth_value { depth ≡ depth_of nodes.now (i.0 - 1) }
    ensures { result ≡ depth_if nodes.now i.0 }
{
    if table_records::kind(nodes, i) == kinds::PROGRAM {
        return None;
    }
    let p = table_records::parent(nodes, i);
    let d = depth_from(nodes, NodeId(i.0 - 1), depth, p.0)?;
    if 511 < d {
        return None;
    }
    Some(d + 1)
}

// The lowest node that is out of place.
#[tactic(auto, using(refusal_verdict::proofs::FirstLaws::first_on, refusal_verdict::proofs::FirstLaws::first_stop, refusal_verdict::proofs::FirstLaws::first_end, crate::proofs::TreeLaws::depth_root, crate::proofs::TreeLaws::root_kind_lem, crate::proofs::TreeLaws::root_parent, crate::proofs::TreeLaws::root_fine, crate::proofs::TreeLaws::if_off))]
pub fn misplaced(nodes: &[u32]) -> Option<u32>
    requires { IsTableSize (count nodes.now) }
    ensures { result ≡ first (misplaced_at nodes.now) 0 (count nodes.now) }
{
    let root = NodeId(0);
    if table_records::kind(nodes, root) != kinds::PROGRAM {
        return Some(0);
    }
    if table_records::parent(nodes, root) != root {
        return Some(0);
    }
    let mut depth = 0;
    for i in 1..table_records::size(nodes) {
        let Some(d) = depth_at(nodes, NodeId(i), depth) else {
            return Some(i);
        };
        depth = d;
    }
    None
}
