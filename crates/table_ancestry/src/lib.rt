// Ancestors of a node, nearest first, and the scopes around a scope: node/ancestry.rs in its stack form, as walks over parents.
#![tactic(auto)]

ghost use Rattle.std.specs.Prelude.{◌≡◌, ◌<◌, ◌≤◌};
ghost use Rattle.base_walk.specs.On.{on};
ghost use Rattle.table_records.specs.Table.{count, kind_of, parent_of, count_scopes, scope_parent_of};
ghost use Rattle.table_records.specs.Facts.{Tree};
ghost use Rattle.table_children.specs.Children.{below};
ghost use Rattle.table_ancestry.specs.Ancestry.{nearest_of, has_ancestor};

use table_records::nodes::Nodes;
use table_records::scopes::Scopes;
use table_records::{NodeId, ScopeId};

// The parent of a node other than the program.
pub fn up(nodes: &Nodes, n: NodeId) -> NodeId
    requires n_nonzero { 0 < n.0 }
    requires n_bound { n.0 < count nodes.now }
    ensures tree { Tree nodes.now }
    ensures result_value { result.0 ≡ parent_of nodes.now n.0 }
    ensures result_lt_n { result.0 < n.0 }
{
    table_records::parent(nodes, n)
}

// The kind of a node's parent; the program is its own parent.
pub fn parent_kind(nodes: &Nodes, n: NodeId) -> u32
    requires n_bound { n.0 < count nodes.now }
    ensures { result ≡ kind_of nodes.now (parent_of nodes.now n.0) }
{
    table_records::kind(nodes, table_records::parent(nodes, n))
}

// Whether the number a is that of n or of an ancestor of it: at most 512 steps.
#[tactic(auto, using(base_walk::proofs::OnLaws::on_miss, crate::proofs::AncestryLaws::on_at))]
pub fn is_on_path(nodes: &Nodes, a: u32, n: NodeId) -> bool
    requires n_bound { n.0 < count nodes.now }
    ensures { result ≡ on (parent_of nodes.now) a n.0 }
{
    let numbers = nodes.numbers; // names the field, so that its invariant is known
    let mut at = n;
    while a < at.0 {
        at = table_records::parent(numbers, at);
    }
    at.0 == a
}

// The nearest ancestor with a kind from low to high.
pub fn nearest(nodes: &Nodes, n: NodeId, low: u32, high: u32) -> Option<NodeId>
    requires n_bound { n.0 < count nodes.now }
    ensures value { result ≡ nearest_of nodes.now low high n.0 }
    ensures below { below nodes.now result }
{
    let mut at = n;
    while 0 < at.0 {
        at = up(nodes, at);
        if (low..=high).contains(&table_records::kind(nodes, at)) {
            return Some(at);
        }
    }
    None
}

// Whether an ancestor has a kind from low to high.
#[tactic(auto, using(crate::proofs::AncestryLaws::nearest_some))]
pub fn has_ancestor(nodes: &Nodes, n: NodeId, low: u32, high: u32) -> bool
    requires n_bound { n.0 < count nodes.now }
    ensures { result ≡ has_ancestor nodes.now low high n.0 }
{
    nearest(nodes, n, low, high).is_some()
}

// The scope around a scope other than the outermost.
pub fn scope_up(scopes: &Scopes, s: ScopeId) -> ScopeId
    requires s_nonzero { 0 < s.0 }
    requires s_bound { s.0 < count_scopes scopes.now }
    ensures result_value { result.0 ≡ scope_parent_of scopes.now s.0 }
    ensures result_lt_s { result.0 < s.0 }
{
    table_records::scope_parent(scopes, s)
}
