// Refusal 5: the scopes, and the scope of each node.
#![tactic(auto)]

ghost use Rattle.std.specs.Prelude.{◌≡◌, ◌≤◌, ◌<◌, length};
ghost use Rattle.table_records.specs.Table.{count, count_scopes, IsTableSize};
ghost use Rattle.refusal_verdict.specs.First.{first};
ghost use Rattle.refusal_scopes.specs.Scopes.{broken_at, misscoped_at};
ghost use Rattle.refusal_scopes.specs.OwnScopes.{Meets, Deep, shares_scope};

use table_ancestry::is_on_path;
use table_records::nodes::Nodes;
use table_records::scopes::Scopes;
use table_records::{NodeId, ScopeId, kinds};

// No node has this number: there are at most 65,535. It stands in place of an Option: as Option<u32> the array of the chains' deepest nodes would take 512 KB
// of stack in place of 256, and velkunshe_check promises to need up to 420 KB (include/velkunshe.h); as Option<u16> it would take 256, but a node's number
// would be a u16 here alone.
const NO_NODE: u32 = 65535;

// For how many scopes the array has room: rules of an office have some dozens; the last is room for any table.
const FEW: usize = 256;

const SMALL: usize = 1024;

const MOST: usize = 65536;

// A number that is on the way up from a node just where both a and b are: the deeper of the two, or none.
#[tactic(auto, using(crate::proofs::ScopesLaws::meets_left, crate::proofs::ScopesLaws::meets_right, crate::proofs::ScopesLaws::meets_second, crate::proofs::ScopesLaws::meets_first, crate::proofs::ScopesLaws::meets_apart))]
fn meet(nodes: &Nodes, a: u32, b: u32) -> u32
    ensures { Meets nodes.now result a b }
{
    if !table_records::is_node(nodes, a) {
        return NO_NODE;
    }
    if !table_records::is_node(nodes, b) {
        return NO_NODE;
    }
    if is_on_path(nodes, a, NodeId(b)) {
        return b;
    }
    if is_on_path(nodes, b, NodeId(a)) {
        return a;
    }
    NO_NODE
}

// Whether the record of scope s is broken.
#[tactic(auto, unfolding(crate::specs::Scopes::broken_at))]
fn broken_at(scopes: &[u32], s: ScopeId) -> bool
    requires { s.0 < count_scopes scopes.now }
    ensures { result ≡ broken_at scopes.now s.0 }
{
    let above = table_records::scope_parent(scopes, s);
    let wrong_parent = if s.0 == 0 {
        above.0 != 0
    } else {
        s.0 <= above.0
    };
    31 < table_records::scope_flags(scopes, s) || wrong_parent
}

// The lowest scope whose record is broken.
pub fn broken(scopes: &[u32]) -> Option<u32>
    requires { IsTableSize (count_scopes scopes.now) }
    ensures { result ≡ first (broken_at scopes.now) 0 (count_scopes scopes.now) }
{
    (0..table_records::scopes_size(scopes)).find(|&s| broken_at(scopes, ScopeId(s)))
}

// For each scope the deepest node of its chain, or none where the chain's nodes lie on no one way up: so that no chain is walked for each node anew.
#[tactic(auto, using(std::proofs::lemmas::Grind::moves, crate::proofs::ScopesLaws::chain_root, crate::proofs::ScopesLaws::chain_up, crate::proofs::ScopesLaws::scope_falls))]
fn deepest(nodes: &Nodes, scopes: &Scopes, deep: &mut [u32])
    requires scopes_in_bounds { count_scopes scopes.now ≤ length deep.old }
    ensures { Deep nodes.now scopes.now deep.new (count_scopes scopes.now) }
{
    deep[0] = table_records::scope_node(scopes, ScopeId(0)).0;
    for s in 1..table_records::scopes_size(scopes) {
        let above = table_records::scope_parent(scopes, ScopeId(s));
        let node = table_records::scope_node(scopes, ScopeId(s));
        deep[s as usize] = meet(nodes, node.0, deep[above.0 as usize]);
    }
}

// Whether the scope of node n is missing or does not fit it.
#[tactic(auto, unfolding(crate::specs::Scopes::misscoped_at))]
fn misscoped_at(nodes: &Nodes, scopes: &Scopes, deep: &[u32], n: NodeId) -> bool
    requires scopes_in_bounds { count_scopes scopes.now ≤ length deep.now }
    requires deep { Deep nodes.now scopes.now deep.now (count_scopes scopes.now) }
    requires n_bound { n.0 < count nodes.now }
    ensures { result ≡ misscoped_at nodes.now scopes.now n.0 }
{
    let size = table_records::scopes_size(scopes);
    let s = table_records::scope(nodes, n);
    size <= s.0
        || (table_records::kind(nodes, n) == kinds::CLASS && size <= table_records::extra(nodes, n))
        || !is_on_path(nodes, deep[s.0 as usize], n)
}

// Whether node n stands in its parent's scope and has no scope of its own: where its parent's fits, so does its.
#[tactic(auto, unfolding(crate::specs::OwnScopes::shares_scope))]
fn shares_scope(nodes: &Nodes, n: NodeId) -> bool
    requires n_bound { n.0 < count nodes.now }
    ensures { result ≡ shares_scope nodes.now n.0 }
{
    let s = table_records::scope(nodes, table_records::parent(nodes, n));
    0 < n.0 && table_records::kind(nodes, n) != kinds::CLASS && table_records::scope(nodes, n) == s
}

// The lowest node whose scope is missing or does not fit it, over the filled array.
// A loop and no `find`: a node that shares its parent's scope fits since the nodes before it did, which a closure doesn't know.
#[tactic(auto, using(refusal_verdict::proofs::FirstLaws::first_on, refusal_verdict::proofs::FirstLaws::first_stop, refusal_verdict::proofs::FirstLaws::first_end, crate::proofs::ScopesLaws::shares_fits))]
fn misscoped_by(nodes: &Nodes, scopes: &Scopes, deep: &[u32]) -> Option<u32>
    requires scopes_in_bounds { count_scopes scopes.now ≤ length deep.now }
    requires deep { Deep nodes.now scopes.now deep.now (count_scopes scopes.now) }
    ensures { result ≡ first (misscoped_at nodes.now scopes.now) 0 (count nodes.now) }
{
    for i in 0..table_records::size(nodes) {
        let n = NodeId(i);
        if !shares_scope(nodes, n) && misscoped_at(nodes, scopes, deep, n) {
            return Some(i);
        }
    }
    None
}

// With an array of N numbers, which is on the stack while this function runs alone.
#[inline(never)]
fn misscoped_in<const N: usize>(nodes: &Nodes, scopes: &Scopes) -> Option<u32>
    requires scopes_in_bounds { count_scopes scopes.now ≤ N }
    requires small { N ≤ 65536 }
    ensures { result ≡ first (misscoped_at nodes.now scopes.now) 0 (count nodes.now) }
{
    let mut deep = [0; N];
    deepest(nodes, scopes, &mut deep);
    misscoped_by(nodes, scopes, &deep)
}

// The lowest node whose scope is missing or does not fit it.
pub fn misscoped(nodes: &Nodes, scopes: &Scopes) -> Option<u32>
    ensures { result ≡ first (misscoped_at nodes.now scopes.now) 0 (count nodes.now) }
{
    // an array that serves few scopes costs less to clear, and less of the stack
    let size = table_records::scopes_size(scopes);
    if size <= FEW as u32 {
        return misscoped_in::<FEW>(nodes, scopes);
    }
    if size <= SMALL as u32 {
        return misscoped_in::<SMALL>(nodes, scopes);
    }
    misscoped_in::<MOST>(nodes, scopes)
}
