// What the scope of a node says of its code.
#![tactic(auto)]

ghost use Rattle.std.specs.Prelude.{◌≡◌, ◌<◌};
ghost use Rattle.table_records.specs.Table.{count, scope_of, scope_flags_of, count_scopes};
ghost use Rattle.table_records.specs.Facts.{Scoped};
ghost use Rattle.table_scoping.specs.Scoping.{is_strict, in_static_block, in_class_static_block};

use table_records::scopes::Scopes;
use table_records::{NodeId, ScopeId, scope_flag};

// The flags of the scope that is current at a node.
pub fn current_scope_flags(nodes: &[u32], scopes: &[u32], n: NodeId) -> u32
    requires scoped { Scoped nodes.now scopes.now }
    requires n_bound { n.0 < count nodes.now }
    ensures { result ≡ scope_flags_of scopes.now (scope_of nodes.now n.0) }
{
    table_records::scope_flags(scopes, table_records::scope(nodes, n))
}

// Whether the code of a node is strict.
pub fn strict_mode(nodes: &[u32], scopes: &[u32], n: NodeId) -> bool
    requires scoped { Scoped nodes.now scopes.now }
    requires n_bound { n.0 < count nodes.now }
    ensures { result ≡ is_strict nodes.now scopes.now n.0 }
{
    table_records::has_flag(current_scope_flags(nodes, scopes, n), scope_flag::STRICT)
}

// Whether, from this scope outward, a static block comes before a function.
#[tactic(auto, using(crate::proofs::ScopingLaws::static_here, crate::proofs::ScopingLaws::static_function, crate::proofs::ScopingLaws::static_up, crate::proofs::ScopingLaws::static_root))]
fn in_static_block(scopes: &Scopes, s: ScopeId) -> bool
    requires s_bound { s.0 < count_scopes scopes.now }
    ensures { result ≡ in_static_block scopes.now s.0 }
{
    let mut at = s;
    loop {
        let flags = table_records::scope_flags(scopes, at);
        if table_records::has_flag(flags, scope_flag::STATIC_BLOCK_SCOPE) {
            break true;
        }
        if table_records::has_flag(flags, scope_flag::FUNCTION_SCOPE) {
            break false;
        }
        if at.0 == 0 {
            break false;
        }
        at = table_ancestry::scope_up(scopes, at);
    }
}

// Whether a node is in a static block, with no function between.
pub fn is_in_class_static_block(nodes: &[u32], scopes: &Scopes, n: NodeId) -> bool
    requires scoped { Scoped nodes.now scopes.now }
    requires n_bound { n.0 < count nodes.now }
    ensures { result ≡ in_class_static_block nodes.now scopes.now n.0 }
{
    in_static_block(scopes, table_records::scope(nodes, n))
}
