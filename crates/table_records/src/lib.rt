// The node table, ten numbers to a node, and the scope table, three numbers to a scope.
#![tactic(auto)]

ghost use Rattle.std.specs.Prelude.{◌≡◌, ◌<◌, ltb};
ghost use Rattle.table_records.specs.Table.{count, kind_of, parent_of, role_of, span_start_of, span_end_of, name_start_of, name_len_of, scope_of, flags_of, extra_of, count_scopes, scope_parent_of, scope_flags_of, scope_node_of, IsTableSize, has_flag};

pub mod extras;
pub mod kinds;
pub mod node_flag;
pub mod nodes;
pub mod roles;
pub mod scope_flag;
pub mod scopes;

// A node, by its place in the node table: a number, as in the Rust and in document 01, since lent tables hold any numbers. A type of the ids within one table,
// in place of `n.0 < count nodes.now`, would carry that table by a lifetime and a ghost list through each struct and array that holds ids: no plainer.
#[derive(Clone, Copy, PartialEq, Eq)]
pub struct NodeId(pub u32);

// A scope, by its place in the scope table.
#[derive(Clone, Copy, PartialEq, Eq)]
pub struct ScopeId(pub u32);

// A class, by the place of its ClassBody in the node table: classes are declared in that order.
#[derive(Clone, Copy, PartialEq, Eq)]
pub struct ClassId(pub u32);

// An element of a class, by its place in the node table.
#[derive(Clone, Copy, PartialEq, Eq)]
pub struct ElementId(pub u32);

// Classes and elements are told by nodes: the ids go over into one another by their number. A scope's goes into none of them.
impl From<ClassId> for NodeId {
    ghost from_gives = { λ c n. n ≡ record { 0 = c.0 } };

    fn from(c: ClassId) -> NodeId {
        NodeId(c.0)
    }
}

impl From<NodeId> for ClassId {
    ghost from_gives = { λ n c. c ≡ record { 0 = n.0 } };

    fn from(n: NodeId) -> ClassId {
        ClassId(n.0)
    }
}

impl From<ElementId> for NodeId {
    ghost from_gives = { λ e n. n ≡ record { 0 = e.0 } };

    fn from(e: ElementId) -> NodeId {
        NodeId(e.0)
    }
}

impl From<NodeId> for ElementId {
    ghost from_gives = { λ n e. e ≡ record { 0 = n.0 } };

    fn from(n: NodeId) -> ElementId {
        ElementId(n.0)
    }
}

// How many nodes there are.
pub fn size(nodes: &[u32]) -> u32
    requires { IsTableSize (count nodes.now) }
    ensures { result ≡ count nodes.now }
{
    (nodes.len() / 10) as u32
}

// Whether there is a node of this number: without a division, so that a search may ask it at each turn.
pub fn is_node(nodes: &[u32], n: u32) -> bool
    ensures { result ≡ ltb n (count nodes.now) }
{
    n as usize * 10 + 9 < nodes.len()
}

// The readers of a record are one index each, of the column that each is named for.
pub fn kind(nodes: &[u32], n: NodeId) -> u32
    requires { n.0 < count nodes.now }
    ensures { result ≡ kind_of nodes.now n.0 }
{
    nodes[n.0 as usize * 10]
}

pub fn parent(nodes: &[u32], n: NodeId) -> NodeId
    requires { n.0 < count nodes.now }
    ensures { result.0 ≡ parent_of nodes.now n.0 }
{
    NodeId(nodes[n.0 as usize * 10 + 1])
}

pub fn role(nodes: &[u32], n: NodeId) -> u32
    requires { n.0 < count nodes.now }
    ensures { result ≡ role_of nodes.now n.0 }
{
    nodes[n.0 as usize * 10 + 2]
}

pub fn span_start(nodes: &[u32], n: NodeId) -> u32
    requires { n.0 < count nodes.now }
    ensures { result ≡ span_start_of nodes.now n.0 }
{
    nodes[n.0 as usize * 10 + 3]
}

pub fn span_end(nodes: &[u32], n: NodeId) -> u32
    requires { n.0 < count nodes.now }
    ensures { result ≡ span_end_of nodes.now n.0 }
{
    nodes[n.0 as usize * 10 + 4]
}

pub fn scope(nodes: &[u32], n: NodeId) -> ScopeId
    requires { n.0 < count nodes.now }
    ensures { result.0 ≡ scope_of nodes.now n.0 }
{
    ScopeId(nodes[n.0 as usize * 10 + 5])
}

pub fn flags(nodes: &[u32], n: NodeId) -> u32
    requires { n.0 < count nodes.now }
    ensures { result ≡ flags_of nodes.now n.0 }
{
    nodes[n.0 as usize * 10 + 6]
}

pub fn extra(nodes: &[u32], n: NodeId) -> u32
    requires { n.0 < count nodes.now }
    ensures { result ≡ extra_of nodes.now n.0 }
{
    nodes[n.0 as usize * 10 + 7]
}

pub fn name_start(nodes: &[u32], n: NodeId) -> usize
    requires { n.0 < count nodes.now }
    ensures { result ≡ name_start_of nodes.now n.0 }
{
    nodes[n.0 as usize * 10 + 8] as usize
}

pub fn name_len(nodes: &[u32], n: NodeId) -> usize
    requires { n.0 < count nodes.now }
    ensures { result ≡ name_len_of nodes.now n.0 }
{
    nodes[n.0 as usize * 10 + 9] as usize
}

// How many scopes there are.
pub fn scopes_size(scopes: &[u32]) -> u32
    requires { IsTableSize (count_scopes scopes.now) }
    ensures { result ≡ count_scopes scopes.now }
{
    (scopes.len() / 3) as u32
}

pub fn scope_parent(scopes: &[u32], s: ScopeId) -> ScopeId
    requires { s.0 < count_scopes scopes.now }
    ensures { result.0 ≡ scope_parent_of scopes.now s.0 }
{
    ScopeId(scopes[s.0 as usize * 3])
}

pub fn scope_flags(scopes: &[u32], s: ScopeId) -> u32
    requires { s.0 < count_scopes scopes.now }
    ensures { result ≡ scope_flags_of scopes.now s.0 }
{
    scopes[s.0 as usize * 3 + 1]
}

pub fn scope_node(scopes: &[u32], s: ScopeId) -> NodeId
    requires { s.0 < count_scopes scopes.now }
    ensures { result.0 ≡ scope_node_of scopes.now s.0 }
{
    NodeId(scopes[s.0 as usize * 3 + 2])
}

// Whether a flag is in a sum of flags.
pub fn has_flag(sum: u32, flag: u32) -> bool
    ensures { result ≡ has_flag sum flag }
{
    sum & flag != 0
}
