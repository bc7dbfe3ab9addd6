// Names: compared with one another and with words that are written out.
#![tactic(auto)]

ghost use Rattle.std.specs.Prelude.{◌≡◌, ◌<◌};
ghost use Rattle.table_records.specs.Table.{count};
ghost use Rattle.table_records.specs.Facts.{Named};
ghost use Rattle.table_names.specs.Name.{same, name_of, same_name, name_is};

use table_records::NodeId;

pub mod named;

// Whether two strings of bytes are the same.
#[tactic(auto, using(crate::proofs::NameLaws::same_slices))]
pub fn same(a: &[u8], b: &[u8]) -> bool
    ensures { result ≡ same a.now b.now }
{
    a == b
}

// The name of a node.
#[tactic(auto, unfolding(crate::specs::Name::name_of))]
pub fn name<'a>(nodes: &[u32], names: &'a [u8], n: NodeId) -> &'a [u8]
    requires named { Named nodes.now names.now }
    requires n_bound { n.0 < count nodes.now }
    ensures { result.now ≡ name_of nodes.now names.now n.0 }
{
    let start = table_records::name_start(nodes, n);
    let end = start + table_records::name_len(nodes, n);
    &names[start..end]
}

// Whether two nodes have the same name.
pub fn same_name(nodes: &[u32], names: &[u8], a: NodeId, b: NodeId) -> bool
    requires named { Named nodes.now names.now }
    requires a_bound { a.0 < count nodes.now }
    requires b_bound { b.0 < count nodes.now }
    ensures { result ≡ same_name nodes.now names.now a.0 b.0 }
{
    same(name(nodes, names, a), name(nodes, names, b))
}

// Whether a node has this word as its name.
pub fn name_is(nodes: &[u32], names: &[u8], n: NodeId, word: &[u8]) -> bool
    requires named { Named nodes.now names.now }
    requires n_bound { n.0 < count nodes.now }
    ensures { result ≡ name_is nodes.now names.now n.0 word.now }
{
    same(name(nodes, names, n), word)
}
