// Refusals 1, 2 and 4: sizes, listed numbers, spans and names within their bytes.
#![tactic(auto)]

ghost use Rattle.std.specs.Prelude.{◌≡◌, ◌&&◌, ◌||◌, ◌+◌, ◌<◌, ◌≤◌, ltb};
ghost use Rattle.table_records.specs.Table.{count, IsTableSize};
ghost use Rattle.check_class_table.specs.Elements.{NoFixedName};
ghost use Rattle.refusal_verdict.specs.First.{first};
ghost use Rattle.refusal_fields.specs.Fields.{wrong_table, wrong_sizes, own_flag, listed_flags, most_extra, listed_extra, unlisted_at, stray_at};

use table_records::{NodeId, extras, kinds, roles};
use table_source::{TYPESCRIPT, is_typescript};

// A table has at most so many records, and source and names so many bytes.
const MOST_RECORDS: usize = 65535;

const MOST_BYTES: usize = 1048576;

// The flags 2, 4, .., 4096 together.
const ALL_FLAGS: u32 = 8190;

// Whether a table of so many numbers, `width` to a record, is empty, not whole or too long.
#[tactic(auto, unfolding(crate::specs::Fields::wrong_table))]
fn wrong_table(len: usize, width: usize) -> bool
    requires { 0 < width }
    ensures { result ≡ wrong_table len width }
{
    len == 0 || len % width != 0 || MOST_RECORDS < len / width
}

// Whether a size is wrong. It takes the parts of a rule that have a size, and no `Rule`: the option on async bodies has none.
#[tactic(auto, unfolding(crate::specs::Fields::wrong_sizes))]
pub fn wrong_sizes(
    source_type: u32,
    nodes: &[u32],
    scopes: &[u32],
    source: &[u8],
    names: &[u8],
) -> bool
    ensures { result ≡ wrong_sizes source_type nodes.now scopes.now source.now names.now }
{
    wrong_table(nodes.len(), 10)
        || wrong_table(scopes.len(), 3)
        || MOST_BYTES < source.len()
        || MOST_BYTES < names.len()
        || TYPESCRIPT < source_type
}

// The flag that a kind has of its own.
#[tactic(auto, unfolding(crate::specs::Fields::own_flag))]
fn own_flag(source_type: u32, k: u32) -> u32
    ensures value { result ≡ own_flag source_type k }
    ensures upper_bound { result ≤ NoFixedName }
{
    if k == kinds::FUNCTION {
        return check_bodies::ASYNC_OR_GENERATOR;
    }
    if is_typescript(source_type)
        && matches!(k, kinds::METHOD_DEFINITION..=kinds::ACCESSOR_PROPERTY)
    {
        return check_class_table::NO_FIXED_NAME;
    }
    0
}

// Whether a sum of flags is listed for a kind.
#[tactic(auto, unfolding(crate::specs::Fields::listed_flags))]
fn listed_flags(source_type: u32, k: u32, sum: u32) -> bool
    ensures { result ≡ listed_flags source_type k sum }
{
    let own = own_flag(source_type, k);
    sum % 2 == 0 && (sum <= ALL_FLAGS || (own <= sum && sum <= own + ALL_FLAGS))
}

// The largest extra of a kind.
#[tactic(auto, unfolding(crate::specs::Fields::most_extra))]
fn most_extra(k: u32) -> u32
    ensures { result ≡ most_extra k }
{
    match k {
        kinds::VARIABLE_DECLARATION => extras::AWAIT_USING,
        kinds::METHOD_DEFINITION => extras::SET,
        kinds::NUMERIC_LITERAL => extras::HEXADECIMAL,
        kinds::OBJECT_PROPERTY => extras::PROPERTY_SET,
        kinds::ANYTHING_ELSE => extras::PARENTHESIS,
        _ => 0,
    }
}

// Whether an extra is listed for a kind.
#[tactic(auto, unfolding(crate::specs::Fields::listed_extra))]
fn listed_extra(k: u32, x: u32) -> bool
    ensures { result ≡ listed_extra k x }
{
    k == kinds::CLASS || k == kinds::STRING_LITERAL || x <= most_extra(k)
}

// Whether a number of node n is not listed.
#[tactic(auto, unfolding(crate::specs::Fields::unlisted_at))]
fn unlisted_at(source_type: u32, nodes: &[u32], n: NodeId) -> bool
    requires { n.0 < count nodes.now }
    ensures { result ≡ unlisted_at source_type nodes.now n.0 }
{
    let k = table_records::kind(nodes, n);
    kinds::ANYTHING_ELSE < k
        || roles::LEFT < table_records::role(nodes, n)
        || !listed_flags(source_type, k, table_records::flags(nodes, n))
        || !listed_extra(k, table_records::extra(nodes, n))
}

// The lowest node with a number that is not listed.
pub fn unlisted(source_type: u32, nodes: &[u32]) -> Option<u32>
    requires { IsTableSize (count nodes.now) }
    ensures { result ≡ first (unlisted_at source_type nodes.now) 0 (count nodes.now) }
{
    (0..table_records::size(nodes)).find(|&i| unlisted_at(source_type, nodes, NodeId(i)))
}

// Whether the l bytes from s on end after len.
fn outside(len: usize, s: usize, l: usize) -> bool
    ensures { result ≡ ltb len (s + l) }
{
    len < s || len - s < l
}

// Whether the span or the name of node n lies outside its bytes.
#[tactic(auto, unfolding(crate::specs::Fields::stray_at))]
fn stray_at(nodes: &[u32], source: &[u8], names: &[u8], n: NodeId) -> bool
    requires { n.0 < count nodes.now }
    ensures { result ≡ stray_at nodes.now source.now names.now n.0 }
{
    let e = table_records::span_end(nodes, n);
    e < table_records::span_start(nodes, n)
        || source.len() < e as usize
        || outside(
            names.len(),
            table_records::name_start(nodes, n),
            table_records::name_len(nodes, n),
        )
}

// The lowest node whose span or name lies outside its bytes.
pub fn stray(nodes: &[u32], source: &[u8], names: &[u8]) -> Option<u32>
    requires { IsTableSize (count nodes.now) }
    ensures { result ≡ first (stray_at nodes.now source.now names.now) 0 (count nodes.now) }
{
    (0..table_records::size(nodes)).find(|&i| stray_at(nodes, source, names, NodeId(i)))
}
