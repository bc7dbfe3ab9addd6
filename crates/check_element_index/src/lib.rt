// An index of all class elements by a hash of their keys: an element of a key is found among those of its bucket alone, and not among all nodes of its class.
#![tactic(auto)]

ghost use Rattle.std.specs.Prelude.{◌≡◌, true, ◌+◌, ◌<◌, ◌≤◌, length, replicate};
ghost use Rattle.table_records.specs.Table.{count};
ghost use Rattle.table_children.specs.Children.{below};
ghost use Rattle.check_class_table.specs.Elements.{element_name, has_private, is_declared, is_named};
ghost use Rattle.check_element_index.specs.Index.{hash_on, hash, seed, bucket, bucket_of, is_element, key_number, entry_in, Entered, Indexed, has_key};

use std::marker::Model;
use table_names::named::NamedNodes;
use table_records::nodes::Nodes;
use table_records::{ClassId, ElementId, NodeId};

// What the index keeps of an element: the one before it in its bucket, and its key. A node is told by its number plus one, and 0 is none: there are at most
// 65,535 nodes. Numbers of u16 and no Option, here and for the buckets: fixed memory, half of what u32 takes.
#[derive(Clone, Copy)]
pub struct Entry {
    pub earlier: u16,
    pub key: u16,
}

// A table and its elements, in buckets.
#[derive(Drop)]
pub struct Elements<'a> {
    pub source_type: u32,
    pub named: &'a NamedNodes<'a>,
    // the last element of each bucket
    pub last: &'a [u16],
    // what is kept of each element
    pub entries: &'a [Entry],
}

// In a clause it is their numbers. That all elements of the table are in their buckets is known where a function names a field.
impl<'a> Model for Elements<'a> {
    ghost use Rattle.check_element_index.specs.Index.{Buckets, Known};

    ghost Value = { Buckets };

    ghost view = { λ s. record { source_type = s.source_type; nodes = s.named.now.nodes; names = s.named.now.names; last = s.last.now; entries = s.entries.now } };

    ghost invariant = { λ s. Known (record { source_type = s.source_type; nodes = s.named.now.nodes; names = s.named.now.names; last = s.last.now; entries = s.entries.now }) };
}

// How many bytes of a long name are hashed at its front, and at its end.
const ENDS: usize = 32;

// What is hashed so far, and with it some bytes. A shift and two additions a byte.
fn hash_on(hashed: u32, bytes: &[u8]) -> u32
    ensures { result ≡ hash_on hashed bytes.now }
{
    let mut h = hashed;
    for byte in bytes {
        h = h.wrapping_mul(33).wrapping_add(u32::from(*byte));
    }
    h
}

// What a name is hashed to: its length, and its bytes, of a long name those at its ends. Names may overlap in their table, so that all of them are far longer
// than it; and a name that no other is compared with need not be read.
#[tactic(auto, unfolding(crate::specs::Index::hash))]
pub fn hash(name: &[u8]) -> u32
    ensures { result ≡ hash name.now }
{
    let length = name.len().min(u32::MAX as usize) as u32;
    if name.len() <= ENDS + ENDS {
        return hash_on(length, name);
    }
    let front = hash_on(length, &name[..ENDS]);
    hash_on(front, &name[name.len() - ENDS..])
}

// Private names and others are spread apart.
fn seed(private: bool) -> u32
    ensures { result ≡ seed private }
{
    if private { 40503 } else { 30011 }
}

// The bucket of a key in class c, of `size` buckets.
#[tactic(auto, unfolding(crate::specs::Index::bucket))]
fn bucket(size: usize, c: ClassId, private: bool, hash: u32) -> usize
    requires { 0 < size }
    ensures value { result ≡ bucket size c.0 private hash }
    ensures inside { result < size }
{
    let spread = hash.wrapping_add(c.0.wrapping_mul(seed(private)));
    spread as usize & (size - 1)
}

// The bucket of element e.
#[tactic(auto, unfolding(crate::specs::Index::bucket_of))]
fn bucket_of(named: &NamedNodes, size: usize, e: ElementId) -> usize
    requires e_bound { e.0 < count named.now.nodes }
    requires some { 0 < size }
    ensures value { result ≡ bucket_of named.now.nodes named.now.names size e.0 }
    ensures inside { result < size }
{
    let c = ClassId::from(table_records::parent(named.nodes, NodeId::from(e)));
    let private = check_class_table::is_private(named.nodes, e);
    let name = check_class_table::element_name(named, e);
    bucket(size, c, private, hash(name))
}

// Whether a node is an element of its class.
fn is_element(source_type: u32, nodes: &Nodes, e: ElementId) -> bool
    requires e_bound { e.0 < count nodes.now }
    ensures { result ≡ is_element source_type nodes.now e.0 }
{
    check_class_table::is_definition(nodes, e) && check_class_table::enters(source_type, nodes, e)
}

// The node of a key plus one.
fn key_number(nodes: &Nodes, key: Option<NodeId>) -> u16
    requires below { below nodes.now key }
    ensures { result ≡ key_number key }
{
    let _ = &nodes.numbers; // names the field, so that its invariant is known
    let Some(m) = key else {
        return 0;
    };
    (m.0 + 1) as u16
}

// Node e is entered, if it is an element.
fn enter(
    source_type: u32,
    named: &NamedNodes,
    last: &mut [u16],
    entries: &mut [Entry],
    e: ElementId,
)
    requires e_bound { e.0 < count named.now.nodes }
    requires entered { Entered source_type named.now.nodes named.now.names (length last.old) last.old entries.old e.0 }
    ensures { Entered source_type named.now.nodes named.now.names (length last.old) last.new entries.new (e.0 + 1) }
{
    let nodes = named.nodes;
    let _ = &nodes.numbers; // names the field, so that its invariant is known
    if is_element(source_type, nodes, e) {
        let b = bucket_of(named, last.len(), e);
        let key = table_children::key_of(nodes, NodeId::from(e));
        entries[e.0 as usize] = Entry {
            earlier: last[b],
            key: key_number(nodes, key),
        };
        last[b] = (e.0 + 1) as u16;
    }
}

// Enters all elements of the table, in arrays that come cleared.
pub fn build(source_type: u32, named: &NamedNodes, last: &mut [u16], entries: &mut [Entry])
    requires some { 0 < length last.old }
    requires cleared { last.old ≡ replicate (length last.old) 0 }
    requires room { count named.now.nodes ≤ length entries.old }
    ensures { Indexed source_type named.now.nodes named.now.names last.new entries.new }
{
    for i in 0..table_records::size(named.nodes) {
        enter(source_type, named, last, entries, ElementId(i));
    }
}

// The element before e in its bucket, plus one.
pub fn earlier(elements: &Elements, e: ElementId) -> u32
    requires { e.0 < count elements.now.nodes }
    ensures { result ≡ (entry_in elements.now.entries e.0).earlier }
{
    elements.entries[e.0 as usize].earlier as u32
}

// The name of an element, without a look for its key.
fn key_name<'a>(elements: &'a Elements, e: ElementId) -> &'a [u8]
    requires e_bound { e.0 < count elements.now.nodes }
    requires element { is_element elements.now.source_type elements.now.nodes e.0 ≡ true }
    ensures { result.now ≡ element_name elements.now.nodes elements.now.names e.0 }
{
    let named = elements.named;
    let key = elements.entries[e.0 as usize].key;
    if key == 0 {
        return &named.names[0..0];
    }
    table_names::name(named.nodes, named.names, NodeId(key as u32 - 1))
}

// Whether an element has this key in class c.
#[tactic(auto, unfolding(crate::specs::Index::has_key))]
pub fn has_key(elements: &Elements, c: ClassId, private: bool, name: &[u8], e: ElementId) -> bool
    requires e_bound { e.0 < count elements.now.nodes }
    requires element { is_element elements.now.source_type elements.now.nodes e.0 ≡ true }
    ensures { result ≡ has_key elements.now.nodes elements.now.names c.0 private name.now e.0 }
{
    let named = elements.named;
    table_records::parent(named.nodes, NodeId::from(e)) == NodeId::from(c)
        && check_class_table::is_private(named.nodes, e) == private
        && table_names::same(key_name(elements, e), name)
}

// Whether a node is a private element of class c of this name, without a look in its bucket: whether it enters is asked last, since that costs most.
#[tactic(auto, unfolding(check_class_table::specs::Elements::is_named, check_class_table::specs::Elements::is_definition_in))]
fn is_named(elements: &Elements, c: ClassId, name: &[u8], e: ElementId) -> bool
    requires e_bound { e.0 < count elements.now.nodes }
    ensures { result ≡ is_named elements.now.source_type elements.now.nodes elements.now.names c.0 true name.now e.0 }
{
    let named = elements.named;
    table_records::parent(named.nodes, NodeId::from(e)) == NodeId::from(c)
        && check_class_table::is_private(named.nodes, e)
        && check_class_table::is_definition(named.nodes, e)
        && table_names::same(check_class_table::element_name(named, e), name)
        && check_class_table::enters(elements.source_type, named.nodes, e)
}

// Whether a class has a private element of this name, which is hashed to `hashed`.
pub fn has_private_definition(elements: &Elements, c: ClassId, name: &[u8], hashed: u32) -> bool
    requires c_bound { c.0 < count elements.now.nodes }
    requires hashed { hashed ≡ hash name.now }
    ensures { result ≡ has_private elements.now.source_type elements.now.nodes elements.now.names c.0 name.now }
{
    let named = elements.named;
    let nodes = named.nodes;
    let _ = &nodes.numbers; // names the field, so that its invariant is known
    let b = bucket(elements.last.len(), c, true, hashed);
    let mut at = elements.last[b] as u32;
    // the class itself from its front on, in step: names can be chosen so that elements of other classes fill the bucket
    let mut front = c.0 + 1;
    while c.0 + 1 < at {
        let e = ElementId(at - 1);
        if has_key(elements, c, true, name, e) {
            return true;
        }
        if table_records::parent(nodes, NodeId(front)).0 < c.0 {
            return false;
        }
        if is_named(elements, c, name, ElementId(front)) {
            return true;
        }
        front += 1;
        at = earlier(elements, e);
    }
    false
}

// Whether a class or a class around it has a private element of this name.
#[tactic(auto, using(check_class_table::proofs::ElementsLaws::declared_here, check_class_table::proofs::ElementsLaws::declared_outer, check_class_table::proofs::ElementsLaws::declared_none, check_class_table::proofs::ClassesLaws::class_found, check_class_table::proofs::ClassesLaws::class_none))]
pub fn is_declared(elements: &Elements, c: ClassId, name: &[u8]) -> bool
    requires c_bound { c.0 < count elements.now.nodes }
    ensures { result ≡ is_declared elements.now.source_type elements.now.nodes elements.now.names c.0 name.now }
{
    let named = elements.named;
    let nodes = named.nodes;
    let _ = &nodes.numbers; // names the field, so that its invariant is known
    let hashed = hash(name);
    let mut at = c;
    loop {
        if has_private_definition(elements, at, name, hashed) {
            return true;
        }
        let Some(outer) = check_class_table::parent_class(nodes, at) else {
            return false;
        };
        at = outer;
    }
}
