// Labels renamed: the first label of each name, the short names, and the node table and names with them.
#![tactic(auto)]

ghost use Rattle.std.specs.Prelude.{◌≡◌, [], ◌∷◌, ◌+◌, ◌*◌, ◌≤◌, ◌<◌, length};
ghost use Rattle.base_common.specs.Wrote.{put};
ghost use Rattle.table_records.specs.Table.{count};
ghost use Rattle.table_names.specs.Name.{name_of};
ghost use Rattle.route_list.specs.Over.{over};
ghost use Rattle.code_tree.specs.Labels.{is_label};
ghost use Rattle.call_labels.specs.Reserved.{is_reserved};
ghost use Rattle.call_labels.specs.Short.{letter_a, letters, most, pair_of, short_name};
ghost use Rattle.call_labels.specs.Order.{seen_before, place_in};
ghost use Rattle.call_labels.specs.Written.{most_bytes, new_name_of, record_with, nodes_renamed, names_renamed};
ghost use Rattle.call_labels.specs.Firsts.{kept_from, AreNodes, Firsts, Entered, Listed};

use check_identifiers::is_strict_word;
use std::marker::Model;
use table_names::named::NamedNodes;
use table_names::{name, name_is, same_name};
use table_records::{NodeId, kinds, roles};

const LETTER_A: u8 = 97;

const LETTERS: usize = 26;

// How many short names there are: 26 letters, and 676 pairs of them without `do`, `if` and `in`.
pub const MOST: usize = 699;

// The first label of each different name: at the front of `nodes` stand `size` nodes, in the order in which they are found.
#[derive(Clone, Copy)]
pub struct Kept {
    pub nodes: [u32; MOST],
    pub size: usize,
}

// The tables, with the first label of each name. That they are `LabelsKept` is known where a function names a field.
#[derive(Drop)]
pub struct Labels<'a> {
    pub named: &'a NamedNodes<'a>,
    pub kept: &'a Kept,
}

impl<'a> Model for Labels<'a> {
    ghost use Rattle.table_names.specs.Name.{NamedTable};
    ghost use Rattle.call_labels.specs.Firsts.{LabelsKept};

    ghost Value = { NamedTable };

    ghost view = { λ a. a.named.now };

    ghost invariant = { λ a. LabelsKept a.named.now.nodes a.named.now.names a.kept.now };
}

fn is_label(nodes: &[u32], n: NodeId) -> bool
    requires { n.0 < count nodes.now }
    ensures { result ≡ is_label nodes.now n.0 }
{
    table_records::kind(nodes, n) == kinds::LABEL_IDENTIFIER
        && table_records::role(nodes, n) == roles::LABEL
}

// Whether the reserved-word check looks for the name of n.
#[tactic(auto, unfolding(check_identifiers::specs::Identifiers::is_strict_word))]
fn is_reserved(named: &NamedNodes, n: NodeId) -> bool
    requires n_bound { n.0 < count named.now.nodes }
    ensures { result ≡ is_reserved (name_of named.now.nodes named.now.names n.0) }
{
    if name_is(named.nodes, named.names, n, b"await") {
        return true;
    }
    is_strict_word(named.nodes, named.names, n)
}

// Where the name of n stands among those of the labels kept; their number where it is none of them.
#[tactic(auto, using(crate::proofs::FirstsLaws::place_stop, crate::proofs::FirstsLaws::place_on, crate::proofs::FirstsLaws::place_end_lem))]
fn place_in(named: &NamedNodes, kept: &Kept, n: NodeId) -> usize
    requires nodes { AreNodes named.now.nodes kept.now.nodes kept.now.size }
    requires n_bound { n.0 < count named.now.nodes }
    ensures { result ≡ place_in (kept_from named.now.nodes named.now.names kept.now.nodes kept.now.size 0) (name_of named.now.nodes named.now.names n.0) }
{
    for k in 0..kept.size {
        if same_name(named.nodes, named.names, NodeId(kept.nodes[k]), n) {
            return k;
        }
    }
    kept.size
}

// Keeps the label i if it is the first of its name; or says that it cannot be renamed (19).
#[tactic(auto, using(crate::proofs::UnfitLaws::reserved_unfit, crate::proofs::UnfitLaws::many_unfit, crate::proofs::FirstsLaws::firsts_length, table_names::proofs::NameLaws::name_length))]
fn enter(named: &NamedNodes, kept: &mut Kept, i: u32) -> Result<(), NodeId>
    requires firsts { Firsts named.now.nodes named.now.names kept.old.nodes kept.old.size (seen_before named.now.nodes named.now.names i) }
    requires i_bound { i < count named.now.nodes }
    ensures { Entered named.now.nodes named.now.names i kept.new result }
{
    let nodes: &[u32] = named.nodes;
    if !is_label(nodes, NodeId(i)) {
        return Ok(());
    }
    if is_reserved(named, NodeId(i)) {
        return Err(NodeId(i));
    }
    if table_records::name_len(nodes, NodeId(i)) == 0 {
        return Ok(());
    }
    if place_in(named, kept, NodeId(i)) < kept.size {
        return Ok(());
    }
    if kept.size == MOST {
        return Err(NodeId(i));
    }
    kept.nodes[kept.size] = i;
    kept.size += 1;
    Ok(())
}

// The first label of each different name, in node order; or the first that cannot be renamed.
#[tactic(auto, using(refusal_verdict::proofs::FirstLaws::first_on, refusal_verdict::proofs::FirstLaws::first_stop, refusal_verdict::proofs::FirstLaws::first_end, refusal_verdict::proofs::VerdictLaws::handed, crate::proofs::FirstsLaws::firsts_start))]
pub fn first_labels(named: &NamedNodes) -> Result<Kept, NodeId>
    ensures { Listed named.now.nodes named.now.names result }
{
    let mut kept = Kept {
        nodes: [0; MOST],
        size: 0,
    };
    for i in 0..table_records::size(named.nodes) {
        enter(named, &mut kept, i)?;
    }
    Ok(kept)
}

fn letter(k: usize) -> u8
    requires { k < letters }
    ensures { result ≡ letter_a + k }
{
    LETTER_A + k as u8
}

// The m-th pair of letters, counted without `do`, `if` and `in`, by its number among all pairs.
fn pair_of(m: usize) -> usize
    requires { m < most }
    ensures { result ≡ pair_of m }
{
    if m < 92 {
        return m;
    }
    if m < 212 {
        return m + 1;
    }
    if m < 219 {
        return m + 2;
    }
    m + 3
}

#[tactic(auto, unfolding(crate::specs::Short::short_name))]
fn short_length(k: usize) -> usize
    ensures { result ≡ length (short_name k) }
{
    if k < LETTERS {
        return 1;
    }
    2
}

// Writes the k-th short name at w.
#[tactic(auto, using(crate::proofs::ShortLaws::short_one, crate::proofs::ShortLaws::short_two, crate::proofs::ShortLaws::pair_below, crate::proofs::ShortLaws::put_one, table_put::proofs::Stores::put_two))]
fn put_short(k: usize, out: &mut [u8], w: usize)
    requires k_lt_most { k < most }
    requires k_in_bounds { w + length (short_name k) ≤ length out.old }
    ensures { out.new ≡ put out.old w (short_name k) }
{
    if k < LETTERS {
        out[w] = letter(k);
        return;
    }
    let pair = pair_of(k - LETTERS);
    out[w] = letter(pair / LETTERS);
    out[w + 1] = letter(pair % LETTERS);
}

// How long the new name of n is.
#[tactic(auto, using(crate::proofs::ShortLaws::short_most, crate::proofs::WrittenLaws::nameless_new, crate::proofs::WrittenLaws::other_new, crate::proofs::WrittenLaws::short_new, table_names::proofs::NameLaws::name_length))]
fn new_length(labels: &Labels, n: NodeId) -> usize
    requires n_bound { n.0 < count labels.now.nodes }
    ensures { (result ≡ length (new_name_of labels.now.nodes labels.now.names n.0)) × (result ≤ most_bytes) }
{
    let named = labels.named;
    let len = table_records::name_len(named.nodes, n);
    if len == 0 {
        return 0;
    }
    if !is_label(named.nodes, n) {
        return len;
    }
    short_length(place_in(named, labels.kept, n))
}

// How long all new names are together. Names may overlap in the old slice, so it can be far above 1,048,576.
#[tactic(auto, using(crate::proofs::WrittenLaws::next_length, check_diagnostics::proofs::Gather::flat_end), unfolding(crate::specs::Written::names_renamed))]
pub fn names_length(labels: &Labels) -> usize
    ensures { result ≡ length (names_renamed labels.now.nodes labels.now.names) }
{
    let named = labels.named;
    let mut w: usize = 0;
    for i in 0..table_records::size(named.nodes) {
        w += new_length(labels, NodeId(i));
    }
    w
}

// A name, from place w on. Byte by byte: what a slice's method calls for it is `memmove`, which the C library that calls this would have to have.
fn put_bytes(bytes: &[u8], out: &mut [u8], w: usize)
    requires { w + length bytes.now ≤ length out.old }
    ensures { out.new ≡ put out.old w bytes.now }
{
    for i in 0..bytes.len() {
        out[w + i] = bytes[i];
    }
}

// Writes the new name of n at w.
#[tactic(auto, using(crate::proofs::ShortLaws::put_none, crate::proofs::FirstsLaws::firsts_length, crate::proofs::WrittenLaws::nameless_new, crate::proofs::WrittenLaws::other_new, crate::proofs::WrittenLaws::short_new, crate::proofs::WrittenLaws::label_below, table_names::proofs::NameLaws::name_length))]
fn put_name(labels: &Labels, n: NodeId, out: &mut [u8], w: usize)
    requires n_bound { n.0 < count labels.now.nodes }
    requires n_in_bounds { w + length (new_name_of labels.now.nodes labels.now.names n.0) ≤ length out.old }
    ensures { out.new ≡ put out.old w (new_name_of labels.now.nodes labels.now.names n.0) }
{
    let named = labels.named;
    if table_records::name_len(named.nodes, n) == 0 {
        return;
    }
    if !is_label(named.nodes, n) {
        put_bytes(name(named.nodes, named.names, n), out, w);
        return;
    }
    put_short(place_in(named, labels.kept, n), out, w);
}

// Writes the record of n with another name.
fn put_record(nodes: &[u32], n: NodeId, start: usize, len: usize, out: &mut [u32])
    requires n_bound { n.0 < count nodes.now }
    requires start_bound { start ≤ most_bytes }
    requires len_bound { len ≤ most_bytes }
    requires n_in_bounds { n.0 * 10 + 10 ≤ length out.old }
    ensures { out.new ≡ put out.old (n.0 * 10) (record_with nodes.now n.0 start len) }
{
    let record = [
        table_records::kind(nodes, n),
        table_records::parent(nodes, n).0,
        table_records::role(nodes, n),
        table_records::span_start(nodes, n),
        table_records::span_end(nodes, n),
        table_records::scope(nodes, n).0,
        table_records::flags(nodes, n),
        table_records::extra(nodes, n),
        start as u32,
        len as u32,
    ];
    table_put::copy(&record, out, n.0 as usize * 10);
}

// Writes the node table and the names, where there is room for both.
#[tactic(auto, using(base_common::proofs::WroteLaws::wrote_start, check_diagnostics::proofs::Gather::flat_end, crate::proofs::WriteLaws::written_length, crate::proofs::WriteLaws::write_end), unfolding(crate::specs::Written::nodes_renamed, crate::specs::Written::names_renamed))]
pub fn write(labels: &Labels, renamed_nodes: &mut [u32], renamed_names: &mut [u8])
    requires names_in_bounds { length (nodes_renamed labels.now.nodes labels.now.names) ≤ length renamed_nodes.old }
    requires names_in_bounds_2 { length (names_renamed labels.now.nodes labels.now.names) ≤ length renamed_names.old }
    requires names_len_bound { length (names_renamed labels.now.nodes labels.now.names) ≤ most_bytes }
    ensures renamed_nodes_after { renamed_nodes.new ≡ over (nodes_renamed labels.now.nodes labels.now.names) renamed_nodes.old }
    ensures renamed_names_after { renamed_names.new ≡ over (names_renamed labels.now.nodes labels.now.names) renamed_names.old }
{
    let named = labels.named;
    let mut w: usize = 0;
    for i in 0..table_records::size(named.nodes) {
        let len = new_length(labels, NodeId(i));
        put_record(named.nodes, NodeId(i), w, len, renamed_nodes);
        put_name(labels, NodeId(i), renamed_names, w);
        w += len;
    }
}
