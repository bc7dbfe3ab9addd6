// Refusal 14, a wrong count: a child missing or too many. One pass over the table notes what children each node has, and then each node is looked at alone.
#![tactic(auto)]

ghost use Rattle.std.specs.Prelude.{ℕ, ◌≡◌, ◌≤◌, ◌<◌, ◌+◌, true, false, eqb, ltb, cond, ◌&&◌, length};
ghost use Rattle.table_records.specs.Table.{count, kind_of};
ghost use Rattle.refusal_verdict.specs.First.{first};
ghost use Rattle.refusal_counts.specs.Counts.{is_default, wrong_body, wrong_alternate, wrong_default, wrong_try, wrong_clause, wrong_label, wrong_function, wrong_class, wrong_value, wrong_element, wrong_statement, wrong_part, wrong_home, wrong_count_at, is_counted};
ghost use Rattle.refusal_counts.specs.declared.Sort.{Sort};
ghost use Rattle.refusal_counts.specs.Tally.{is_of, number, weight, digit, Adds, Notes, Tallied};

use table_children::{Part, is_child};
use table_records::nodes::Nodes;
use table_records::{NodeId, kinds, node_flag, roles};

// For how many nodes the array has room: rules of an office have a hundred nodes and less, or some hundreds; the last is room for any table.
const FEW: usize = 128;

const SMALL: usize = 2048;

const MOST: usize = 65536;

// A sort of child that a sentence of document 01 counts. The sentences ask for one, at most one or at least one: so what is noted of a node is a number in
// base 4 with a digit for each sort, which is 2 for two or more.
#[derive(Clone, Copy)]
enum Sort {
    Value,
    Key,
    Held,
    Alternate,
    Finally,
    // Of a Try: its clause or its finally.
    Handler,
    Label,
    FunctionBody,
    ClassBody,
    Default,
}

impl Sort {
    // The weight of its digit.
    fn weight(self) -> u32
        ensures value { result ≡ weight self }
        ensures bound { result ≤ 262144 }
    {
        match self {
            Sort::Value => 1,
            Sort::Key => 4,
            Sort::Held => 16,
            Sort::Alternate => 64,
            Sort::Finally => 256,
            Sort::Handler => 1024,
            Sort::Label => 4096,
            Sort::FunctionBody => 16384,
            Sort::ClassBody => 65536,
            Sort::Default => 262144,
        }
    }
}

// Whether c is a `default` of the Switch p.
#[tactic(auto, unfolding(crate::specs::Counts::is_default))]
fn is_default(nodes: &[u32], p: NodeId, c: NodeId) -> bool
    requires { c.0 < count nodes.now }
    ensures { result ≡ is_default nodes.now p.0 c.0 }
{
    is_child(nodes, p, Part::of(kinds::SWITCH_CASE, roles::HELD), c)
        && table_records::has_flag(table_records::flags(nodes, c), node_flag::DEFAULT)
}

// Whether c is a child of p of this sort.
fn is_of(nodes: &[u32], p: NodeId, sort: Sort, c: NodeId) -> bool
    requires { c.0 < count nodes.now }
    ensures { result ≡ is_of nodes.now p.0 sort c.0 }
{
    let part = match sort {
        Sort::Value => Part::of_role(roles::VALUE),
        Sort::Key => Part::of_role(roles::KEY),
        Sort::Held => Part::of_role(roles::HELD),
        Sort::Alternate => Part::of_role(roles::ALTERNATE),
        Sort::Finally => Part::of_role(roles::FINALLY),
        Sort::Handler => Part {
            first: roles::ALTERNATE,
            last: roles::FINALLY,
            ..Part::ANY
        },
        Sort::Label => Part::of(kinds::LABEL_IDENTIFIER, roles::LABEL),
        Sort::FunctionBody => Part::of_kind(kinds::FUNCTION_BODY),
        Sort::ClassBody => Part::of_kind(kinds::CLASS_BODY),
        Sort::Default => return is_default(nodes, p, c),
    };
    is_child(nodes, p, part, c)
}

// How many children of this sort are noted: 2 for two or more.
#[tactic(auto, unfolding(crate::specs::Tally::digit))]
fn digit(seen: u32, sort: Sort) -> u32
    ensures { result ≡ digit seen sort }
{
    seen / sort.weight() % 4
}

// What is noted of p, with c in the digit of this sort: it stays at 2. There are ten digits, so that what is noted is below 4^10, 1,048,576, and below twice
// that while they are gone through.
fn note(nodes: &[u32], p: NodeId, c: NodeId, seen: u32, sort: Sort) -> u32
    requires c_bound { c.0 < count nodes.now }
    requires small { seen < 2097152 }
    ensures value { result ≡ cond (is_of nodes.now p.0 sort c.0 && ltb (digit seen sort) 2) (seen + weight sort) seen }
    ensures bound { result ≤ seen + weight sort }
{
    if is_of(nodes, p, sort, c) && digit(seen, sort) < 2 {
        seen + sort.weight()
    } else {
        seen
    }
}

// Whether c is a child of no sort, whatever its parent: it is passed over at once, as most are.
#[tactic(auto, using(crate::proofs::TallyLaws::no_sort))]
fn is_plain(nodes: &[u32], c: NodeId) -> bool
    requires { c.0 < count nodes.now }
    ensures { result ≡ true → (p : ℕ) (s : Sort) → is_of nodes.now p s c.0 ≡ false }
{
    let kind = table_records::kind(nodes, c);
    table_records::role(nodes, c) == roles::OTHER
        && kind != kinds::FUNCTION_BODY
        && kind != kinds::CLASS_BODY
}

// What is noted of p, with c.
fn with_child(nodes: &[u32], p: NodeId, c: NodeId, seen: u32) -> u32
    requires c_bound { c.0 < count nodes.now }
    requires small { seen < 1048576 }
    ensures { Adds nodes.now p.0 c.0 seen result }
{
    if is_plain(nodes, c) {
        return seen;
    }
    let seen = note(nodes, p, c, seen, Sort::Value);
    let seen = note(nodes, p, c, seen, Sort::Key);
    let seen = note(nodes, p, c, seen, Sort::Held);
    let seen = note(nodes, p, c, seen, Sort::Alternate);
    let seen = note(nodes, p, c, seen, Sort::Finally);
    let seen = note(nodes, p, c, seen, Sort::Handler);
    let seen = note(nodes, p, c, seen, Sort::Label);
    let seen = note(nodes, p, c, seen, Sort::FunctionBody);
    let seen = note(nodes, p, c, seen, Sort::ClassBody);
    note(nodes, p, c, seen, Sort::Default)
}

// The pass: each node but the first is noted at its parent.
#[tactic(auto, using(crate::proofs::TallyLaws::tallied_more))]
fn tally(nodes: &Nodes, seen: &mut [u32])
    requires room { count nodes.now ≤ length seen.old }
    requires cleared { Tallied nodes.now seen.old 1 }
    ensures { Tallied nodes.now seen.new (count nodes.now) }
{
    for c in 1..table_records::size(nodes) {
        let p = table_records::parent(nodes, NodeId(c));
        seen[p.0 as usize] = with_child(nodes, p, NodeId(c), seen[p.0 as usize]);
    }
}

// A node, and what the pass has noted of it.
#[derive(Drop)]
struct Noted<'a> {
    nodes: &'a Nodes<'a>,
    node: NodeId,
    seen: u32,
    ghost in_table: { node.0 < count nodes.now },
    ghost notes: { Notes nodes.now node.0 seen (count nodes.now) },
}

impl Noted<'_> {
    fn kind(&self) -> u32
        ensures { result ≡ kind_of self.now.nodes.now self.now.node.0 }
    {
        table_records::kind(self.nodes, self.node)
    }

    // Whether it has just one child of this sort ..
    #[tactic(auto, using(crate::proofs::TallyLaws::says_one))]
    fn has_one(&self, sort: Sort) -> bool
        ensures { result ≡ eqb (number self.now.nodes.now self.now.node.0 sort) 1 }
    {
        digit(self.seen, sort) == 1
    }

    // .. or more than one ..
    #[tactic(auto, using(crate::proofs::TallyLaws::says_more))]
    fn has_more(&self, sort: Sort) -> bool
        ensures { result ≡ ltb 1 (number self.now.nodes.now self.now.node.0 sort) }
    {
        1 < digit(self.seen, sort)
    }

    // .. or none.
    #[tactic(auto, using(crate::proofs::TallyLaws::says_none))]
    fn has_none(&self, sort: Sort) -> bool
        ensures { result ≡ eqb (number self.now.nodes.now self.now.node.0 sort) 0 }
    {
        digit(self.seen, sort) == 0
    }
}

// One function for each sentence of refusal 14. Some differ in the sort that they ask for alone: what they share is `has_one`, `has_more` and `has_none`.
#[tactic(auto, unfolding(crate::specs::Counts::wrong_body))]
fn wrong_body(noted: &Noted) -> bool
    ensures { result ≡ wrong_body noted.now.nodes.now noted.now.node.0 }
{
    matches!(noted.kind(), kinds::LABELED..=kinds::WITH) && !noted.has_one(Sort::Held)
}

#[tactic(auto, unfolding(crate::specs::Counts::wrong_alternate))]
fn wrong_alternate(noted: &Noted) -> bool
    ensures { result ≡ wrong_alternate noted.now.nodes.now noted.now.node.0 }
{
    noted.kind() == kinds::IF && noted.has_more(Sort::Alternate)
}

#[tactic(auto, unfolding(crate::specs::Counts::wrong_default))]
fn wrong_default(noted: &Noted) -> bool
    ensures { result ≡ wrong_default noted.now.nodes.now noted.now.node.0 }
{
    noted.kind() == kinds::SWITCH && noted.has_more(Sort::Default)
}

#[tactic(auto, unfolding(crate::specs::Counts::wrong_try))]
fn wrong_try(noted: &Noted) -> bool
    ensures { result ≡ wrong_try noted.now.nodes.now noted.now.node.0 }
{
    noted.kind() == kinds::TRY
        && (!noted.has_one(Sort::Held)
            || noted.has_more(Sort::Alternate)
            || noted.has_more(Sort::Finally)
            || noted.has_none(Sort::Handler))
}

#[tactic(auto, unfolding(crate::specs::Counts::wrong_clause))]
fn wrong_clause(noted: &Noted) -> bool
    ensures { result ≡ wrong_clause noted.now.nodes.now noted.now.node.0 }
{
    noted.kind() == kinds::CATCH_CLAUSE && !noted.has_one(Sort::Held)
}

#[tactic(auto, unfolding(crate::specs::Counts::wrong_label))]
fn wrong_label(noted: &Noted) -> bool
    ensures { result ≡ wrong_label noted.now.nodes.now noted.now.node.0 }
{
    match noted.kind() {
        kinds::LABELED => !noted.has_one(Sort::Label),
        kinds::BREAK..=kinds::CONTINUE => noted.has_more(Sort::Label),
        _ => false,
    }
}

#[tactic(auto, unfolding(crate::specs::Counts::wrong_function))]
fn wrong_function(noted: &Noted) -> bool
    ensures { result ≡ wrong_function noted.now.nodes.now noted.now.node.0 }
{
    matches!(noted.kind(), kinds::FUNCTION..=kinds::ARROW) && noted.has_more(Sort::FunctionBody)
}

#[tactic(auto, unfolding(crate::specs::Counts::wrong_class))]
fn wrong_class(noted: &Noted) -> bool
    ensures { result ≡ wrong_class noted.now.nodes.now noted.now.node.0 }
{
    noted.kind() == kinds::CLASS && !noted.has_one(Sort::ClassBody)
}

#[tactic(auto, unfolding(crate::specs::Counts::wrong_value))]
fn wrong_value(noted: &Noted) -> bool
    ensures { result ≡ wrong_value noted.now.nodes.now noted.now.node.0 }
{
    if noted.kind() == kinds::METHOD_DEFINITION {
        !noted.has_one(Sort::Value)
    } else {
        noted.has_more(Sort::Value)
    }
}

#[tactic(auto, unfolding(crate::specs::Counts::wrong_element))]
fn wrong_element(noted: &Noted) -> bool
    ensures { result ≡ wrong_element noted.now.nodes.now noted.now.node.0 }
{
    matches!(
        noted.kind(),
        kinds::METHOD_DEFINITION..=kinds::ACCESSOR_PROPERTY
    ) && (!noted.has_one(Sort::Key) || wrong_value(noted))
}

#[tactic(auto, unfolding(crate::specs::Counts::wrong_statement))]
fn wrong_statement(noted: &Noted) -> bool
    ensures { result ≡ wrong_statement noted.now.nodes.now noted.now.node.0 }
{
    wrong_body(noted) || wrong_alternate(noted) || wrong_label(noted)
}

#[tactic(auto, unfolding(crate::specs::Counts::wrong_part))]
fn wrong_part(noted: &Noted) -> bool
    ensures { result ≡ wrong_part noted.now.nodes.now noted.now.node.0 }
{
    wrong_default(noted) || wrong_try(noted) || wrong_clause(noted)
}

#[tactic(auto, unfolding(crate::specs::Counts::wrong_home))]
fn wrong_home(noted: &Noted) -> bool
    ensures { result ≡ wrong_home noted.now.nodes.now noted.now.node.0 }
{
    wrong_function(noted) || wrong_class(noted) || wrong_element(noted)
}

#[tactic(auto, unfolding(crate::specs::Counts::wrong_count_at), using(crate::proofs::CountsLaws::uncounted))]
fn wrong_count_of(nodes: &Nodes, n: NodeId, seen: u32) -> bool
    requires n_bound { n.0 < count nodes.now }
    requires seen { Notes nodes.now n.0 seen (count nodes.now) }
    ensures { result ≡ wrong_count_at nodes.now n.0 }
{
    let noted = &Noted {
        nodes,
        node: n,
        seen,
    };
    // no sentence counts the children of a later kind
    if kinds::ACCESSOR_PROPERTY < noted.kind() {
        return false;
    }
    wrong_statement(noted) || wrong_part(noted) || wrong_home(noted)
}

// Whether a sentence counts the children of this kind.
#[tactic(auto, unfolding(crate::specs::Counts::is_counted))]
fn is_counted(kind: u32) -> bool
    ensures { result ≡ is_counted kind }
{
    matches!(kind, kinds::FUNCTION..=kinds::ARROW)
        || matches!(kind, kinds::LABELED..=kinds::SWITCH)
        || matches!(kind, kinds::TRY..=kinds::CONTINUE)
        || kind == kinds::CLASS
        || matches!(kind, kinds::METHOD_DEFINITION..=kinds::ACCESSOR_PROPERTY)
}

// Whether node n has a wrong number of children: what `tally` notes of all nodes is noted of this one alone, by a pass over what is below it.
#[tactic(auto, using(crate::proofs::CountsLaws::uncounted_kind))]
pub fn wrong_count_at(nodes: &Nodes, n: NodeId) -> bool
    requires { n.0 < count nodes.now }
    ensures { result ≡ wrong_count_at nodes.now n.0 }
{
    let _ = &nodes.numbers; // names the field, so that its invariant is known
    if !is_counted(table_records::kind(nodes, n)) {
        return false;
    }
    let mut seen = 0;
    for c in n.0 + 1..table_records::size(nodes) {
        if table_records::parent(nodes, NodeId(c)).0 < n.0 {
            break;
        }
        seen = with_child(nodes, n, NodeId(c), seen);
    }
    wrong_count_of(nodes, n, seen)
}

// The lowest node with a wrong number of children, over the filled array.
fn wrong_count_by(nodes: &Nodes, seen: &[u32]) -> Option<u32>
    requires room { count nodes.now ≤ length seen.now }
    requires tallied { Tallied nodes.now seen.now (count nodes.now) }
    ensures { result ≡ first (wrong_count_at nodes.now) 0 (count nodes.now) }
{
    (0..table_records::size(nodes)).find(|&i| wrong_count_of(nodes, NodeId(i), seen[i as usize]))
}

// With an array of N numbers, which is on the stack while this function runs alone.
#[inline(never)]
#[tactic(auto, using(crate::proofs::TallyLaws::tallied_start))]
fn wrong_count_in<const N: usize>(nodes: &Nodes) -> Option<u32>
    requires nodes_bound { count nodes.now ≤ N }
    requires small { N ≤ 65536 }
    ensures { result ≡ first (wrong_count_at nodes.now) 0 (count nodes.now) }
{
    let mut seen = [0; N];
    tally(nodes, &mut seen);
    wrong_count_by(nodes, &seen)
}

// The lowest node with a wrong number of children.
pub fn wrong_count(nodes: &Nodes) -> Option<u32>
    ensures { result ≡ first (wrong_count_at nodes.now) 0 (count nodes.now) }
{
    // an array that serves few nodes costs less to clear, and less of the stack: half a KiB, 8 KiB or 256 KiB
    let size = table_records::size(nodes);
    if size <= FEW as u32 {
        return wrong_count_in::<FEW>(nodes);
    }
    if size <= SMALL as u32 {
        return wrong_count_in::<SMALL>(nodes);
    }
    wrong_count_in::<MOST>(nodes)
}
