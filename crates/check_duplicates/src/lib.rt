// Names declared twice in a class: check_duplicate_class_elements, of private names and in TypeScript of all. For each element the earlier ones of its key are
// looked up in the index of elements.
#![tactic(auto)]

ghost use Rattle.std.specs.Prelude.{◌≡◌, true, ◌+◌, ◌<◌, ◌≤◌};
ghost use Rattle.table_records.specs.Table.{count};
ghost use Rattle.check_diagnostics.specs.Raises.{Adds};
ghost use Rattle.check_class_table.specs.Elements.{is_compared_element};
ghost use Rattle.check_element_index.specs.Index.{is_element};
ghost use Rattle.check_duplicates.specs.Duplicates.{side_of, previous_of, is_pair, is_apart, clashes, clash_code, redeclaration, duplicate_at, duplicates_in, duplicate_elements};
ghost use Rattle.check_duplicates.specs.Scans.{seen, prev_of, raised_at, class_at};

use check_diagnostics::{Finding, Findings, codes, contexts};
use check_element_index::Elements;
use table_records::nodes::Nodes;
use table_records::{ClassId, ElementId, NodeId, kinds};
use table_source::is_typescript;

// The code of a static and an instance private element of one name, in TypeScript.
pub const STATIC_AND_INSTANCE_PRIVATE: u32 = 35;

// One of the two places of a name: the last element seen there, if any.
#[derive(Clone, Copy)]
pub struct Place {
    pub element: Option<ElementId>,
}

// The side of an element: private setters are kept apart, so that a getter and setter pair cannot hide a repeated accessor.
#[tactic(auto, unfolding(crate::specs::Duplicates::side_of))]
fn side(nodes: &[u32], e: ElementId) -> usize
    requires { e.0 < count nodes.now }
    ensures value { result ≡ side_of nodes.now e.0 }
    ensures upper_bound { result ≤ 1 }
{
    let own_side = check_class_table::is_private(nodes, e)
        && check_class_table::is_setter(nodes, e);
    usize::from(own_side)
}

// The two places of a key after element d, where the elements are met from the last to the first: what is there stays.
#[tactic(auto, using(check_element_index::proofs::IndexLaws::key_named), unfolding(crate::specs::Scans::seen))]
fn see(
    elements: &Elements,
    c: ClassId,
    private: bool,
    name: &[u8],
    previous: [Place; 2],
    d: ElementId,
) -> [Place; 2]
    requires d_bound { d.0 < count elements.now.nodes }
    requires element { is_element elements.now.source_type elements.now.nodes d.0 ≡ true }
    ensures { result ≡ seen elements.now.source_type elements.now.nodes elements.now.names c.0 private name.now previous d.0 }
{
    let named = elements.named;
    if check_element_index::has_key(elements, c, private, name, d) {
        let i = side(named.nodes, d);
        if previous[i].element.is_none() {
            let mut seen = previous;
            seen[i] = Place { element: Some(d) };
            return seen;
        }
    }
    previous
}

// The two places of the key of element e of class c, where e is met, as far as `prev_element` reads them: the place of e's own side, and where none is there the other.
fn previous_of(elements: &Elements, c: ClassId, e: ElementId) -> [Place; 2]
    requires e_bound { e.0 < count elements.now.nodes }
    requires c_lt_e { c.0 < e.0 }
    requires compared { is_compared_element elements.now.source_type elements.now.nodes c.0 e.0 ≡ true }
    ensures { prev_of result (side_of elements.now.nodes e.0) ≡ previous_of elements.now.source_type elements.now.nodes elements.now.names c.0 e.0 }
{
    let named = elements.named;
    let private = check_class_table::is_private(named.nodes, e);
    let name = check_class_table::element_name(named, e);
    let own = side(named.nodes, e);
    let mut previous = [Place { element: None }; 2];
    let mut at = check_element_index::earlier(elements, e);
    while c.0 + 1 < at {
        let d = ElementId(at - 1);
        // A call whose array goes straight into `previous` was tried: the check covers none.
        let seen = see(elements, c, private, name, previous, d);
        previous = seen;
        if previous[own].element.is_some() {
            return previous;
        }
        at = check_element_index::earlier(elements, d);
    }
    previous
}

// The place to go by: that of the element's own side, or else the other.
#[tactic(auto, unfolding(crate::specs::Duplicates::side_of))]
fn prev_element(nodes: &[u32], e: ElementId, previous: [Place; 2]) -> Place
    requires { e.0 < count nodes.now }
    ensures { result ≡ prev_of previous (side_of nodes.now e.0) }
{
    let i = side(nodes, e);
    let own = previous[i];
    if own.element.is_some() {
        return own;
    }
    previous[1 - i]
}

// Whether one of two elements is a getter and the other a setter.
fn is_pair(nodes: &[u32], d: ElementId, e: ElementId) -> bool
    requires d_bound { d.0 < count nodes.now }
    requires e_bound { e.0 < count nodes.now }
    ensures { result ≡ is_pair nodes.now d.0 e.0 }
{
    check_class_table::is_getter(nodes, d) && check_class_table::is_setter(nodes, e)
        || check_class_table::is_setter(nodes, d) && check_class_table::is_getter(nodes, e)
}

// Whether one of two elements is static and the other is not.
#[tactic(auto, using(crate::proofs::DuplicatesLaws::differ))]
fn is_apart(nodes: &[u32], d: ElementId, e: ElementId) -> bool
    requires d_bound { d.0 < count nodes.now }
    requires e_bound { e.0 < count nodes.now }
    ensures { result ≡ is_apart nodes.now d.0 e.0 }
{
    check_class_table::is_static(nodes, d) != check_class_table::is_static(nodes, e)
}

// Whether element e clashes with d, an earlier one of its key.
// > It is a Syntax Error if PrivateBoundIdentifiers of ClassElementList contains any duplicate entries, unless the name is used once for a getter and
// > once for a setter and in no other entries, and the getter and setter are either both static or both non-static.
// For TypeScript, public elements with different static status are allowed.
#[tactic(auto, unfolding(crate::specs::Duplicates::clashes))]
fn clashes(nodes: &[u32], d: ElementId, e: ElementId) -> bool
    requires d_bound { d.0 < count nodes.now }
    requires e_bound { e.0 < count nodes.now }
    ensures { result ≡ clashes nodes.now d.0 e.0 }
{
    let apart = is_apart(nodes, d, e);
    let unpaired = !is_pair(nodes, d, e);
    if check_class_table::is_private(nodes, e) {
        return unpaired || apart;
    }
    unpaired && !apart
}

// The code of a clash.
#[tactic(auto, unfolding(crate::specs::Duplicates::clash_code))]
fn clash_code(source_type: u32, nodes: &[u32], d: ElementId, e: ElementId) -> u32
    requires d_bound { d.0 < count nodes.now }
    requires e_bound { e.0 < count nodes.now }
    ensures { result ≡ clash_code source_type nodes.now d.0 e.0 }
{
    if is_typescript(source_type)
        && check_class_table::is_private(nodes, e)
        && is_apart(nodes, d, e)
    {
        return STATIC_AND_INSTANCE_PRIVATE;
    }
    codes::REDECLARATION
}

// The finding that element e repeats d.
#[tactic(auto, unfolding(crate::specs::Duplicates::redeclaration))]
fn redeclaration(source_type: u32, nodes: &Nodes, d: ElementId, e: ElementId) -> Option<Finding>
    requires d_bound { d.0 < count nodes.now }
    requires e_bound { e.0 < count nodes.now }
    ensures { result ≡ redeclaration source_type nodes.now d.0 e.0 }
{
    let code = clash_code(source_type, nodes, d, e);
    let first = check_class_table::element_span(nodes, d);
    let second = check_class_table::element_span(nodes, e);
    Some(Finding {
        code,
        node: NodeId(0),
        start: first.start,
        end: first.end,
        start2: second.start,
        end2: second.end,
        context: contexts::NONE,
    })
}

// What element e of class c raises.
fn duplicate_at(elements: &Elements, c: ClassId, e: ElementId) -> Option<Finding>
    requires e_bound { e.0 < count elements.now.nodes }
    requires c_lt_e { c.0 < e.0 }
    requires compared { is_compared_element elements.now.source_type elements.now.nodes c.0 e.0 ≡ true }
    ensures { result ≡ duplicate_at elements.now.source_type elements.now.nodes elements.now.names c.0 e.0 }
{
    let named = elements.named;
    let previous = previous_of(elements, c, e);
    let d = prev_element(named.nodes, e, previous).element?;
    if clashes(named.nodes, d, e) {
        return redeclaration(elements.source_type, named.nodes, d, e);
    }
    None
}

// What node i raises as an element of class c.
#[tactic(auto, unfolding(crate::specs::Scans::raised_at))]
fn raised_at(elements: &Elements, c: ClassId, i: ElementId) -> Option<Finding>
    requires i_bound { i.0 < count elements.now.nodes }
    requires c_lt_i { c.0 < i.0 }
    ensures { result ≡ raised_at elements.now.source_type elements.now.nodes elements.now.names c.0 i.0 }
{
    let named = elements.named;
    if check_class_table::is_compared_element(elements.source_type, named.nodes, c, i) {
        return duplicate_at(elements, c, i);
    }
    None
}

// The findings of one class.
fn duplicates_in(elements: &Elements, c: ClassId, findings: &mut Findings)
    requires c_bound { c.0 < count elements.now.nodes }
    requires raised_bound { findings.old.raised ≤ 999999000000 }
    ensures adds { Adds findings.old findings.new (duplicates_in elements.now.source_type elements.now.nodes elements.now.names c.0) }
    ensures upper_bound { findings.new.raised ≤ findings.old.raised + 458745 }
{
    let named = elements.named;
    let nodes = named.nodes;
    let _ = &nodes.numbers; // names the field, so that its invariant is known
    for i in c.0 + 1..table_records::size(nodes) {
        if table_records::parent(nodes, NodeId(i)).0 < c.0 {
            return;
        }
        findings.raise(raised_at(elements, c, ElementId(i)));
    }
}

// The findings of node i as a class.
#[tactic(auto, using(check_diagnostics::proofs::RaisesLaws::adds_none), unfolding(crate::specs::Scans::class_at))]
fn duplicates_at(elements: &Elements, i: NodeId, findings: &mut Findings)
    requires i_bound { i.0 < count elements.now.nodes }
    requires raised_bound { findings.old.raised ≤ 999999000000 }
    ensures adds { Adds findings.old findings.new (class_at elements.now.source_type elements.now.nodes elements.now.names i.0) }
    ensures upper_bound { findings.new.raised ≤ findings.old.raised + 458745 }
{
    let named = elements.named;
    if table_records::kind(named.nodes, i) == kinds::CLASS_BODY {
        duplicates_in(elements, ClassId::from(i), findings);
    }
}

// The findings of all classes, in the order of their bodies.
pub fn check_duplicate_class_elements(elements: &Elements, findings: &mut Findings)
    requires raised_bound { findings.old.raised ≤ 900000000000 }
    ensures adds { Adds findings.old findings.new (duplicate_elements elements.now.source_type elements.now.nodes elements.now.names) }
    ensures upper_bound { findings.new.raised ≤ findings.old.raised + 30100000000 }
{
    let named = elements.named;
    for i in 0..table_records::size(named.nodes) {
        duplicates_at(elements, NodeId(i), findings);
    }
}
