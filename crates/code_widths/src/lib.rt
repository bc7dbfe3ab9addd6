// Which nodes are the unit's, and how many words each takes with all below it: forwards, and then backwards.
#![tactic(auto)]

ghost use Rattle.std.specs.Prelude.{◌≡◌, true, cond, ◌+◌, ◌<◌, ◌≤◌, length};
ghost use Rattle.table_records.specs.Table.{count};
ghost use Rattle.code_layout.specs.Widths.{in_unit};
ghost use Rattle.code_layout.specs.Shaped.{Held};
ghost use Rattle.code_widths.specs.Widths.{Units, Zeros, Counts, Widths};

use code_shapes::{is_part, up_of};
use table_records::NodeId;
use table_records::nodes::Nodes;

// Whether n is the unit's (1) or not (0), from what is known of the nodes before it.
#[tactic(auto, using(crate::proofs::WidthsLaws::unit_low, crate::proofs::WidthsLaws::unit_root_lem, crate::proofs::WidthsLaws::unit_no, crate::proofs::WidthsLaws::unit_part))]
fn unit_at(nodes: &Nodes, names: &[u8], b: NodeId, units: &[u16], n: NodeId) -> u16
    requires held { Held nodes.now names.now b.0 }
    requires n_bound { n.0 < count nodes.now }
    requires nodes_in_bounds { count nodes.now ≤ length units.now }
    requires units { Units nodes.now b.0 n.0 units.now }
    ensures { result ≡ cond (in_unit nodes.now b.0 n.0) 1 0 }
{
    if n.0 < b.0 {
        return 0;
    }
    if n == b {
        return 1;
    }
    if !is_part(nodes, n) {
        return 0;
    }
    let p = up_of(nodes, n);
    units[p.0 as usize]
}

// Marks the unit's nodes, and clears the widths.
pub fn fill_units(nodes: &Nodes, names: &[u8], b: NodeId, units: &mut [u16], widths: &mut [u32])
    requires held { Held nodes.now names.now b.0 }
    requires nodes_in_bounds { count nodes.now ≤ length units.old }
    requires nodes_in_bounds_2 { count nodes.now ≤ length widths.old }
    ensures units { Units nodes.now b.0 (count nodes.now) units.new }
    ensures zeros { Zeros (count nodes.now) widths.new }
{
    for j in 0..table_records::size(nodes) {
        units[j as usize] = unit_at(nodes, names, b, units, NodeId(j));
        widths[j as usize] = 0;
    }
}

// One node of the unit: its width, and the words of its holder's parts behind it; its holder gets its words.
#[tactic(auto, using(crate::proofs::WidthsLaws::own_small, crate::proofs::WidthsLaws::rest_small, crate::proofs::WidthsLaws::counts_turn))]
fn add_node(
    nodes: &Nodes,
    names: &[u8],
    b: NodeId,
    n: NodeId,
    widths: &mut [u32],
    behinds: &mut [u32],
)
    requires held { Held nodes.now names.now b.0 }
    requires b_lt_n { b.0 < n.0 }
    requires n_bound { n.0 < count nodes.now }
    requires n_value { in_unit nodes.now b.0 n.0 ≡ true }
    requires nodes_in_bounds { count nodes.now ≤ length widths.old }
    requires nodes_in_bounds_2 { count nodes.now ≤ length behinds.old }
    requires counts { Counts nodes.now b.0 (n.0 + 1) widths.old behinds.old }
    ensures { Counts nodes.now b.0 n.0 widths.new behinds.new }
{
    let p = up_of(nodes, n);
    let number = code_shapes::number_by(code_shapes::shape_of(nodes, n));
    let open = code_shapes::open_at(nodes, n);
    let own = widths[n.0 as usize] + number;
    let rest = widths[p.0 as usize];
    widths[n.0 as usize] = own;
    behinds[n.0 as usize] = rest;
    widths[p.0 as usize] = rest + own + open;
}

// The width of each node of the unit, and the words of its holder's parts behind it.
#[tactic(auto, using(crate::proofs::WidthsLaws::counts_start, crate::proofs::WidthsLaws::counts_skip, crate::proofs::WidthsLaws::counts_end, crate::proofs::WidthsLaws::unit_test))]
pub fn fill_widths(
    nodes: &Nodes,
    names: &[u8],
    b: NodeId,
    units: &[u16],
    widths: &mut [u32],
    behinds: &mut [u32],
)
    requires held { Held nodes.now names.now b.0 }
    requires units { Units nodes.now b.0 (count nodes.now) units.now }
    requires nodes_in_bounds { count nodes.now ≤ length units.now }
    requires zeros { Zeros (count nodes.now) widths.old }
    requires nodes_in_bounds_2 { count nodes.now ≤ length widths.old }
    requires nodes_in_bounds_3 { count nodes.now ≤ length behinds.old }
    ensures { Widths nodes.now b.0 widths.new behinds.new }
{
    for j in (b.0 + 1..table_records::size(nodes)).rev() {
        // A node that isn't the unit's changes nothing.
        if units[j as usize] != 0 {
            add_node(nodes, names, b, NodeId(j), widths, behinds);
        }
    }
}
