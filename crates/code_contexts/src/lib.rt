// Where each node's words stand, how deep the pending ends are there, and from which node's end control goes on: forwards.
#![tactic(auto)]

ghost use Rattle.std.specs.Prelude.{◌≡◌, true, cond, ◌&&◌, suc, ◌+◌, ◌<◌, ◌≤◌, length};
ghost use Rattle.table_records.specs.Table.{count};
ghost use Rattle.table_records.specs.Roles as role;
ghost use Rattle.code_tree.specs.Parts.{up_of, shape_at, parts, order};
ghost use Rattle.code_tree.specs.declared.Shape.TheVariants.{Try};
ghost use Rattle.code_layout.specs.Widths.{has_role, is_try, sum, in_unit, own_width};
ghost use Rattle.code_layout.specs.Context.{offset_at};
ghost use Rattle.code_widths.specs.Widths.{Units, Widths, counted};
ghost use Rattle.code_contexts.specs.Contexts.{Ready, Wide, goes_by, Follow, Places};
ghost use Rattle.code_contexts.specs.Turn.{Room, SameArrays, Turn};

use code_shapes::{is_try, shape_of, up_of};
use code_tree::Shape;
use table_children::Part;
use table_records::nodes::Nodes;
use table_records::{NodeId, kinds, roles};

// A layout in the making: the arrays of the code maker, which have a place for each node. In the first passes the levels are marks of the unit's nodes, and the
// offsets the words behind each. No level is above the number of nodes, so 16 bits are enough.
#[derive(Drop)]
pub struct Draft<'a> {
    pub widths: &'a mut [u32],
    pub levels: &'a mut [u16],
    pub offsets: &'a mut [u32],
    pub follows: &'a mut [u32],
}

// Whether the Try p has a finally.
pub fn has_finally(nodes: &Nodes, names: &[u8], b: NodeId, p: NodeId) -> bool
    requires ready { Ready nodes.now names.now b.0 }
    requires p_bound { p.0 < count nodes.now }
    requires p_value { shape_at nodes.now p.0 ≡ Try }
    ensures { result ≡ has_role nodes.now role.Finally (order nodes.now p.0) }
{
    table_children::first_child(nodes, p, Part::of(kinds::BLOCK, roles::FINALLY)).is_some()
}

// Whether the Try p has a catch. One function for this and the one above would take a kind and a role, and ask that they fit each other: what they share is
// `first_child` already.
pub fn has_catch(nodes: &Nodes, names: &[u8], b: NodeId, p: NodeId) -> bool
    requires ready { Ready nodes.now names.now b.0 }
    requires p_bound { p.0 < count nodes.now }
    requires p_value { shape_at nodes.now p.0 ≡ Try }
    ensures { result ≡ has_role nodes.now role.Alternate (order nodes.now p.0) }
{
    table_children::first_child(nodes, p, Part::of(kinds::CATCH_CLAUSE, roles::ALTERNATE)).is_some()
}

// The words of the Try p itself: OPEN's, where it has a finally.
#[tactic(auto, using(crate::proofs::EndLaws::try_own))]
pub fn own_of_try(nodes: &Nodes, names: &[u8], b: NodeId, p: NodeId) -> u32
    requires ready { Ready nodes.now names.now b.0 }
    requires b_lt_p { b.0 < p.0 }
    requires p_bound { p.0 < count nodes.now }
    requires p_value { shape_at nodes.now p.0 ≡ Try }
    ensures value { result ≡ own_width nodes.now b.0 p.0 }
    ensures upper_bound { result ≤ 2 }
{
    if has_finally(nodes, names, b, p) {
        return 2;
    }
    0
}

// Where the words of n stand, a part of the Try p: the Block's first, then the catch's, the finally's last.
fn offset_in_try(nodes: &Nodes, names: &[u8], b: NodeId, draft: &Draft, p: NodeId, n: NodeId) -> u32
    requires turn { Turn nodes.now names.now b.0 n.0 draft.now }
    requires p_value { p.0 ≡ up_of nodes.now n.0 }
    requires p_value_2 { shape_at nodes.now p.0 ≡ Try }
    ensures { result ≡ offset_at nodes.now names.now b.0 n.0 }
{
    let o = draft.offsets[p.0 as usize];
    let r = table_records::role(nodes, n);
    if r == roles::FINALLY {
        return o + draft.widths[p.0 as usize] - draft.widths[n.0 as usize];
    }
    let start = o + own_of_try(nodes, names, b, p);
    if r == roles::HELD {
        return start;
    }
    let Some(block) = table_children::first_child(nodes, p, Part::of(kinds::BLOCK, roles::HELD))
    else {
        return 0;
    };
    start + draft.widths[block.0 as usize]
}

// Where the words of n stand: where the end of its holder p stands, less its own width and the words behind it.
#[tactic(auto, using(crate::proofs::OffsetLaws::up_room, crate::proofs::OffsetLaws::plain_room, crate::proofs::OffsetLaws::plain_less, crate::proofs::OffsetLaws::plain_is_lem, crate::proofs::TurnLaws::holder_offset, crate::proofs::TurnLaws::behind_is))]
fn offset_of(nodes: &Nodes, names: &[u8], b: NodeId, draft: &Draft, p: NodeId, n: NodeId) -> u32
    requires turn { Turn nodes.now names.now b.0 n.0 draft.now }
    requires p_value { p.0 ≡ up_of nodes.now n.0 }
    ensures { result ≡ offset_at nodes.now names.now b.0 n.0 }
{
    if is_try(shape_of(nodes, p)) {
        return offset_in_try(nodes, names, b, draft, p, n);
    }
    let o = draft.offsets[p.0 as usize];
    let behind = draft.offsets[n.0 as usize];
    o + draft.widths[p.0 as usize] - behind - draft.widths[n.0 as usize]
}

// Whether a part of a holder of the shape s goes on by itself; x says whether a further part follows, r is its role.
fn goes_by(s: Shape, x: bool, r: u32) -> bool
    ensures { result ≡ goes_by s x r }
{
    match s {
        Shape::Leaf | Shape::If | Shape::With | Shape::Label | Shape::Catch => false,
        Shape::Class | Shape::Block | Shape::Switch | Shape::Case => x,
        Shape::Loop => true,
        Shape::Try => r == roles::FINALLY,
    }
}

// From which node's end control goes on where n falls through: its own, or as for its holder p.
fn follow_of(nodes: &Nodes, names: &[u8], b: NodeId, draft: &Draft, p: NodeId, n: NodeId) -> u32
    requires turn { Turn nodes.now names.now b.0 n.0 draft.now }
    requires p_value { p.0 ≡ up_of nodes.now n.0 }
    ensures { Follow nodes.now names.now b.0 n.0 result }
{
    let behind = draft.offsets[n.0 as usize];
    if goes_by(
        shape_of(nodes, p),
        behind != 0,
        table_records::role(nodes, n),
    ) {
        return n.0;
    }
    draft.follows[p.0 as usize]
}

// One more than the depth of the pending ends at a part of p; l is that of p.
fn level_of(nodes: &Nodes, names: &[u8], b: NodeId, p: NodeId, l: u16) -> u16
    requires ready { Ready nodes.now names.now b.0 }
    requires p_bound { p.0 < count nodes.now }
    requires l_bound { l ≤ 65534 }
    ensures { result ≡ cond (is_try (shape_at nodes.now p.0) && has_role nodes.now role.Finally (order nodes.now p.0)) (suc l) l }
{
    if is_try(shape_of(nodes, p)) && has_finally(nodes, names, b, p) {
        return l + 1;
    }
    l
}

// One node of the unit.
#[tactic(auto, using(crate::proofs::PlacesLaws::level_is_lem, crate::proofs::PlacesLaws::places_turn, crate::proofs::TurnLaws::holder_lt, crate::proofs::TurnLaws::holder_level, crate::proofs::TurnLaws::level_small))]
fn lay_node(nodes: &Nodes, names: &[u8], b: NodeId, n: NodeId, draft: &mut Draft)
    requires { Turn nodes.now names.now b.0 n.0 draft.old }
    ensures same_arrays { SameArrays draft.old draft.new }
    ensures room { Room nodes.now draft.new }
    ensures widths { draft.new.widths.now ≡ draft.old.widths.now }
    ensures places { Places nodes.now names.now b.0 (n.0 + 1) draft.new.levels.now draft.new.offsets.now draft.new.follows.now }
{
    let p = up_of(nodes, n);
    let level = level_of(nodes, names, b, p, draft.levels[p.0 as usize]);
    let offset = offset_of(nodes, names, b, draft, p, n);
    let follow = follow_of(nodes, names, b, draft, p, n);
    draft.levels[n.0 as usize] = level;
    draft.offsets[n.0 as usize] = offset;
    draft.follows[n.0 as usize] = follow;
}

// One turn: a node that isn't the unit's changes nothing.
fn lay_at(nodes: &Nodes, names: &[u8], b: NodeId, n: NodeId, draft: &mut Draft)
    requires ready { Ready nodes.now names.now b.0 }
    requires b_lt_n { b.0 < n.0 }
    requires n_bound { n.0 < count nodes.now }
    requires room { Room nodes.now draft.old }
    requires wide { Wide nodes.now b.0 draft.old.widths.now }
    requires places { Places nodes.now names.now b.0 n.0 draft.old.levels.now draft.old.offsets.now draft.old.follows.now }
    ensures same_arrays { SameArrays draft.old draft.new }
    ensures room { Room nodes.now draft.new }
    ensures widths { draft.new.widths.now ≡ draft.old.widths.now }
    ensures places { Places nodes.now names.now b.0 (n.0 + 1) draft.new.levels.now draft.new.offsets.now draft.new.follows.now }
{
    if draft.levels[n.0 as usize] == 0 {
        return;
    }
    lay_node(nodes, names, b, n, draft);
}

// Gives each node of the unit its place.
pub fn fill_places(nodes: &Nodes, names: &[u8], b: NodeId, draft: &mut Draft)
    requires ready { Ready nodes.now names.now b.0 }
    requires room { Room nodes.now draft.old }
    requires units { Units nodes.now b.0 (count nodes.now) draft.old.levels.now }
    requires widths { Widths nodes.now b.0 draft.old.widths.now draft.old.offsets.now }
    ensures same_arrays { SameArrays draft.old draft.new }
    ensures room { Room nodes.now draft.new }
    ensures widths { draft.new.widths.now ≡ draft.old.widths.now }
    ensures places { Places nodes.now names.now b.0 (count nodes.now) draft.new.levels.now draft.new.offsets.now draft.new.follows.now }
{
    draft.offsets[b.0 as usize] = 0;
    draft.follows[b.0 as usize] = b.0;
    for j in b.0 + 1..table_records::size(nodes) {
        lay_at(nodes, names, b, NodeId(j), draft);
    }
}
