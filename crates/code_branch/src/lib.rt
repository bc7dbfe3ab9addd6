// Where control goes: from the end of a node, and by a jump.
#![tactic(auto)]

ghost use Rattle.std.specs.Prelude.{◌≡◌, true, ◌&&◌, ◌+◌, ◌<◌, ◌≤◌, eqb};
ghost use Rattle.table_records.specs.Table.{count, role_of};
ghost use Rattle.route_completion.specs.Sem.{normal, breaks, continues, elem, comp_of};
ghost use Rattle.code_flat.specs.Code.{at};
ghost use Rattle.code_tree.specs.Labels.{name_id, lab_at, id_at};
ghost use Rattle.code_tree.specs.Statements.{leaf_at};
ghost use Rattle.code_tree.specs.Parts.{shape_at, is_labeled};
ghost use Rattle.code_layout.specs.Widths.{in_unit, width_at};
ghost use Rattle.code_layout.specs.Context.{offset_at};
ghost use Rattle.code_targets.specs.Targets.{is_loop, is_breakable, catches_at, target, depth_at, labels_at};
ghost use Rattle.code_contexts.specs.Contexts.{next_of};
ghost use Rattle.code_branch.specs.Branch.{stat_of, comp_by, end_by, LabelIn, stops_at, land_at};

use code_machine::Target;
use code_shapes::{has_same_label, is_labeled, is_try, shape_of, up_of};
use code_tree::Shape;
use std::marker::Model;
use table_names::named::NamedNodes;
use table_records::nodes::Nodes;
use table_records::{NodeId, kinds, roles};

// The tables, the node that holds the unit's statements, and the arrays of the code maker, once each node has its place. Two functions make a `NamedNodes` of the
// tables; with one in their place, all that read the nodes would go by it.
#[derive(Drop)]
pub struct Layout<'a> {
    pub nodes: &'a Nodes<'a>,
    pub names: &'a [u8],
    pub body: NodeId,
    pub widths: &'a [u32],
    pub levels: &'a [u16],
    pub offsets: &'a [u32],
    pub follows: &'a [u32],
}

// In a clause it is its plan: their numbers. That the arrays are the code maker's is known where a function names a field.
impl<'a> Model for Layout<'a> {
    ghost use Rattle.code_branch.specs.Branch.{Plan, Arrays};

    ghost Value = { Plan };

    ghost view = { λ l. record { nodes = l.nodes.now; names = l.names.now; body = l.body.0; widths = l.widths.now; levels = l.levels.now; offsets = l.offsets.now; follows = l.follows.now } };

    ghost invariant = { λ l. Arrays l.nodes.now l.names.now l.body.0 l.widths.now l.levels.now l.offsets.now l.follows.now };
}

// How a Break, Continue, Return or Throw completes; a label, where there is one, by its node.
#[derive(Clone, Copy)]
pub enum Jump {
    Break(Option<NodeId>),
    Continue(Option<NodeId>),
    Return,
    Throw,
}

pub fn is_loop(s: Shape) -> bool
    ensures { result ≡ is_loop s }
{
    matches!(s, Shape::Loop)
}

fn is_breakable(s: Shape) -> bool
    ensures { result ≡ is_breakable s }
{
    matches!(s, Shape::Loop | Shape::Switch)
}

// Where control goes from the end of f: behind it, to the next turn of the loop that holds it, from a finally to what is pending, from the body to the end of the unit.
#[tactic(auto, using(crate::proofs::NextLaws::next_root, crate::proofs::NextLaws::next_try, crate::proofs::NextLaws::next_loop, crate::proofs::NextLaws::next_plain, crate::proofs::NextLaws::up_deep, crate::proofs::NextLaws::up_small, crate::proofs::NextLaws::end_small))]
pub fn next_of(laid: &Layout, f: NodeId) -> Target
    requires b_le_f { laid.now.body ≤ f.0 }
    requires f_bound { f.0 < count laid.now.nodes }
    requires f_value { in_unit laid.now.nodes laid.now.body f.0 ≡ true }
    ensures { stat_of result ≡ next_of laid.now.nodes laid.now.names laid.now.body f.0 }
{
    if f.0 <= laid.body.0 {
        return Target {
            place: laid.widths[laid.body.0 as usize],
            depth: 0,
        };
    }
    let p = up_of(laid.nodes, f);
    let s = shape_of(laid.nodes, p);
    if is_try(s) {
        return Target {
            place: 0,
            depth: u32::from(laid.levels[f.0 as usize]) - 1,
        };
    }
    let depth = u32::from(laid.levels[p.0 as usize]) - 1;
    if is_loop(s) {
        return Target {
            place: laid.offsets[p.0 as usize] + 3,
            depth,
        };
    }
    Target {
        place: laid.offsets[f.0 as usize] + laid.widths[f.0 as usize],
        depth,
    }
}

// Where what falls out of n goes on.
#[tactic(auto, using(crate::proofs::JumpLaws::follow_is, crate::proofs::JumpLaws::follow_low))]
pub fn normal_target(laid: &Layout, n: NodeId) -> Target
    requires n_bound { n.0 < count laid.now.nodes }
    requires n_value { in_unit laid.now.nodes laid.now.body n.0 ≡ true }
    ensures { stat_of result ≡ target laid.now.nodes laid.now.names laid.now.body n.0 normal }
{
    let f = laid.follows[n.0 as usize];
    next_of(laid, NodeId(f))
}

// Where the loop p asks for its next turn.
#[tactic(auto, using(crate::proofs::JumpLaws::offset_is, crate::proofs::JumpLaws::depth_is, crate::proofs::JumpLaws::level_some, crate::proofs::JumpLaws::end_small))]
fn turn_of(laid: &Layout, p: NodeId) -> Target
    requires p_bound { p.0 < count laid.now.nodes }
    requires p_value { in_unit laid.now.nodes laid.now.body p.0 ≡ true }
    ensures { stat_of result ≡ at (offset_at laid.now.nodes laid.now.names laid.now.body p.0 + 3) (depth_at laid.now.nodes laid.now.names laid.now.body p.0) }
{
    Target {
        place: laid.offsets[p.0 as usize] + 3,
        depth: u32::from(laid.levels[p.0 as usize]) - 1,
    }
}

// Where the words of n end: the catch begins there, if n is the Block of a Try that has one. The pending ends are as deep as in n.
#[tactic(auto, using(crate::proofs::JumpLaws::offset_is, crate::proofs::JumpLaws::width_is_lem, crate::proofs::JumpLaws::depth_is, crate::proofs::JumpLaws::level_some, crate::proofs::JumpLaws::end_small))]
fn catch_behind(laid: &Layout, n: NodeId) -> Target
    requires n_bound { n.0 < count laid.now.nodes }
    requires n_value { in_unit laid.now.nodes laid.now.body n.0 ≡ true }
    ensures { stat_of result ≡ at (offset_at laid.now.nodes laid.now.names laid.now.body n.0 + width_at laid.now.nodes laid.now.body n.0) (depth_at laid.now.nodes laid.now.names laid.now.body n.0) }
{
    Target {
        place: laid.offsets[n.0 as usize] + laid.widths[n.0 as usize],
        depth: u32::from(laid.levels[n.0 as usize]) - 1,
    }
}

// Whether p is a Labeled of the name of l.
fn is_labeled_as(laid: &Layout, p: NodeId, l: NodeId) -> bool
    requires p_bound { p.0 < count laid.now.nodes }
    requires l_bound { l.0 < count laid.now.nodes }
    ensures { result ≡ (is_labeled (shape_at laid.now.nodes p.0) && eqb (name_id laid.now.nodes laid.now.names l.0) (id_at laid.now.nodes laid.now.names p.0)) }
{
    let named = &NamedNodes {
        nodes: laid.nodes,
        names: laid.names,
    };
    is_labeled(shape_of(laid.nodes, p)) && has_same_label(named, p, l)
}

// Whether a Labeled of the name of l stands over p, with no statement but Labeled between.
#[tactic(auto, using(code_layout::proofs::Stands::in_from, code_contexts::proofs::PlacesLaws::above_in_lem, crate::proofs::JumpLaws::labels_root, crate::proofs::JumpLaws::labels_stop, crate::proofs::JumpLaws::labels_hit, crate::proofs::JumpLaws::labels_on))]
fn has_label_above(laid: &Layout, p: NodeId, l: NodeId) -> bool
    requires p_bound { p.0 < count laid.now.nodes }
    requires p_value { in_unit laid.now.nodes laid.now.body p.0 ≡ true }
    requires l_bound { l.0 < count laid.now.nodes }
    ensures { result ≡ elem (name_id laid.now.nodes laid.now.names l.0) (labels_at laid.now.nodes laid.now.names laid.now.body p.0) }
{
    let named = &NamedNodes {
        nodes: laid.nodes,
        names: laid.names,
    };
    let mut at = p.0;
    while laid.body.0 < at {
        let q = up_of(laid.nodes, NodeId(at));
        if !is_labeled(shape_of(laid.nodes, q)) {
            return false;
        }
        if has_same_label(named, q, l) {
            return true;
        }
        at = q.0;
    }
    false
}

// Whether p is a loop that a continue with the label l goes on with.
fn takes_continue(laid: &Layout, p: NodeId, l: NodeId) -> bool
    requires p_bound { p.0 < count laid.now.nodes }
    requires p_value { in_unit laid.now.nodes laid.now.body p.0 ≡ true }
    requires l_bound { l.0 < count laid.now.nodes }
    ensures { result ≡ (is_loop (shape_at laid.now.nodes p.0) && elem (name_id laid.now.nodes laid.now.names l.0) (labels_at laid.now.nodes laid.now.names laid.now.body p.0)) }
{
    is_loop(shape_of(laid.nodes, p)) && has_label_above(laid, p, l)
}

// Whether p is a Try that catches what its part n throws: n is its Block, and it has a catch.
fn catches(laid: &Layout, p: NodeId, n: NodeId) -> bool
    requires p_bound { p.0 < count laid.now.nodes }
    requires n_bound { n.0 < count laid.now.nodes }
    ensures { result ≡ catches_at laid.now.nodes p.0 (role_of laid.now.nodes n.0) }
{
    is_try(shape_of(laid.nodes, p))
        && table_records::role(laid.nodes, n) == roles::HELD
        && code_contexts::has_catch(laid.nodes, laid.names, laid.body, p)
}

// Whether a jump out of the part n ends at its holder.
#[tactic(auto, using(code_contexts::proofs::PlacesLaws::above_in_lem))]
fn stops_at(laid: &Layout, n: NodeId, jump: Jump) -> bool
    requires b_lt_n { laid.now.body < n.0 }
    requires n_bound { n.0 < count laid.now.nodes }
    requires n_value { in_unit laid.now.nodes laid.now.body n.0 ≡ true }
    requires label_in { LabelIn laid.now.nodes jump }
    ensures { result ≡ stops_at laid.now.nodes laid.now.names laid.now.body (comp_by laid.now.nodes laid.now.names jump) n.0 }
{
    let p = up_of(laid.nodes, n);
    match jump {
        Jump::Break(None) => is_breakable(shape_of(laid.nodes, p)),
        Jump::Break(Some(l)) => is_labeled_as(laid, p, l),
        Jump::Continue(None) => is_loop(shape_of(laid.nodes, p)),
        Jump::Continue(Some(l)) => takes_continue(laid, p, l),
        Jump::Return => false,
        Jump::Throw => catches(laid, p, n),
    }
}

// Where a jump goes that ends at the holder of n.
#[tactic(auto, using(code_contexts::proofs::PlacesLaws::above_in_lem))]
fn land_at(laid: &Layout, n: NodeId, jump: Jump) -> Target
    requires b_lt_n { laid.now.body < n.0 }
    requires n_bound { n.0 < count laid.now.nodes }
    requires n_value { in_unit laid.now.nodes laid.now.body n.0 ≡ true }
    requires n_value_2 { stops_at laid.now.nodes laid.now.names laid.now.body (comp_by laid.now.nodes laid.now.names jump) n.0 ≡ true }
    ensures { stat_of result ≡ land_at laid.now.nodes laid.now.names laid.now.body (comp_by laid.now.nodes laid.now.names jump) n.0 }
{
    let p = up_of(laid.nodes, n);
    match jump {
        Jump::Break(_) => normal_target(laid, p),
        Jump::Continue(_) => turn_of(laid, p),
        Jump::Return => Target { place: 0, depth: 0 },
        Jump::Throw => catch_behind(laid, n),
    }
}

// Which of the ends behind the unit's words a jump goes to that leaves the unit. (No unit is coded where a break or continue does.)
fn end_by(jump: Jump) -> u32
    ensures value { result ≡ end_by jump }
    ensures upper_bound { result ≤ 6 }
{
    match jump {
        Jump::Break(_) | Jump::Continue(_) => 6,
        Jump::Return => 2,
        Jump::Throw => 4,
    }
}

// Where a jump at n goes.
#[tactic(auto, using(code_contexts::proofs::PlacesLaws::above_in_lem, code_layout::proofs::Stands::in_from, code_layout::proofs::LayoutLaws::in_root, crate::proofs::BranchLaws::jump_on, crate::proofs::BranchLaws::jump_stop, crate::proofs::JumpLaws::jump_is, crate::proofs::JumpLaws::end_is_lem, crate::proofs::JumpLaws::end_small, crate::proofs::JumpLaws::width_is_lem))]
pub fn jump_target(laid: &Layout, n: NodeId, jump: Jump) -> Target
    requires n_bound { n.0 < count laid.now.nodes }
    requires n_value { in_unit laid.now.nodes laid.now.body n.0 ≡ true }
    requires label_in { LabelIn laid.now.nodes jump }
    ensures { stat_of result ≡ target laid.now.nodes laid.now.names laid.now.body n.0 (comp_by laid.now.nodes laid.now.names jump) }
{
    let mut at = n.0;
    while laid.body.0 < at {
        if stops_at(laid, NodeId(at), jump) {
            return land_at(laid, NodeId(at), jump);
        }
        at = up_of(laid.nodes, NodeId(at)).0;
    }
    Target {
        place: laid.widths[laid.body.0 as usize] + end_by(jump),
        depth: 0,
    }
}

// Where a statement without parts goes on: a jump to its target, any other on.
#[tactic(auto, unfolding(code_tree::specs::Statements::leaf_at))]
pub fn leaf_target(laid: &Layout, n: NodeId) -> Target
    requires n_bound { n.0 < count laid.now.nodes }
    requires n_value { in_unit laid.now.nodes laid.now.body n.0 ≡ true }
    ensures { stat_of result ≡ target laid.now.nodes laid.now.names laid.now.body n.0 (comp_of (leaf_at laid.now.nodes laid.now.names n.0)) }
{
    match table_records::kind(laid.nodes, n) {
        kinds::BREAK => jump_target(
            laid,
            n,
            Jump::Break(table_children::label_of(laid.nodes, n)),
        ),
        kinds::CONTINUE => jump_target(
            laid,
            n,
            Jump::Continue(table_children::label_of(laid.nodes, n)),
        ),
        kinds::RETURN => jump_target(laid, n, Jump::Return),
        kinds::THROW => jump_target(laid, n, Jump::Throw),
        _ => normal_target(laid, n),
    }
}
