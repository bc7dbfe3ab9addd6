// The words of one node of the unit, by its shape: at most ten, in an array with zeros behind them.
#![tactic(auto)]

ghost use Rattle.std.specs.Prelude.{◌≡◌, true, false, ◌∷◌, [], ◌+◌, ◌<◌, ◌≤◌, eqb};
ghost use Rattle.table_records.specs.Table.{count};
ghost use Rattle.route_completion.specs.Sem.{normal, pick};
ghost use Rattle.code_flat.specs.Code.{at};
ghost use Rattle.code_flat.specs.Has.{Has};
ghost use Rattle.code_flat.specs.Opcodes as op;
ghost use Rattle.code_tree.specs.Parts.{up_of, shape_at, parts, order, Part};
ghost use Rattle.code_tree.specs.declared.Shape.TheVariants.{Leaf, Class, If, With, Block, Loop, Switch, Case, Try};
ghost use Rattle.code_layout.specs.Widths.{sum, is_try, number_by, in_unit, own_width};
ghost use Rattle.code_layout.specs.Context.{ifz, head0, offset_at};
ghost use Rattle.code_layout.specs.Words.{default_from, words_at};
ghost use Rattle.code_targets.specs.Targets.{target, depth_at};
ghost use Rattle.code_widths.specs.Widths.{counted};
ghost use Rattle.code_contexts.specs.Contexts.{Ready};
ghost use Rattle.code_branch.specs.Branch.{stat_of};
ghost use Rattle.code_tree.specs.First.{first_of};

use code_branch::{Layout, leaf_target, normal_target};
use code_machine::{Target, opcodes};
use code_shapes::{is_try, next_part, number_by, shape_of, up_of};
use code_tree::Shape;
use table_records::nodes::Nodes;
use table_records::{NodeId, kinds, roles};

// How many words stand before the jump of an If, of a Switch; before the ASK and the jump of a loop.
const ASK_WORDS: u32 = 4;

const LEAVE_WORDS: u32 = 3;

// How many words an If, a loop and a Switch take; what they hold begins behind them. A loop's jump out stands behind its ASK.
const IF_WORDS: u32 = 7;

const LOOP_OUT: u32 = 7;

const LOOP_WORDS: u32 = 10;

const SWITCH_WORDS: u32 = 7;

// LIST n, and a jump.
fn listing(n: NodeId, t: Target) -> [u32; 10]
    ensures { result ≡ op.List ∷ n.0 ∷ op.Leave ∷ t.place ∷ t.depth ∷ 0 ∷ 0 ∷ 0 ∷ 0 ∷ 0 ∷ [] }
{
    [
        opcodes::LIST,
        n.0,
        opcodes::LEAVE,
        t.place,
        t.depth,
        0,
        0,
        0,
        0,
        0,
    ]
}

// A jump.
fn leaving(t: Target) -> [u32; 10]
    ensures { result ≡ op.Leave ∷ t.place ∷ t.depth ∷ 0 ∷ 0 ∷ 0 ∷ 0 ∷ 0 ∷ 0 ∷ 0 ∷ [] }
{
    [opcodes::LEAVE, t.place, t.depth, 0, 0, 0, 0, 0, 0, 0]
}

// ASK n or SELECT n with its two places, and a jump.
fn asking(code: u32, n: NodeId, x: u32, y: u32, t: Target) -> [u32; 10]
    ensures { result ≡ code ∷ n.0 ∷ x ∷ y ∷ op.Leave ∷ t.place ∷ t.depth ∷ 0 ∷ 0 ∷ 0 ∷ [] }
{
    [code, n.0, x, y, opcodes::LEAVE, t.place, t.depth, 0, 0, 0]
}

// Where a node that holds a list goes first: into its first part, which begins behind its own words; on, if it has none.
#[tactic(auto, using(crate::proofs::PartLaws::ifz_none, crate::proofs::PartLaws::ifz_some, crate::proofs::PartLaws::number_fits, crate::proofs::PartLaws::head_none, crate::proofs::PartLaws::head_has, code_branch::proofs::JumpLaws::depth_is, code_branch::proofs::JumpLaws::end_small, code_branch::proofs::JumpLaws::offset_is))]
fn entry_of(laid: &Layout, n: NodeId, own: u32) -> Target
    requires b_lt_n { laid.now.body < n.0 }
    requires n_bound { n.0 < count laid.now.nodes }
    requires n_value { in_unit laid.now.nodes laid.now.body n.0 ≡ true }
    requires n_value_2 { is_try (shape_at laid.now.nodes n.0) ≡ false }
    requires own_value { own ≡ number_by (shape_at laid.now.nodes n.0) }
    ensures { stat_of result ≡ ifz (head0 (order laid.now.nodes n.0)) (target laid.now.nodes laid.now.names laid.now.body n.0 normal) (at (offset_at laid.now.nodes laid.now.names laid.now.body n.0 + own) (depth_at laid.now.nodes laid.now.names laid.now.body n.0)) }
{
    if laid.widths[n.0 as usize] == own {
        return normal_target(laid, n);
    }
    Target {
        place: laid.offsets[n.0 as usize] + own,
        depth: u32::from(laid.levels[n.0 as usize]) - 1,
    }
}

// Whether no part of p stands behind its part n: their words end at the same place.
#[tactic(auto, using(crate::proofs::PartLaws::holder_small, crate::proofs::PartLaws::last_is_lem, code_branch::proofs::JumpLaws::end_small))]
fn is_last(laid: &Layout, p: NodeId, n: NodeId) -> bool
    requires b_lt_n { laid.now.body < n.0 }
    requires n_bound { n.0 < count laid.now.nodes }
    requires n_value { in_unit laid.now.nodes laid.now.body n.0 ≡ true }
    requires p_value { p.0 ≡ up_of laid.now.nodes n.0 }
    requires p_value_2 { is_try (shape_at laid.now.nodes p.0) ≡ false }
    ensures { result ≡ eqb (sum (counted laid.now.nodes laid.now.body) (parts laid.now.nodes p.0 (n.0 + 1))) 0 }
{
    laid.offsets[n.0 as usize] + laid.widths[n.0 as usize]
        == laid.offsets[p.0 as usize] + laid.widths[p.0 as usize]
}

// A statement without parts is listed.
fn leaf_words(laid: &Layout, n: NodeId) -> [u32; 10]
    requires b_lt_n { laid.now.body < n.0 }
    requires n_bound { n.0 < count laid.now.nodes }
    requires n_value { in_unit laid.now.nodes laid.now.body n.0 ≡ true }
    requires n_value_2 { shape_at laid.now.nodes n.0 ≡ Leaf }
    ensures { Has result 0 (words_at laid.now.nodes laid.now.names laid.now.body n.0) }
{
    let t = leaf_target(laid, n);
    listing(n, t)
}

// A class is listed, and then its static blocks run.
fn class_words(laid: &Layout, n: NodeId) -> [u32; 10]
    requires b_lt_n { laid.now.body < n.0 }
    requires n_bound { n.0 < count laid.now.nodes }
    requires n_value { in_unit laid.now.nodes laid.now.body n.0 ≡ true }
    requires n_value_2 { shape_at laid.now.nodes n.0 ≡ Class }
    ensures { Has result 0 (words_at laid.now.nodes laid.now.names laid.now.body n.0) }
{
    let own = number_by(Shape::Class);
    let t = entry_of(laid, n, own);
    listing(n, t)
}

// An If without an alternate goes to its own jump on no. An alternate may stand before the held statement.
#[tactic(auto, using(code_branch::proofs::JumpLaws::end_small))]
fn if_words(laid: &Layout, n: NodeId) -> [u32; 10]
    requires b_lt_n { laid.now.body < n.0 }
    requires n_bound { n.0 < count laid.now.nodes }
    requires n_value { in_unit laid.now.nodes laid.now.body n.0 ≡ true }
    requires n_value_2 { shape_at laid.now.nodes n.0 ≡ If }
    ensures { Has result 0 (words_at laid.now.nodes laid.now.names laid.now.body n.0) }
{
    let t = normal_target(laid, n);
    let o = laid.offsets[n.0 as usize];
    // An If holds a statement.
    let Some(c) = next_part(laid.nodes, n, n.0 + 1) else {
        return leaving(t);
    };
    let second = o + IF_WORDS + laid.widths[c.0 as usize];
    if second == o + laid.widths[n.0 as usize] {
        return asking(opcodes::ASK, n, o + IF_WORDS, o + ASK_WORDS, t);
    }
    if table_records::role(laid.nodes, c) == roles::ALTERNATE {
        return asking(opcodes::ASK, n, second, o + IF_WORDS, t);
    }
    asking(opcodes::ASK, n, o + IF_WORDS, second, t)
}

#[tactic(auto, using(crate::proofs::WordsLaws::with_has))]
fn with_words(laid: &Layout, n: NodeId) -> [u32; 10]
    requires b_lt_n { laid.now.body < n.0 }
    requires n_value { shape_at laid.now.nodes n.0 ≡ With }
    ensures { Has result 0 (words_at laid.now.nodes laid.now.names laid.now.body n.0) }
{
    [opcodes::LIST, n.0, 0, 0, 0, 0, 0, 0, 0, 0]
}

fn block_words(laid: &Layout, n: NodeId) -> [u32; 10]
    requires b_lt_n { laid.now.body < n.0 }
    requires n_bound { n.0 < count laid.now.nodes }
    requires n_value { in_unit laid.now.nodes laid.now.body n.0 ≡ true }
    requires n_value_2 { shape_at laid.now.nodes n.0 ≡ Block }
    ensures { Has result 0 (words_at laid.now.nodes laid.now.names laid.now.body n.0) }
{
    let own = number_by(Shape::Block);
    let t = entry_of(laid, n, own);
    leaving(t)
}

// A loop asks before its body or behind it; one without a test goes on whatever the answer.
#[tactic(auto, using(code_branch::proofs::JumpLaws::end_small))]
fn loop_words(laid: &Layout, n: NodeId) -> [u32; 10]
    requires b_lt_n { laid.now.body < n.0 }
    requires n_bound { n.0 < count laid.now.nodes }
    requires n_value { in_unit laid.now.nodes laid.now.body n.0 ≡ true }
    requires n_value_2 { shape_at laid.now.nodes n.0 ≡ Loop }
    ensures { Has result 0 (words_at laid.now.nodes laid.now.names laid.now.body n.0) }
{
    let t = normal_target(laid, n);
    let o = laid.offsets[n.0 as usize];
    let depth = u32::from(laid.levels[n.0 as usize]) - 1;
    let first = if code_shapes::is_before(laid.nodes, n) {
        o + LEAVE_WORDS
    } else {
        o + LOOP_WORDS
    };
    let no = if code_shapes::has_test(laid.nodes, n) {
        o + LOOP_OUT
    } else {
        o + LOOP_WORDS
    };
    [
        opcodes::LEAVE,
        first,
        depth,
        opcodes::ASK,
        n.0,
        o + LOOP_WORDS,
        no,
        opcodes::LEAVE,
        t.place,
        t.depth,
    ]
}

// The case of the Switch n behind its case c. Behind the last, no node is read.
fn next_case(laid: &Layout, n: NodeId, c: NodeId) -> Option<NodeId>
    requires b_lt_n { laid.now.body < n.0 }
    requires n_bound { n.0 < count laid.now.nodes }
    requires n_value { in_unit laid.now.nodes laid.now.body n.0 ≡ true }
    requires n_value_2 { shape_at laid.now.nodes n.0 ≡ Switch }
    requires part { Part laid.now.nodes n.0 c.0 }
    ensures { result ≡ first_of (parts laid.now.nodes n.0 (c.0 + 1)) }
{
    let nodes = laid.nodes;
    if is_last(laid, n, c) {
        return None;
    }
    next_part(nodes, n, c.0 + 1)
}

// Where the `default` of the Switch n begins; its own jump, if it has none.
#[tactic(auto, using(crate::proofs::PartLaws::default_of, crate::proofs::PartLaws::default_yes, crate::proofs::PartLaws::default_no, crate::proofs::PartLaws::default_end, crate::proofs::PartLaws::default_is_lem, crate::proofs::PartLaws::case_in, crate::proofs::PartLaws::rest_of, crate::proofs::PartLaws::IsFound, crate::proofs::PartLaws::left_of, crate::proofs::PartLaws::rest_is, crate::proofs::PartLaws::found_is, crate::proofs::PartLaws::left_less, code_branch::proofs::JumpLaws::end_small, code_branch::proofs::JumpLaws::offset_is))]
fn default_at(laid: &Layout, n: NodeId) -> u32
    requires b_lt_n { laid.now.body < n.0 }
    requires n_bound { n.0 < count laid.now.nodes }
    requires n_value { in_unit laid.now.nodes laid.now.body n.0 ≡ true }
    requires n_value_2 { shape_at laid.now.nodes n.0 ≡ Switch }
    ensures { result ≡ default_from laid.now.nodes laid.now.body (order laid.now.nodes n.0) (offset_at laid.now.nodes laid.now.names laid.now.body n.0 + 7) (offset_at laid.now.nodes laid.now.names laid.now.body n.0 + 4) }
{
    let mut next = next_part(laid.nodes, n, n.0 + 1);
    while let Some(c) = next {
        if code_shapes::is_default(laid.nodes, c) {
            return laid.offsets[c.0 as usize];
        }
        next = next_case(laid, n, c);
    }
    laid.offsets[n.0 as usize] + ASK_WORDS
}

// A Switch without cases goes to its own jump.
#[tactic(auto, using(code_branch::proofs::JumpLaws::end_small))]
fn switch_words(laid: &Layout, n: NodeId) -> [u32; 10]
    requires b_lt_n { laid.now.body < n.0 }
    requires n_bound { n.0 < count laid.now.nodes }
    requires n_value { in_unit laid.now.nodes laid.now.body n.0 ≡ true }
    requires n_value_2 { shape_at laid.now.nodes n.0 ≡ Switch }
    ensures { Has result 0 (words_at laid.now.nodes laid.now.names laid.now.body n.0) }
{
    let t = normal_target(laid, n);
    let o = laid.offsets[n.0 as usize];
    if laid.widths[n.0 as usize] == SWITCH_WORDS {
        return asking(opcodes::SELECT, n, 0, o + ASK_WORDS, t);
    }
    let d = default_at(laid, n);
    asking(opcodes::SELECT, n, o + SWITCH_WORDS, d, t)
}

// A case names the next one, and jumps into its statements.
#[tactic(auto, using(crate::proofs::PartLaws::case_holder, code_branch::proofs::JumpLaws::end_small))]
fn case_words(laid: &Layout, n: NodeId) -> [u32; 10]
    requires b_lt_n { laid.now.body < n.0 }
    requires n_bound { n.0 < count laid.now.nodes }
    requires n_value { in_unit laid.now.nodes laid.now.body n.0 ≡ true }
    requires n_value_2 { shape_at laid.now.nodes n.0 ≡ Case }
    ensures { Has result 0 (words_at laid.now.nodes laid.now.names laid.now.body n.0) }
{
    let p = up_of(laid.nodes, n);
    let own = number_by(Shape::Case);
    let t = entry_of(laid, n, own);
    if is_last(laid, p, n) {
        return [opcodes::CASE, 0, t.place, t.depth, 0, 0, 0, 0, 0, 0];
    }
    let next = laid.offsets[n.0 as usize] + laid.widths[n.0 as usize];
    [opcodes::CASE, next, t.place, t.depth, 0, 0, 0, 0, 0, 0]
}

// A Try with a finally opens it.
#[tactic(auto, using(crate::proofs::PartLaws::finally_none, crate::proofs::WordsLaws::catch_has))]
fn try_words(laid: &Layout, n: NodeId) -> [u32; 10]
    requires b_lt_n { laid.now.body < n.0 }
    requires n_bound { n.0 < count laid.now.nodes }
    requires n_value { in_unit laid.now.nodes laid.now.body n.0 ≡ true }
    requires n_value_2 { shape_at laid.now.nodes n.0 ≡ Try }
    ensures { Has result 0 (words_at laid.now.nodes laid.now.names laid.now.body n.0) }
{
    match table_children::first_child(
        laid.nodes,
        n,
        table_children::Part::of(kinds::BLOCK, roles::FINALLY),
    ) {
        Some(f) => [
            opcodes::OPEN,
            laid.offsets[f.0 as usize],
            0,
            0,
            0,
            0,
            0,
            0,
            0,
            0,
        ],
        None => [0; 10],
    }
}

// The words of n.
#[tactic(auto, using(crate::proofs::WordsLaws::label_has, crate::proofs::WordsLaws::clause_has))]
pub fn words_of(laid: &Layout, n: NodeId) -> [u32; 10]
    requires b_lt_n { laid.now.body < n.0 }
    requires n_bound { n.0 < count laid.now.nodes }
    requires n_value { in_unit laid.now.nodes laid.now.body n.0 ≡ true }
    ensures { Has result 0 (words_at laid.now.nodes laid.now.names laid.now.body n.0) }
{
    match shape_of(laid.nodes, n) {
        Shape::Leaf => leaf_words(laid, n),
        Shape::Class => class_words(laid, n),
        Shape::If => if_words(laid, n),
        Shape::With => with_words(laid, n),
        Shape::Block => block_words(laid, n),
        Shape::Loop => loop_words(laid, n),
        Shape::Switch => switch_words(laid, n),
        Shape::Case => case_words(laid, n),
        Shape::Try => try_words(laid, n),
        Shape::Label | Shape::Catch => [0; 10],
    }
}

// How many words n has.
#[tactic(auto, using(code_layout::proofs::LayoutLaws::own_width_on, code_contexts::proofs::PlacesLaws::try_is))]
pub fn own_of(nodes: &Nodes, names: &[u8], b: NodeId, n: NodeId) -> u32
    requires ready { Ready nodes.now names.now b.0 }
    requires b_lt_n { b.0 < n.0 }
    requires n_bound { n.0 < count nodes.now }
    ensures value { result ≡ own_width nodes.now b.0 n.0 }
    ensures upper_bound { result ≤ 10 }
{
    let s = shape_of(nodes, n);
    if is_try(s) {
        return code_contexts::own_of_try(nodes, names, b, n);
    }
    number_by(s)
}
