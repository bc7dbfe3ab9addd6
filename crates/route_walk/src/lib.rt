// The second engine: it walks a unit's statements by the completion rules, and makes no code.
#![tactic(auto)]

ghost use Rattle.std.specs.Prelude.{◌≡◌, List, [], ◌∷◌, ℕ, ◌+◌, ◌<◌, ◌≤◌, length, drop};
ghost use Rattle.table_records.specs.Table.{count};
ghost use Rattle.table_records.specs.Roles as role;
ghost use Rattle.route_completion.specs.Sem.{plain, normal, out as outcome, is_normal, is_throw, is_spent, elem, loop_continues, comp_of, ask, loops, no_break, no_label, unbreak, unlabel, rounds, exec, execs};
ghost use Rattle.route_completion.specs.Route.{end_of, route};
ghost use Rattle.code_tree.specs.Labels.{name_id, id_at};
ghost use Rattle.code_tree.specs.Parts.{up_of, parts};
ghost use Rattle.code_tree.specs.Statements.{leaf_at, before_at, test_at, list_of, one_of, unit_of};
ghost use Rattle.route_walk.specs.Walk.{Read, Enterable, comp_at, label_in, Walked, Takes, Shows};
ghost use Rattle.route_steps.specs.Statement.{labels_of, statement};
ghost use Rattle.route_steps.specs.Steps.{First, part_of, branch_of, cases_from, from_default, role_in, ran_of, caught_by, finally_by};

use code_shapes::{has_same_label, is_labeled, shape_of, up_of};
use code_tree::Shape;
use route_list::run_end;
use std::marker::Model;
use table_names::named::NamedNodes;
use table_records::nodes::Nodes;
use table_records::{NodeId, kinds, roles};

// How a statement completes, as ECMA-262's Completion Record: a break or continue with its label's node where it has one. Or no answer was left.
// Cases of their own for those with a label: with an `Option` it would come back by memory, and a walk would take twice the stack.
#[derive(Clone, Copy, PartialEq, Eq)]
pub enum Completion {
    Normal,
    Break,
    BreakTo(NodeId),
    Continue,
    ContinueTo(NodeId),
    Return,
    Throw,
    Spent,
}

// What a walk comes to: the entries listed, the answers taken, and how its last statement completed.
#[derive(Clone, Copy)]
pub struct Run {
    pub entries: u64,
    pub taken: usize,
    pub how: Completion,
}

// What a walk reads: the tables and the answers. That the tables are `Walkable` is known where a function names a field. Two functions make a `NamedNodes` of the
// tables; with one in their place, all that read the nodes would go by it.
#[derive(Drop)]
struct Given<'a> {
    nodes: &'a Nodes<'a>,
    names: &'a [u8],
    answers: &'a [u32],
}

impl<'a> Model for Given<'a> {
    ghost use Rattle.route_walk.specs.Walk.{Walkable, Read};

    ghost Value = { Read };

    ghost view = { λ a. record { nodes = a.nodes.now; names = a.names.now; answers = a.answers.now } };

    ghost invariant = { λ a. Walkable a.nodes.now a.names.now };
}

// What a walk writes, and how far it has come: the list as its caller gets it, the entries listed, the answers taken. It stands beside what the walk reads: one
// struct of both was tried, in which each function promises that the tables and answers stay, and the proof of that form didn't close.
#[derive(Drop)]
struct Progress<'a> {
    out: &'a mut [u32],
    entries: u64,
    taken: usize,
}

fn is_normal(how: Completion) -> bool
    ensures { (ns names : List ℕ) → result ≡ is_normal (comp_at ns names how) }
{
    matches!(how, Completion::Normal)
}

fn is_throw(how: Completion) -> bool
    ensures { (ns names : List ℕ) → result ≡ is_throw (comp_at ns names how) }
{
    matches!(how, Completion::Throw)
}

fn is_spent(how: Completion) -> bool
    ensures { (ns names : List ℕ) → result ≡ is_spent (comp_at ns names how) }
{
    matches!(how, Completion::Spent)
}

// A break without a label, at the loop or switch that it leaves.
fn unbroken(how: Completion) -> Completion
    ensures by_index { (ns names : List ℕ) → comp_at ns names result ≡ no_break (comp_at ns names how) }
    ensures by_index_2 { (ns : List ℕ) → label_in ns how → label_in ns result }
{
    match how {
        Completion::Break => Completion::Normal,
        other => other,
    }
}

// A break to the label of p, at p.
#[inline(never)]
fn unlabelled(given: &Given, p: NodeId, how: Completion) -> Completion
    requires p_bound { p.0 < count given.now.nodes }
    requires label_in { label_in given.now.nodes how }
    ensures result_value { comp_at given.now.nodes given.now.names result ≡ no_label (id_at given.now.nodes given.now.names p.0) (comp_at given.now.nodes given.now.names how) }
    ensures label_in_2 { label_in given.now.nodes result }
{
    let named = &NamedNodes {
        nodes: given.nodes,
        names: given.names,
    };
    match how {
        Completion::BreakTo(l) if has_same_label(named, p, l) => Completion::Normal,
        other => other,
    }
}

// Whether a Labeled of the name of l is p, or stands right above it. It stands apart from the loops that ask for it: put into them, their frames, which each
// level of loops takes, would be half as large again.
#[inline(never)]
#[tactic(auto, using(route_steps::proofs::StatementLaws::labels_hit, route_steps::proofs::StatementLaws::labels_next, route_steps::proofs::StatementLaws::labels_stop, route_steps::proofs::StatementLaws::labeled_inner))]
fn has_label(given: &Given, p: NodeId, l: NodeId) -> bool
    requires p_bound { p.0 < count given.now.nodes }
    requires l_bound { l.0 < count given.now.nodes }
    ensures { result ≡ elem (name_id given.now.nodes given.now.names l.0) (labels_of given.now.nodes given.now.names p.0) }
{
    let named = &NamedNodes {
        nodes: given.nodes,
        names: given.names,
    };
    let mut at = p;
    while is_labeled(shape_of(given.nodes, at)) {
        if has_same_label(named, at, l) {
            return true;
        }
        at = up_of(given.nodes, at);
    }
    false
}

// 14.7.1.1 LoopContinues, for the loop n.
fn loop_continues(given: &Given, n: NodeId, how: Completion) -> bool
    requires n_nonzero { 0 < n.0 }
    requires n_bound { n.0 < count given.now.nodes }
    requires label_in { label_in given.now.nodes how }
    ensures { result ≡ loop_continues (labels_of given.now.nodes given.now.names (up_of given.now.nodes n.0)) (comp_at given.now.nodes given.now.names how) }
{
    match how {
        Completion::ContinueTo(l) => has_label(given, up_of(given.nodes, n), l),
        Completion::Normal | Completion::Continue => true,
        _ => false,
    }
}

// How a statement without parts completes.
#[tactic(auto, using(route_steps::proofs::StatementLaws::comp_return, route_steps::proofs::StatementLaws::comp_throw, route_steps::proofs::StatementLaws::comp_normal))]
fn completion_of(given: &Given, n: NodeId) -> Completion
    requires n_bound { n.0 < count given.now.nodes }
    ensures result_value { comp_at given.now.nodes given.now.names result ≡ comp_of (leaf_at given.now.nodes given.now.names n.0) }
    ensures label_in { label_in given.now.nodes result }
{
    let label = table_children::label_of(given.nodes, n);
    match table_records::kind(given.nodes, n) {
        kinds::BREAK => match label {
            Some(l) => Completion::BreakTo(l),
            None => Completion::Break,
        },
        kinds::CONTINUE => match label {
            Some(l) => Completion::ContinueTo(l),
            None => Completion::Continue,
        },
        kinds::RETURN => Completion::Return,
        kinds::THROW => Completion::Throw,
        _ => Completion::Normal,
    }
}

// The first part of p from a node on, and with it those behind it.
#[tactic(auto, using(crate::proofs::PartLaws::first_is))]
fn next_part(given: &Given, p: NodeId, from: u32) -> Option<NodeId>
    requires p_lt_from { p.0 < from }
    requires from_bound { from ≤ count given.now.nodes }
    ensures { First given.now.nodes p.0 (parts given.now.nodes p.0 from) result }
{
    code_shapes::next_part(given.nodes, p, from)
}

// The a-th part of p.
#[tactic(auto, using(route_steps::proofs::StepsLaws::nth_on))]
fn nth_part(given: &Given, p: NodeId, a: u32) -> Option<NodeId>
    requires p_bound { p.0 < count given.now.nodes }
    ensures { First given.now.nodes p.0 (drop a (parts given.now.nodes p.0 (p.0 + 1))) result }
{
    let _ = &given.nodes; // names a field, so that the invariant is known
    let mut from = p.0 + 1;
    for _passed in 0..a {
        from = next_part(given, p, from)?.0 + 1;
    }
    next_part(given, p, from)
}

// This walk and that of `part_with_role` differ in one test. One function over a closure for it has six clauses and a ghost test, and both of these would keep
// their own beside it, with a law each.
// The `default` among the parts of p.
#[tactic(auto, using(route_steps::proofs::StepsLaws::first_low_lem))]
fn default_part(given: &Given, p: NodeId) -> Option<NodeId>
    requires p_bound { p.0 < count given.now.nodes }
    ensures { First given.now.nodes p.0 (from_default given.now.nodes (parts given.now.nodes p.0 (p.0 + 1))) result }
{
    let _ = &given.nodes; // names a field, so that the invariant is known
    let mut from = p.0 + 1;
    loop {
        let c = next_part(given, p, from)?;
        if code_shapes::is_default(given.nodes, c) {
            return Some(c);
        }
        from = c.0 + 1;
    }
}

// The case of the switch p that the answer picks.
#[tactic(auto, using(route_steps::proofs::StepsLaws::case_nth, route_steps::proofs::StepsLaws::case_default))]
fn case_of(given: &Given, p: NodeId, a: u32) -> Option<NodeId>
    requires p_bound { p.0 < count given.now.nodes }
    ensures { First given.now.nodes p.0 (cases_from given.now.nodes (parts given.now.nodes p.0 (p.0 + 1)) a) result }
{
    let Some(c) = nth_part(given, p, a) else {
        return default_part(given, p);
    };
    Some(c)
}

// The part of the If p that the answer picks.
fn branch_of(given: &Given, p: NodeId, a: u32) -> Option<NodeId>
    requires p_bound { p.0 < count given.now.nodes }
    ensures value { result ≡ branch_of given.now.nodes (parts given.now.nodes p.0 (p.0 + 1)) a }
    ensures part_of { part_of given.now.nodes p.0 result }
{
    let _ = &given.nodes; // names a field, so that the invariant is known
    let first = next_part(given, p, p.0 + 1)?;
    let Some(other) = next_part(given, p, first.0 + 1) else {
        return if a == 0 { None } else { Some(first) };
    };
    if (table_records::role(given.nodes, first) == roles::ALTERNATE) == (a == 0) {
        Some(first)
    } else {
        Some(other)
    }
}

// The first part of p with the role r.
#[tactic(auto, using(route_steps::proofs::StepsLaws::first_low_lem, route_steps::proofs::StepsLaws::role_start, route_steps::proofs::StepsLaws::role_on, route_steps::proofs::StepsLaws::role_hit, route_steps::proofs::StepsLaws::role_none))]
fn part_with_role(given: &Given, p: NodeId, r: u32) -> Option<NodeId>
    requires p_bound { p.0 < count given.now.nodes }
    ensures value { result ≡ role_in given.now.nodes p.0 r }
    ensures part_of { part_of given.now.nodes p.0 result }
{
    let _ = &given.nodes; // names a field, so that the invariant is known
    let mut from = p.0 + 1;
    loop {
        let c = next_part(given, p, from)?;
        if table_records::role(given.nodes, c) == r {
            return Some(c);
        }
        from = c.0 + 1;
    }
}

impl<'a> Progress<'a> {
    // A node is listed.
    #[inline(never)]
    fn list(&mut self, n: NodeId)
        ensures { (s : Read) → self.old.taken ≤ length s.answers → Walked s self.old (outcome (plain n.0 ∷ []) normal (drop self.old.taken s.answers)) self.new Completion.Normal }
    {
        self.entries = route_list::add(self.out, self.entries, n.0);
    }

    // The next answer, which the node n takes and is listed as it does; none where none is left.
    #[inline(never)]
    fn take_answer(&mut self, given: &Given, n: NodeId) -> Option<u32>
        requires { self.old.taken ≤ length given.now.answers }
        ensures { Takes given.now self.old n.0 self.new result }
    {
        let at = self.taken;
        if given.answers.len() <= at {
            return None;
        }
        self.entries = route_list::add(self.out, self.entries, n.0);
        self.taken = at + 1;
        Some(given.answers[at])
    }
}

// A statement without parts.
#[inline(never)]
fn walk_leaf(given: &Given, progress: &mut Progress, n: NodeId) -> Completion
    requires n_bound { n.0 < count given.now.nodes }
    ensures { (qs : List ℕ) → progress.old.taken ≤ length qs → Walked (record given.now { answers = qs }) progress.old (outcome (plain n.0 ∷ []) (comp_of (leaf_at given.now.nodes given.now.names n.0)) (drop progress.old.taken qs)) progress.new result }
{
    progress.list(n);
    completion_of(given, n)
}

// This and what else `walk_node` calls is `inline(never)`: put into it, the frames of all would be one, which each level of statements would take.
// What the node n holds, where that is one statement.
#[inline(never)]
#[cycle(walk)]
fn walk_one(given: &Given, progress: &mut Progress, n: NodeId) -> Completion
    requires n_bound { n.0 < count given.now.nodes }
    requires taken_in_bounds { progress.old.taken ≤ length given.now.answers }
    ensures { Walked given.now progress.old (exec (one_of (statement given.now.nodes given.now.names) (parts given.now.nodes n.0 (n.0 + 1))) (labels_of given.now.nodes given.now.names n.0) (drop progress.old.taken given.now.answers)) progress.new result }
{
    let _ = &given.nodes; // names a field, so that the invariant is known
    let Some(c) = next_part(given, n, n.0 + 1) else {
        return Completion::Normal;
    };
    walk_node(given, progress, c)
}

// 14.2.2, StatementList: the parts of n from a node on, one behind the other.
#[tactic(auto, using(route_steps::proofs::StepsLaws::first_low_lem))]
#[cycle(walk)]
fn walk_parts(given: &Given, progress: &mut Progress, n: NodeId, from: u32) -> Completion
    requires n_lt_from { n.0 < from }
    requires from_bound { from ≤ count given.now.nodes }
    requires n_value { labels_of given.now.nodes given.now.names n.0 ≡ [] }
    requires taken_in_bounds { progress.old.taken ≤ length given.now.answers }
    ensures { Walked given.now progress.old (execs (list_of (statement given.now.nodes given.now.names) (parts given.now.nodes n.0 from)) (drop progress.old.taken given.now.answers)) progress.new result }
{
    let _ = &given.nodes; // names a field, so that the invariant is known
    let mut i = from;
    while let Some(c) = next_part(given, n, i) {
        let done = walk_node(given, progress, c);
        if !is_normal(done) {
            return done;
        }
        i = c.0 + 1;
    }
    Completion::Normal
}

// 14.6.2, the If n.
#[inline(never)]
#[cycle(walk)]
fn walk_if(given: &Given, progress: &mut Progress, n: NodeId) -> Completion
    requires n_bound { n.0 < count given.now.nodes }
    requires n_value { labels_of given.now.nodes given.now.names n.0 ≡ [] }
    requires taken_in_bounds { progress.old.taken ≤ length given.now.answers }
    ensures { Walked given.now progress.old (ask n.0 (drop progress.old.taken given.now.answers) (λ a r. ran_of (statement given.now.nodes given.now.names) (branch_of given.now.nodes (parts given.now.nodes n.0 (n.0 + 1)) a) r)) progress.new result }
{
    let Some(a) = progress.take_answer(given, n) else {
        return Completion::Spent;
    };
    let Some(c) = branch_of(given, n, a) else {
        return Completion::Normal;
    };
    walk_node(given, progress, c)
}

// 14.7.3.2, the turns of the loop n, from its next answer on.
#[inline(never)]
#[cycle(walk)]
fn walk_turns(given: &Given, progress: &mut Progress, n: NodeId) -> Completion
    requires n_nonzero { 0 < n.0 }
    requires n_bound { n.0 < count given.now.nodes }
    requires n_value { labels_of given.now.nodes given.now.names n.0 ≡ [] }
    requires taken_in_bounds { progress.old.taken ≤ length given.now.answers }
    ensures { Walked given.now progress.old (rounds n.0 (test_at given.now.nodes n.0) (labels_of given.now.nodes given.now.names (up_of given.now.nodes n.0)) (λ r. exec (one_of (statement given.now.nodes given.now.names) (parts given.now.nodes n.0 (n.0 + 1))) [] r) (drop progress.old.taken given.now.answers)) progress.new result }
{
    let heeds = code_shapes::has_test(given.nodes, n);
    while let Some(a) = progress.take_answer(given, n) {
        if heeds && a == 0 {
            return Completion::Normal;
        }
        let done = walk_one(given, progress, n);
        if !loop_continues(given, n, done) {
            return done;
        }
    }
    Completion::Spent
}

// 14.7.1.2, the loop n: a DoWhile runs its body before the first answer.
#[inline(never)]
#[cycle(walk)]
fn walk_loop(given: &Given, progress: &mut Progress, n: NodeId) -> Completion
    requires n_nonzero { 0 < n.0 }
    requires n_bound { n.0 < count given.now.nodes }
    requires n_value { labels_of given.now.nodes given.now.names n.0 ≡ [] }
    requires taken_in_bounds { progress.old.taken ≤ length given.now.answers }
    ensures { Walked given.now progress.old (unbreak (loops (before_at given.now.nodes n.0) n.0 (test_at given.now.nodes n.0) (labels_of given.now.nodes given.now.names (up_of given.now.nodes n.0)) (λ r. exec (one_of (statement given.now.nodes given.now.names) (parts given.now.nodes n.0 (n.0 + 1))) [] r) (drop progress.old.taken given.now.answers))) progress.new result }
{
    if code_shapes::is_before(given.nodes, n) {
        let done = walk_turns(given, progress, n);
        return unbroken(done);
    }
    let first = walk_one(given, progress, n);
    if !loop_continues(given, n, first) {
        return unbroken(first);
    }
    let done = walk_turns(given, progress, n);
    unbroken(done)
}

// 14.12.2, the switch n: from the case that the answer picks, "later cases follow".
#[inline(never)]
#[cycle(walk)]
fn walk_switch(given: &Given, progress: &mut Progress, n: NodeId) -> Completion
    requires n_bound { n.0 < count given.now.nodes }
    requires n_value { labels_of given.now.nodes given.now.names n.0 ≡ [] }
    requires taken_in_bounds { progress.old.taken ≤ length given.now.answers }
    ensures { Walked given.now progress.old (ask n.0 (drop progress.old.taken given.now.answers) (λ a r. unbreak (execs (list_of (statement given.now.nodes given.now.names) (cases_from given.now.nodes (parts given.now.nodes n.0 (n.0 + 1)) a)) r))) progress.new result }
{
    let _ = &given.nodes; // names a field, so that the invariant is known
    let Some(a) = progress.take_answer(given, n) else {
        return Completion::Spent;
    };
    let Some(c) = case_of(given, n, a) else {
        return Completion::Normal;
    };
    let done = walk_parts(given, progress, n, c.0);
    unbroken(done)
}

// 14.15.3, the Block of the Try n, and its catch where that throws.
#[inline(never)]
#[cycle(walk)]
fn walk_caught(given: &Given, progress: &mut Progress, n: NodeId) -> Completion
    requires n_bound { n.0 < count given.now.nodes }
    requires n_value { labels_of given.now.nodes given.now.names n.0 ≡ [] }
    requires taken_in_bounds { progress.old.taken ≤ length given.now.answers }
    ensures { Walked given.now progress.old (caught_by (statement given.now.nodes given.now.names) (role_in given.now.nodes n.0 role.Alternate) (ran_of (statement given.now.nodes given.now.names) (role_in given.now.nodes n.0 role.Held) (drop progress.old.taken given.now.answers))) progress.new result }
{
    let Some(block) = part_with_role(given, n, roles::HELD) else {
        return Completion::Normal;
    };
    let done = walk_node(given, progress, block);
    let Some(catch) = part_with_role(given, n, roles::ALTERNATE) else {
        return done;
    };
    if !is_throw(done) {
        return done;
    }
    walk_node(given, progress, catch)
}

// 14.15.3, the Try n: its finally runs on each way out, but where the answers are spent.
#[inline(never)]
#[cycle(walk)]
fn walk_try(given: &Given, progress: &mut Progress, n: NodeId) -> Completion
    requires n_bound { n.0 < count given.now.nodes }
    requires n_value { labels_of given.now.nodes given.now.names n.0 ≡ [] }
    requires taken_in_bounds { progress.old.taken ≤ length given.now.answers }
    ensures { Walked given.now progress.old (finally_by (statement given.now.nodes given.now.names) (role_in given.now.nodes n.0 role.Finally) (caught_by (statement given.now.nodes given.now.names) (role_in given.now.nodes n.0 role.Alternate) (ran_of (statement given.now.nodes given.now.names) (role_in given.now.nodes n.0 role.Held) (drop progress.old.taken given.now.answers)))) progress.new result }
{
    let done = walk_caught(given, progress, n);
    let Some(last) = part_with_role(given, n, roles::FINALLY) else {
        return done;
    };
    if is_spent(done) {
        return done;
    }
    let end = walk_node(given, progress, last);
    if is_normal(end) {
        return done;
    }
    end
}

// One statement, by its shape.
#[tactic(auto, using(route_steps::proofs::StatementLaws::labels_off, route_steps::proofs::StatementLaws::leaf_is, route_steps::proofs::StatementLaws::if_is, route_steps::proofs::StatementLaws::block_is_lem, route_steps::proofs::StatementLaws::case_is, route_steps::proofs::StatementLaws::loop_is, route_steps::proofs::StatementLaws::switch_is, route_steps::proofs::StatementLaws::try_is, route_steps::proofs::StatementLaws::catch_is))]
#[cycle(walk)]
fn walk_node(given: &Given, progress: &mut Progress, n: NodeId) -> Completion
    requires n_nonzero { 0 < n.0 }
    requires n_bound { n.0 < count given.now.nodes }
    requires taken_in_bounds { progress.old.taken ≤ length given.now.answers }
    ensures { Walked given.now progress.old (exec (statement given.now.nodes given.now.names n.0) (labels_of given.now.nodes given.now.names (up_of given.now.nodes n.0)) (drop progress.old.taken given.now.answers)) progress.new result }
{
    match shape_of(given.nodes, n) {
        Shape::Leaf => walk_leaf(given, progress, n),
        Shape::Class => {
            progress.list(n);
            walk_parts(given, progress, n, n.0 + 1)
        }
        Shape::If => walk_if(given, progress, n),
        Shape::With => {
            progress.list(n);
            walk_one(given, progress, n)
        }
        Shape::Block | Shape::Case => walk_parts(given, progress, n, n.0 + 1),
        Shape::Label => {
            let done = walk_one(given, progress, n);
            unlabelled(given, n, done)
        }
        Shape::Loop => walk_loop(given, progress, n),
        Shape::Switch => walk_switch(given, progress, n),
        Shape::Try => walk_try(given, progress, n),
        Shape::Catch => walk_one(given, progress, n),
    }
}

// The number of a unit's end.
pub fn end_of(how: Completion) -> u32
    ensures { (ns names : List ℕ) → result ≡ end_of (comp_at ns names how) }
{
    match how {
        Completion::Normal => run_end::FELL_THROUGH,
        Completion::Return => run_end::RETURNED,
        Completion::Throw => run_end::THROWN,
        Completion::Spent => run_end::SPENT,
        Completion::Break
        | Completion::BreakTo(_)
        | Completion::Continue
        | Completion::ContinueTo(_) => run_end::ASTRAY,
    }
}

// The unit u, from the first answer on.
pub fn walk_unit(nodes: &[u32], names: &[u8], answers: &[u32], out: &mut [u32], u: NodeId) -> Run
    requires { Enterable nodes.now names.now u.0 }
    ensures { Shows nodes.now names.now (route (unit_of nodes.now names.now u.0) answers.now) out.old out.new result }
{
    let nodes = &Nodes { numbers: nodes };
    let Some(b) = code_shapes::holder(nodes, u) else {
        return Run {
            entries: 0,
            taken: 0,
            how: Completion::Normal,
        };
    };
    let given = Given {
        nodes,
        names,
        answers,
    };
    let mut progress = Progress {
        out,
        entries: 0,
        taken: 0,
    };
    let how = walk_parts(&given, &mut progress, b, b.0 + 1);
    Run {
        entries: progress.entries,
        taken: progress.taken,
        how,
    }
}
