// The machine: it runs a unit's code, or any other list of numbers, over a list of answers.
// What it lists goes to a slice that the caller lends, as far as that goes; with an empty slice it only counts.
#![tactic(auto)]

ghost use Rattle.std.specs.Prelude.{◌≡◌, List, ◌∷◌, ℕ, ◌/◌, ◌%◌, ◌^◌, ◌≤◌, ◌<◌, get_or, length};
ghost use Rattle.code_flat.specs.Opcodes as op;
ghost use Rattle.code_flat.specs.Machine.{room, Frame, open', pend, pos, unwind, is_case, chase, end_as, code_route};
ghost use Rattle.route_list.specs.Listing.{saturated, laid};
ghost use Rattle.code_marks.specs.Begins.{width};
ghost use Rattle.code_machine.specs.Pending.{half, frame_by, frame_of, stack, comes, shallow};
ghost use Rattle.code_machine.specs.Halted.{stop_from, StandsAt, Told};
ghost use Rattle.code_machine.specs.Turn.{start_of, answered, Passes, Lands, Leaves, Opens, Lists, Turned, Coming};

use route_list::run_end;

pub mod opcodes;

// What a run comes to: its end, how many nodes it lists, and how many answers it takes.
#[derive(Clone, Copy)]
pub struct Ran {
    pub end: u32,
    pub entries: u64,
    pub taken: u64,
}

// Where a run stands: at pc, with the answers from at, a budget of instructions before the next answer, and so many ends pending.
#[derive(Clone, Copy)]
pub struct Place {
    pub pc: usize,
    pub at: usize,
    pub budget: usize,
    pub pending: usize,
}

// What an instruction comes to: the run is over, or goes on, with a node listed or not.
#[derive(Clone, Copy)]
enum Step {
    Over(u32),
    On(Place),
    Listed(Next),
}

// The next entry: its node, and where the run goes on behind it.
#[derive(Clone, Copy)]
pub struct Next {
    pub node: u32,
    pub then: Place,
}

// The target of a jump: a place of the code, and the depth of the pending ends there. The place 0 is what is pending.
#[derive(Clone, Copy)]
pub struct Target {
    pub place: u32,
    pub depth: u32,
}

// What a jump comes to at the end on top: its place, at this depth; the open finally block at a place, and the jump waits; or a target further below.
#[derive(Clone, Copy)]
enum Passing {
    Here,
    Into(u32),
    Below(Target),
}

// Where a jump comes to, or a run begins: a place, and how many ends are pending there. A target's depth says at most how many: it is any word of the code.
#[derive(Clone, Copy)]
pub struct Landing {
    pub place: u32,
    pub pending: usize,
}

// What a run comes to that may be stopped, with the end 4 if it is, and where it stands then.
#[derive(Clone, Copy)]
pub struct Halt {
    pub ran: Ran,
    pub at: Landing,
}

// The word at i, or 0 past the end.
pub fn word(code: &[u32], i: usize) -> u32
    ensures { result ≡ get_or code.now i 0 }
{
    code.get(i).copied().unwrap_or(0)
}

// How many words the instruction takes that begins with this one; 0 where none does.
pub fn width(first: u32) -> usize
    ensures { result ≡ width first }
{
    match first {
        opcodes::LIST | opcodes::OPEN | opcodes::END => 2,
        opcodes::LEAVE => 3,
        opcodes::ASK | opcodes::SELECT | opcodes::CASE => 4,
        _ => 0,
    }
}

// A case that is named at p stands at c.
fn is_case(code: &[u32], p: usize, c: u32) -> bool
    ensures { result ≡ is_case code.now p c }
{
    let at = c as usize;
    p < at && word(code, at) == opcodes::CASE
}

// The place of the a-th case of the chain that begins at c and is named at p, or e.
fn chased(code: &[u32], p: usize, c: u32, e: u32, a: u32) -> u32
    ensures { result ≡ chase code.now p c e a }
{
    let mut from = p;
    let mut to = c;
    // Counted by hand: a `for` over a range would ask in two places whether a case stands there.
    let mut left = a;
    while is_case(code, from, to) {
        if left == 0 {
            return to;
        }
        left -= 1;
        from = to as usize;
        to = word(code, from + 1);
    }
    e
}

// An END can say 0, 1 and 2.
fn end_as(e: u32) -> u32
    ensures { result ≡ end_as e }
{
    if e < run_end::SPENT {
        return e;
    }
    run_end::ASTRAY
}

// How many ends can be pending.
pub const ROOM: usize = 512;

// The pending ends of a run.
pub type Ends = [u64; ROOM];

// A pending end is one number: in its lower half a place; in its upper half 0 if the finally block there is open, and else one more than the depth of
// the jump to that place, which waits.
// Both halves stand in one number, since an array of 512 pending ends is all the memory that a run has.
const HALF: u64 = 4294967296;

// The pending end of these two halves.
pub fn pending_end(place: u32, above: u32) -> u64
    ensures { frame_of result ≡ frame_by above place }
{
    u64::from(above) * HALF + u64::from(place)
}

pub fn place_of(end: u64) -> u32
    ensures { result ≡ end % half }
{
    (end % HALF) as u32
}

pub fn above_of(end: u64) -> u32
    ensures { result ≡ end / half }
{
    (end / HALF) as u32
}

// The jump waits.
fn waiting_end(target: Target) -> u64
    requires { target.depth < room }
    ensures { frame_of result ≡ pend target.place target.depth }
{
    pending_end(target.place, target.depth + 1)
}

// The target of the jump that waits.
fn target_of(end: u64) -> Target
    requires { half ≤ end }
    ensures { frame_of end ≡ pend result.place result.depth }
{
    Target {
        place: place_of(end),
        depth: above_of(end) - 1,
    }
}

// What a jump comes to at the end on top, which has so many below it.
fn met(end: u64, below: usize, target: Target) -> Passing
    ensures depth_value { (K : List Frame) → length K ≡ below → unwind (frame_of end ∷ K) target.place target.depth ≡ comes (frame_of end) K target result }
    ensures shallow { shallow below target result }
{
    if end < HALF {
        if below < target.depth as usize {
            return Passing::Here;
        }
        return Passing::Into(place_of(end));
    }
    if target.depth as usize <= below {
        return Passing::Below(target);
    }
    if target.place == 0 {
        return Passing::Below(target_of(end));
    }
    Passing::Here
}

// Where a jump comes to.
fn unwound(ends: &mut Ends, pending: usize, target: Target) -> Landing
    requires pending_le_room { pending ≤ room }
    ensures to { unwind (stack ends.old pending) target.place target.depth ≡ pos result.place (stack ends.new result.pending) }
    ensures most { result.pending ≤ room }
{
    let mut on = target;
    for top in (0..pending).rev() {
        let passing = met(ends[top], top, on);
        match passing {
            Passing::Here => {
                return Landing {
                    place: on.place,
                    pending: top + 1,
                };
            }
            Passing::Into(f) => {
                ends[top] = waiting_end(on);
                return Landing {
                    place: f,
                    pending: top + 1,
                };
            }
            Passing::Below(below) => on = below,
        }
    }
    Landing {
        place: on.place,
        pending: 0,
    }
}

// One instruction passes without an answer, if the budget has one left; control goes to pc, with so many ends pending.
fn passed(p: Place, pc: usize, pending: usize) -> Step
    requires { pending ≤ room }
    ensures { (C qs ends after : List ℕ) → Passes C qs ends after p pc pending → Turned C qs ends after p result }
{
    if p.budget == 0 {
        return Step::Over(run_end::ASTRAY);
    }
    Step::On(Place {
        pc,
        budget: p.budget - 1,
        pending,
        ..p
    })
}

// Control goes to where a jump has come to. The place 0 is what is pending where nothing is.
fn landed(p: Place, to: Landing) -> Step
    requires { to.pending ≤ room }
    ensures { (C qs ends after : List ℕ) → Lands C qs ends after p to → Turned C qs ends after p result }
{
    if to.place == 0 {
        return Step::Over(run_end::ASTRAY);
    }
    passed(p, to.place as usize, to.pending)
}

// A jump.
fn left(ends: &mut Ends, p: Place, target: Target) -> Step
    requires pending_le_room { p.pending ≤ room }
    ensures { (C qs : List ℕ) → Leaves C qs ends.old p target → Turned C qs ends.old ends.new p result }
{
    let to = unwound(ends, p.pending, target);
    landed(p, to)
}

// The finally block at f is opened, and control goes to next.
fn opened(ends: &mut Ends, p: Place, f: u32, next: usize) -> Step
    requires pending_le_room { p.pending ≤ room }
    ensures { (C qs : List ℕ) → Opens C qs ends.old p f next → Turned C qs ends.old ends.new p result }
{
    let pending = p.pending;
    if pending == ends.len() {
        return Step::Over(run_end::ASTRAY);
    }
    ends[pending] = pending_end(f, 0);
    passed(p, next, pending + 1)
}

// The node n is listed as it takes an answer, and control goes to the place t.
fn answered(code: &[u32], p: Place, n: u32, t: u32) -> Step
    requires { p.at < 2 ^ 63 }
    ensures { result ≡ Step.Listed (answered code.now p n t) }
{
    Step::Listed(Next {
        node: n,
        then: Place {
            pc: t as usize,
            at: p.at + 1,
            budget: code.len(),
            ..p
        },
    })
}

// The ASK at pc is taken.
fn asked(code: &[u32], answers: &[u32], p: Place) -> Step
    requires pc_in_bounds { p.pc < length code.now }
    requires pc_value { get_or code.now p.pc 0 ≡ op.Ask }
    requires pending_le_room { p.pending ≤ room }
    ensures { (ends : List ℕ) → Turned code.now answers.now ends ends p result }
{
    let at = p.at;
    if answers.len() <= at {
        return Step::Over(run_end::SPENT);
    }
    let n = word(code, p.pc + 1);
    if answers[at] == 0 {
        let z = word(code, p.pc + 3);
        return answered(code, p, n, z);
    }
    let y = word(code, p.pc + 2);
    answered(code, p, n, y)
}

// The SELECT at pc is taken.
fn selected(code: &[u32], answers: &[u32], p: Place) -> Step
    requires pc_in_bounds { p.pc < length code.now }
    requires pc_value { get_or code.now p.pc 0 ≡ op.Select }
    requires pending_le_room { p.pending ≤ room }
    ensures { (ends : List ℕ) → Turned code.now answers.now ends ends p result }
{
    let at = p.at;
    if answers.len() <= at {
        return Step::Over(run_end::SPENT);
    }
    let n = word(code, p.pc + 1);
    let c = word(code, p.pc + 2);
    let e = word(code, p.pc + 3);
    let t = chased(code, p.pc, c, e, answers[at]);
    answered(code, p, n, t)
}

// The node n is listed, and control goes to next.
fn listed(p: Place, n: u32, next: usize) -> Step
    requires { p.pending ≤ room }
    ensures { (C qs ends : List ℕ) → Lists C qs ends p n next → Turned C qs ends ends p result }
{
    if p.budget == 0 {
        return Step::Over(run_end::ASTRAY);
    }
    Step::Listed(Next {
        node: n,
        then: Place {
            pc: next,
            budget: p.budget - 1,
            ..p
        },
    })
}

// One instruction. What is no instruction ends the run.
fn turn(code: &[u32], answers: &[u32], ends: &mut Ends, p: Place) -> Step
    requires pending_le_room { p.pending ≤ room }
    ensures { Turned code.now answers.now ends.old ends.new p result }
{
    let pc = p.pc;
    if code.len() <= pc {
        return Step::Over(run_end::ASTRAY);
    }
    let x = word(code, pc + 1);
    let y = word(code, pc + 2);
    match word(code, pc) {
        opcodes::LIST => listed(p, x, pc + 2),
        opcodes::LEAVE => left(ends, p, Target { place: x, depth: y }),
        opcodes::ASK => asked(code, answers, p),
        opcodes::SELECT => selected(code, answers, p),
        opcodes::OPEN => opened(ends, p, x, pc + 2),
        opcodes::END => Step::Over(end_as(x)),
        opcodes::CASE => left(
            ends,
            p,
            Target {
                place: y,
                depth: word(code, pc + 3),
            },
        ),
        _ => Step::Over(run_end::ASTRAY),
    }
}

// The start of every run.
pub fn start(code: &[u32]) -> Place
    ensures { result ≡ start_of code.now }
{
    Place {
        pc: 0,
        at: 0,
        budget: code.len(),
        pending: 0,
    }
}

// Runs on to the next entry, or to the end.
pub fn next_entry(code: &[u32], answers: &[u32], ends: &mut Ends, here: Place) -> Result<Next, u32>
    requires pending_le_room { here.pending ≤ room }
    ensures { Coming code.now answers.now ends.old ends.new here result }
{
    let mut p = here;
    loop {
        let s = turn(code, answers, ends, p);
        match s {
            Step::Over(end) => return Err(end),
            Step::On(q) => p = q,
            Step::Listed(entry) => return Ok(entry),
        }
    }
}

// Runs the code from a place on, with that room for pending ends, until so many answers are taken. The node of entry k goes to out[k] where out goes that
// far; the count of the entries saturates.
pub fn run_to(
    code: &[u32],
    answers: &[u32],
    ends: &mut Ends,
    begin: Landing,
    stop: u64,
    out: &mut [u32],
) -> Halt
    requires pending_le_room { begin.pending ≤ room }
    ensures told { Told (stop_from code.now answers.now ends.old begin stop) out.old out.new result.ran }
    ensures stands { StandsAt (stop_from code.now answers.now ends.old begin stop) (pos result.at.place (stack ends.new result.at.pending)) }
    ensures most { result.at.pending ≤ room }
{
    let mut p = Place {
        pc: begin.place as usize,
        at: 0,
        budget: code.len(),
        pending: begin.pending,
    };
    let mut entries = 0;
    loop {
        if p.at as u64 == stop {
            let ran = Ran {
                end: run_end::STOPPED,
                entries,
                taken: p.at as u64,
            };
            let at = Landing {
                place: p.pc as u32,
                pending: p.pending,
            };
            return Halt { ran, at };
        }
        let s = turn(code, answers, ends, p);
        match s {
            Step::Over(end) => {
                let ran = Ran {
                    end,
                    entries,
                    taken: p.at as u64,
                };
                let at = Landing {
                    place: 0,
                    pending: 0,
                };
                return Halt { ran, at };
            }
            Step::On(q) => p = q,
            Step::Listed(entry) => {
                entries = route_list::add(out, entries, entry.node);
                p = entry.then;
            }
        }
    }
}

// Runs the code, with room for 512 pending ends; more answers than there are never stop it.
pub fn run(code: &[u32], answers: &[u32], out: &mut [u32]) -> Ran
    ensures end { result.end ≡ (code_route code.now answers.now).end }
    ensures entries { result.entries ≡ saturated (length (code_route code.now answers.now).list) }
    ensures taken { result.taken ≡ (code_route code.now answers.now).taken }
    ensures list { out.new ≡ laid (code_route code.now answers.now).list out.old }
{
    let mut ends: Ends = [0; ROOM];
    let begin = Landing {
        place: 0,
        pending: 0,
    };
    let halt = run_to(
        code,
        answers,
        &mut ends,
        begin,
        answers.len() as u64 + 1,
        out,
    );
    halt.ran
}
