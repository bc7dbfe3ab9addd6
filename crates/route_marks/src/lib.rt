// Marks in a route: the array that holds them, what is asked of a mark before it is taken up (refusals 16 and 17), and a route that begins at its start or
// at a mark, is stopped, and is shown where it fits.
#![tactic(auto)]

ghost use Rattle.std.specs.Prelude.{◌≡◌, true, ◌↔◌, ◌+◌, ◌*◌, ◌<◌, ◌≤◌, length};
ghost use Rattle.std.proofs.lemmas.List.Edits.{sets};
ghost use Rattle.code_flat.specs.Machine.{room, pos, fetch};
ghost use Rattle.code_marks.specs.Begins.{Begins};
ghost use Rattle.code_machine.specs.Pending.{stack};
ghost use Rattle.code_machine.specs.Halted.{route_to, StandsAt, Told};
ghost use Rattle.route_viewer.specs.Shown.{shown_answer, shown_slice};
ghost use Rattle.route_marks.specs.Marks.{marks as marksMany, part_at, is_set, place_of, ends_at, mark_at, ends_numbers, set_mark};
ghost use Rattle.route_marks.specs.Taken.{begin_at, CanBegin, Tested, stop_of_section, marks_shown};

use code_machine::{Ends, Halt, Landing, ROOM};
use code_valid::{Code, Instructions};
use refusal_verdict::{Refusal, Refused};
use route_list::run_end;
use route_viewer::Route;

// How many marks the array has.
pub const MARKS: u32 = 8;

// A mark's part of the array: a first number, the place, and two numbers for each pending end.
const PART: usize = 2 + 2 * ROOM;

// The first number of a mark that is set is one more than its pending ends.
const MOST_FIRST: u32 = ROOM as u32 + 1;

// All parts.
pub type Marks = [u32; MARKS as usize * PART];

// Where a route begins: at its start, or at a mark.
// It has Option's shape, but None would not say where a route without a mark begins.
#[derive(Clone, Copy)]
pub enum Begin {
    Start,
    Mark(u32),
}

// A section of a route: where it begins, its answers, and behind how many of them it is stopped, under which mark.
#[derive(Clone, Copy)]
pub struct Section<'a> {
    pub begin: Begin,
    pub answers: &'a [u32],
    pub to: u32,
    pub stop: u64,
}

fn part_at(mark: u32) -> usize
    requires { mark < marksMany }
    ensures { result ≡ part_at mark }
{
    mark as usize * PART
}

// A mark can be taken up: there is one of that number, and it is set.
pub fn is_set(marks: &Marks, mark: u32) -> bool
    ensures { result ≡ is_set marks.now mark }
{
    mark < MARKS && matches!(marks[part_at(mark)], 1..=MOST_FIRST)
}

// The place in the code that a mark holds.
pub fn place_at(marks: &Marks, mark: u32) -> u32
    requires { mark < marksMany }
    ensures { result ≡ place_of marks.now mark }
{
    marks[part_at(mark) + 1]
}

// A code as the machine reads it: zeros stand behind its end, which cuts no instruction off.
#[derive(Clone, Copy)]
struct Padded<'a>(&'a [u32]);

impl Code for Padded<'_> {
    ghost instruction = { λ c. fetch c.0.now };

    fn size_at(self, p: usize) -> usize {
        code_machine::width(code_machine::word(self.0, p))
    }
}

// An instruction of the code begins at a place: what refusal 17 asks.
pub fn begins(code: &[u32], place: u32) -> bool
    ensures { (result ≡ true) ↔ Begins code.now place }
{
    let x = place as usize;
    for instruction in Instructions::between(Padded(code), 0, x + 1) {
        if instruction.place == x {
            return true;
        }
    }
    false
}

// Reads so many pending ends of the array from a place on.
#[tactic(auto, using(crate::proofs::MarksLaws::read_first, crate::proofs::MarksLaws::read_more))]
fn load(marks: &Marks, at: usize, pending: usize, ends: &mut [u64])
    requires pending_bound { at + pending * 2 ≤ 8208 }
    requires pending_in_bounds { pending ≤ length ends.old }
    ensures { stack ends.new pending ≡ ends_at marks.now at pending }
{
    for i in 0..pending {
        let k = at + i * 2;
        ends[i] = code_machine::pending_end(marks[k], marks[k + 1]);
    }
}

// Where a mark that is set stands, with its pending ends.
fn taken_up(marks: &Marks, mark: u32, ends: &mut Ends) -> Landing
    requires mark_value { is_set marks.now mark ≡ true }
    ensures stands { pos result.place (stack ends.new result.pending) ≡ mark_at marks.now mark }
    ensures most { result.pending ≤ room }
{
    let part = part_at(mark);
    let pending = marks[part] as usize - 1;
    load(marks, part + 2, pending, ends);
    Landing {
        place: marks[part + 1],
        pending,
    }
}

// Where a route begins, with the pending ends there.
#[tactic(auto, unfolding(code_machine::specs::Pending::stack))]
fn begin_at(marks: &Marks, begin: Begin, ends: &mut Ends) -> Landing
    requires can_begin { CanBegin marks.now begin }
    ensures stands { pos result.place (stack ends.new result.pending) ≡ begin_at marks.now begin }
    ensures most { result.pending ≤ room }
{
    match begin {
        Begin::Start => Landing {
            place: 0,
            pending: 0,
        },
        Begin::Mark(mark) => taken_up(marks, mark, ends),
    }
}

// Writes so many pending ends to the array from a place on.
#[tactic(auto, using(crate::proofs::MarksLaws::write_first, crate::proofs::MarksLaws::write_more))]
fn save(marks: &mut Marks, at: usize, pending: usize, ends: &[u64])
    requires pending_bound { at + pending * 2 ≤ 8208 }
    requires pending_in_bounds { pending ≤ length ends.now }
    ensures { marks.new ≡ sets marks.old at (ends_numbers (stack ends.now pending)) }
{
    for i in 0..pending {
        let k = at + i * 2;
        let end = ends[i];
        marks[k] = code_machine::place_of(end);
        marks[k + 1] = code_machine::above_of(end);
    }
}

// Sets a mark where a route stands.
#[tactic(auto, using(crate::proofs::MarksLaws::mark_written))]
fn set_mark(marks: &mut Marks, mark: u32, place: u32, pending: usize, ends: &Ends)
    requires mark_lt_marks_many { mark < marksMany }
    requires pending_le_room { pending ≤ room }
    ensures { marks.new ≡ set_mark marks.old mark (pos place (stack ends.now pending)) }
{
    let part = part_at(mark);
    marks[part] = pending as u32 + 1;
    marks[part + 1] = place;
    save(marks, part + 2, pending, ends);
}

// Runs the code from where the section begins until so many of its answers are taken.
fn run_section(
    marks: &Marks,
    section: &Section,
    code: &[u32],
    ends: &mut Ends,
    out: &mut [u32],
) -> Halt
    requires can_begin { CanBegin marks.now section.now.begin }
    ensures told { Told (stop_of_section marks.now code.now section.now) out.old out.new result.ran }
    ensures stands { StandsAt (stop_of_section marks.now code.now section.now) (pos result.at.place (stack ends.new result.at.pending)) }
    ensures most { result.at.pending ≤ room }
{
    let from = begin_at(marks, section.begin, ends);
    code_machine::run_to(code, section.answers, ends, from, section.stop, out)
}

// Counts the section up to the stop, writes it where it fits, and sets the mark if the stop was reached.
#[tactic(auto, using(crate::proofs::TakenLaws::short_marks, crate::proofs::TakenLaws::held_marks, crate::proofs::TakenLaws::over_marks, route_viewer::proofs::ShownLaws::short_answer, route_viewer::proofs::ShownLaws::short_slice, route_viewer::proofs::ShownLaws::whole_answer, route_viewer::proofs::ShownLaws::whole_slice))]
pub fn show(
    marks: &mut Marks,
    section: &Section,
    code: &[u32],
    out: &mut [u32],
) -> Result<Route, Refused>
    requires { Tested marks.old section.now }
    ensures answer { result ≡ shown_answer (route_to (stop_of_section marks.old code.now section.now)) (length out.old) }
    ensures list { out.new ≡ shown_slice (route_to (stop_of_section marks.old code.now section.now)) out.old }
    ensures marks { marks.new ≡ marks_shown marks.old section.now.to (stop_of_section marks.old code.now section.now) (length out.old) }
{
    let mut ends: Ends = [0; ROOM];
    let mut none: [u32; 1] = [0; 1];
    let counted = run_section(marks, section, code, &mut ends, &mut none);
    if (out.len() as u64) < counted.ran.entries {
        return Err(Refused::Short(Refusal::RouteSlice, counted.ran.entries));
    }
    let halt = run_section(marks, section, code, &mut ends, out);
    if halt.ran.end == run_end::STOPPED {
        let at = halt.at;
        set_mark(marks, section.to, at.place, at.pending, &ends);
    }
    let route = Route {
        end: halt.ran.end,
        entries: halt.ran.entries as usize,
        taken: halt.ran.taken,
    };
    Ok(route)
}
