// The first steps of the pass that makes a code shorter, over one slice: what a path reaches is marked, and the jumps of the front are sent on.
#![tactic(auto)]

ghost use Rattle.std.specs.Prelude.{◌≡◌, ◌≢◌, List, [], ◌∷◌, ℕ, ◌+◌, ◌-◌, ◌%◌, ◌≤◌, ◌<◌, get_or, length, ltb};
ghost use Rattle.route_completion.specs.Sem.{pick};
ghost use Rattle.code_valid.specs.Instrs.{len};
ghost use Rattle.code_valid.specs.Valid.{Valid};
ghost use Rattle.code_shorten.specs.Short.{aim_of, shorter};
ghost use Rattle.code_shorten.specs.Marking.{marked_at, new_at, marks_at, news_at, low, bit};
ghost use Rattle.code_pass.specs.Stages.{mark, Marked, Split, Sent, kept_to};
ghost use Rattle.code_mark.specs.Read.{read_at, standing_in, hop_in, rule_in, sent_in, threaded_in};
ghost use Rattle.code_mark.specs.Marks.{leads_in, target_in, Inked, Rounded, Started, Reached};

use code_machine::{Target, opcodes, word};
use code_valid::{Code, Instruction, Instructions};

// What a mark adds to the number that begins an instruction: no instruction's number is as large.
pub const RAISE: u32 = 8;

// The number that begins an instruction, without what it is raised by.
pub fn opcode_at(code: &[u32], p: usize) -> u32
    ensures { result ≡ get_or code.now p 0 % mark }
{
    word(code, p) % RAISE
}

// How many numbers the instruction at p takes; 0 where none begins, or the end cuts it off.
pub fn size_at(code: &[u32], p: usize) -> usize
    ensures value { result ≡ len (standing_in code.now p) }
    ensures upper_bound { result ≤ length code.now - p }
{
    if code.len() <= p {
        return 0;
    }
    let size = code_valid::width(opcode_at(code, p));
    if size <= code.len() - p {
        return size;
    }
    0
}

// A code in which the numbers that begin instructions may be raised.
#[derive(Clone, Copy)]
pub struct Raised<'a>(pub &'a [u32]);

impl Code for Raised<'_> {
    ghost instruction = { λ c. standing_in c.0.now };

    fn size_at(self, p: usize) -> usize {
        size_at(self.0, p)
    }
}

// How many numbers of an instruction are kept: all if it is marked, none otherwise.
pub fn kept_at(code: &[u32], instruction: Instruction) -> usize
    ensures value { result ≡ pick (ltb (get_or code.now instruction.place 0) mark) 0 instruction.size }
    ensures upper_bound { result ≤ instruction.size }
{
    if word(code, instruction.place) < RAISE {
        0
    } else {
        instruction.size
    }
}

// Where the jump at p goes; none where no jump stands. The number that begins it may be raised.
pub fn aim_at(code: &[u32], p: usize) -> Option<Target>
    ensures { result ≡ aim_of (read_at code.now p) }
{
    match opcode_at(code, p) {
        opcodes::LEAVE => Some(Target {
            place: word(code, p + 1),
            depth: word(code, p + 2),
        }),
        opcodes::CASE => Some(Target {
            place: word(code, p + 2),
            depth: word(code, p + 3),
        }),
        _ => None,
    }
}

// The jump that stands at t. The place 0 stands for what is pending, and no jump is there.
#[tactic(auto, using(crate::proofs::SendLaws::hop_zero, crate::proofs::SendLaws::hop_on))]
pub fn hop(code: &[u32], t: u32) -> Option<Target>
    ensures { result ≡ hop_in code.now t }
{
    if t == 0 {
        return None;
    }
    aim_at(code, t as usize)
}

// The last target from a place on, with the least depth on the way. In a ring there is none: more jumps than the code has numbers come to no end.
pub fn last_target(code: &[u32], from: Target) -> Option<Target>
    ensures { result ≡ rule_in code.now from.place from.depth }
{
    let mut aim = from;
    for _jump in 0..code.len() + 1 {
        let Some(next) = hop(code, aim.place) else {
            return Some(aim);
        };
        aim = Target {
            place: next.place,
            depth: aim.depth.min(next.depth),
        };
    }
    None
}

// Where a jump leads: to its last target, or where it says if it leads into a ring.
fn target_of(code: &[u32], place: u32, depth: u32) -> usize
    ensures { result ≡ target_in code.now place depth }
{
    match last_target(code, Target { place, depth }) {
        Some(aim) => aim.place as usize,
        None => place as usize,
    }
}

// Marks the number at t, and tells whether it was not marked before.
#[tactic(auto, unfolding(code_shorten::specs::Marking::marked_at, code_shorten::specs::Marking::new_at))]
fn mark(code: &mut [u32], t: usize) -> bool
    ensures news { result ≡ new_at code.old t }
    ensures marks { code.new ≡ marked_at code.old t }
{
    if code.len() <= t {
        return false;
    }
    let x = code[t];
    if x < RAISE {
        code[t] = x + RAISE;
        return true;
    }
    false
}

fn mark_both(code: &mut [u32], t: usize, u: usize) -> bool
    ensures news { result ≡ news_at code.old (t ∷ u ∷ []) }
    ensures marks { code.new ≡ marks_at code.old (t ∷ u ∷ []) }
{
    let first = mark(code, t);
    let second = mark(code, u);
    first | second
}

// If the instruction at p is marked, marks those where it leads.
fn mark_leads(code: &mut [u32], p: usize) -> bool
    requires { p < length code.old }
    ensures news { result ≡ news_at code.old (leads_in code.old p) }
    ensures marks { code.new ≡ marks_at code.old (leads_in code.old p) }
{
    if word(code, p) < RAISE {
        return false;
    }
    let a = word(code, p + 1);
    let b = word(code, p + 2);
    let c = word(code, p + 3);
    match opcode_at(code, p) {
        opcodes::LIST => mark(code, p + 2),
        opcodes::LEAVE => {
            let target = target_of(code, a, b);
            mark(code, target)
        }
        opcodes::ASK | opcodes::SELECT => mark_both(code, b as usize, c as usize),
        opcodes::OPEN => mark_both(code, p + 2, a as usize),
        opcodes::CASE => {
            let target = target_of(code, b, c);
            mark_both(code, a as usize, target)
        }
        _ => false,
    }
}

// Marks where all marked instructions lead, one after the other, and tells whether that was new anywhere.
fn round(code: &mut [u32]) -> bool
    ensures rounded { (C : List ℕ) → Valid C → (S : List ℕ) → Inked C S code.old → Rounded C S code.new result }
    ensures result_bound { low code.new + bit result ≤ low code.old }
{
    let mut p = 0;
    let mut news = false;
    // The code is written as the walk goes, so an iterator can't hold it.
    while p < code.len() {
        let size = size_at(code, p);
        if size == 0 {
            return news;
        }
        let more = mark_leads(code, p);
        news |= more;
        p += size;
    }
    news
}

// Rounds until nothing is new.
fn mark_rest(code: &mut [u32])
    ensures { (C : List ℕ) → Valid C → Started C code.old → Reached C code.new }
{
    let mut again = true;
    while again {
        again = round(code);
    }
}

// Marks what a path reaches from the code's start. That the numbers are a code is a `requires` and no type: they are written here, and are none afterwards.
pub fn mark_reached(code: &mut [u32])
    requires { Valid code.old }
    ensures { Marked code.old code.new }
{
    mark(code, 0);
    mark_rest(code);
}

// How many numbers of the instructions before a place are kept.
pub fn kept_before(code: &[u32], place: usize) -> usize
    ensures value { (C : List ℕ) → Valid C → Marked C code.now → result ≡ kept_to C place }
    ensures upper_bound { result ≤ length code.now }
{
    let mut kept = 0;
    for instruction in Instructions::between(Raised(code), 0, place) {
        kept += kept_at(code, instruction);
    }
    kept
}

// How long the shorter code is.
pub fn new_length(code: &[u32]) -> usize
    ensures value { (C : List ℕ) → Valid C → Marked C code.now → result ≡ length (shorter C) }
    ensures upper_bound { result ≤ length code.now }
{
    kept_before(code, code.len())
}

// Where the front ends: the first place behind the new length where an instruction begins, or the end.
#[tactic(auto, using(crate::proofs::KeptLaws::splitting_first))]
pub fn split_of(code: &[u32], new_length: usize) -> usize
    ensures value { (C : List ℕ) → Valid C → Marked C code.now → new_length ≡ length (shorter C) → Split C result }
    ensures upper_bound { result ≤ length code.now }
{
    for instruction in Instructions::between(Raised(code), 0, code.len()) {
        if new_length <= instruction.place {
            return instruction.place;
        }
    }
    code.len()
}

// Sends the jump on whose place and depth stand at q. One that leads into a ring stays.
fn send_on(code: &mut [u32], q: usize)
    requires { q + 1 < length code.old }
    ensures { code.new ≡ sent_in code.old q }
{
    let from = Target {
        place: code[q],
        depth: code[q + 1],
    };
    if let Some(last) = last_target(code, from) {
        code[q] = last.place;
        code[q + 1] = last.depth;
    }
}

// Sends the instruction at p on, if it is a jump.
fn thread_at(code: &mut [u32], p: usize)
    requires { len (standing_in code.old p) ≢ 0 }
    ensures { code.new ≡ threaded_in code.old p }
{
    match opcode_at(code, p) {
        opcodes::LEAVE => send_on(code, p + 1),
        opcodes::CASE => send_on(code, p + 2),
        _ => {}
    }
}

// Sends the jumps before the split on, kept or not. One that is sent on already leads the others to the same place.
pub fn send_front(code: &mut [u32], split: usize)
    ensures { (C : List ℕ) → Valid C → Marked C code.old → Split C split → Sent C code.new split }
{
    let mut p = 0;
    // The code is written as the walk goes, so an iterator can't hold it.
    while p < split {
        let size = size_at(code, p);
        if size == 0 {
            return;
        }
        thread_at(code, p);
        p += size;
    }
}
