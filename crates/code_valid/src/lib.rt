// Whether a list of numbers is a code that a run can be sent through: refusal 18, with its place.
#![tactic(auto)]

ghost use Rattle.std.proofs.Props.{props};
ghost use Rattle.std.specs.Prelude.{◌≡◌, ◌≢◌, ◌&&◌, [], ◌∷◌, ℕ, ◌+◌, ◌-◌, ◌^◌, ◌≤◌, ◌<◌, get_or, length, set};
ghost use Rattle.code_flat.specs.Machine.{Instr, decode};
ghost use Rattle.code_valid.specs.Instrs.{len, parse, begins, names, runs_on};
ghost use Rattle.code_valid.specs.Valid.{all_begin, sound, first_bad, check};
ghost use Rattle.std.specs.Iterator.{at_most};
ghost use Rattle.code_valid.specs.Reading.{standing, from, Table};
ghost use Rattle.code_valid.specs.Walk.{Gives};

use code_machine::opcodes;

// How many numbers the instruction takes that begins with this one; 0 where none does.
pub fn width(first: u32) -> usize
    ensures { (a b c : ℕ) → result ≡ len (decode first a b c) }
{
    code_machine::width(first)
}

// How many numbers the instruction takes that begins at p; 0 where none does, or the end cuts it off.
pub fn size_at(code: &[u32], p: usize) -> usize
    ensures value { result ≡ len (standing code.now p) }
    ensures upper_bound { result ≤ length code.now - p }
{
    if code.len() <= p {
        return 0;
    }
    let size = width(code[p]);
    if size <= code.len() - p {
        return size;
    }
    0
}

// A code, by how its instructions are read.
pub trait Code: Copy {
    // The instruction that is read at a place; NONE where none is.
    ghost instruction: { Self → ℕ → Instr };

    // How many numbers the instruction takes that is read at p; 0 where none is.
    fn size_at(self, p: usize) -> usize
        ensures value { result ≡ len (instruction self p) }
        ensures fits { p + result < 2 ^ 64 };
}

// One that is read as it stands.
#[derive(Clone, Copy)]
pub struct Plain<'a>(pub &'a [u32]);

impl Code for Plain<'_> {
    ghost instruction = { λ c. standing c.0.now };

    fn size_at(self, p: usize) -> usize {
        size_at(self.0, p)
    }
}

// Where an instruction begins, and how many numbers it takes.
#[derive(Clone, Copy)]
pub struct Instruction {
    pub place: usize,
    pub size: usize,
}

// The instructions that begin from a place on and before another, up to where none begins.
#[derive(Drop)]
pub struct Instructions<C> {
    pub code: C,
    pub at: usize,
    pub end: usize,
}

impl<C> Instructions<C> {
    pub fn between(code: C, from: usize, to: usize) -> Self
        ensures { result ≡ record { code = code; at = from; end = to } }
    {
        Instructions {
            code,
            at: from,
            end: to,
        }
    }
}

impl<C: Code> Iterator for Instructions<C> {
    type Item = Instruction;

    ghost next_gives = { Gives C.instruction };

    ghost remaining = { λ s. at_most (s.end - s.at) };

    fn next(&mut self) -> Option<Instruction> {
        let place = self.at;
        if self.end <= place {
            return None;
        }
        let size = self.code.size_at(place);
        if size == 0 {
            return None;
        }
        self.at += size;
        Some(Instruction { place, size })
    }
}

// An instruction begins at `to`, by those from `start` on.
fn begins_from(code: &[u32], start: usize, to: usize) -> bool
    ensures { result ≡ begins (from code.now start) start to }
{
    for instruction in Instructions::between(Plain(code), start, code.len()) {
        if to <= instruction.place {
            return instruction.place == to;
        }
    }
    false
}

// How many places the table names. A code of 655,358 numbers, the longest that a unit has, is searched in steps of 163 numbers.
const PLACES: usize = 4096;

// The stride of a table for so many numbers: no instruction is longer.
fn stride_of(length: usize) -> usize
    ensures { 0 < result }
{
    length / PLACES + 4
}

// Fills a table that names the place 0 alone.
fn fill(code: &[u32], table: &mut [usize], stride: usize)
    requires { Table code.now table.old stride }
    ensures { Table code.now table.new stride }
{
    for instruction in Instructions::between(Plain(code), 0, code.len()) {
        let k = instruction.place / stride + 1;
        if k < table.len() {
            table[k] = instruction.place;
        }
    }
}

// An instruction that begins with this number runs on to the next.
fn runs_on(first: u32) -> bool
    ensures { (a b c : ℕ) → result ≡ runs_on (decode first a b c) }
{
    matches!(first, opcodes::LIST | opcodes::OPEN)
}

// A code, and a table that names places to begin a search from: the k-th for what stands at k times the stride or behind.
#[derive(Clone, Copy)]
struct Indexed<'a> {
    code: &'a [u32],
    table: &'a [usize],
    stride: usize,
    ghost searched: { Table code.now table.now stride } by { Prim.hlevel props },
}

impl Indexed<'_> {
    // An instruction begins at o.
    fn begins_at(&self, o: usize) -> bool
        ensures { result ≡ begins (parse self.now.code.now) 0 o }
    {
        let k = o / self.stride;
        if k < self.table.len() {
            return begins_from(self.code, self.table[k], o);
        }
        begins_from(self.code, 0, o)
    }

    // The place that the number at i names begins an instruction.
    fn begins_named(&self, i: usize) -> bool
        requires { i < length self.now.code.now }
        ensures { result ≡ begins (parse self.now.code.now) 0 (get_or self.now.code.now i 0) }
    {
        self.begins_at(self.code[i] as usize)
    }

    // So do those that the numbers at i and behind it name.
    fn both_begin(&self, i: usize) -> bool
        requires { i + 1 < length self.now.code.now }
        ensures { result ≡ (begins (parse self.now.code.now) 0 (get_or self.now.code.now i 0) && begins (parse self.now.code.now) 0 (get_or self.now.code.now (i + 1) 0)) }
    {
        self.begins_named(i) && self.begins_named(i + 1)
    }

    // Each target that the instruction at p names begins one.
    fn targets_begin(&self, p: usize) -> bool
        requires { len (standing self.now.code.now p) ≢ 0 }
        ensures { result ≡ all_begin (parse self.now.code.now) (names (standing self.now.code.now p)) }
    {
        match self.code[p] {
            opcodes::LEAVE | opcodes::OPEN => self.begins_named(p + 1),
            opcodes::ASK | opcodes::SELECT => self.both_begin(p + 2),
            opcodes::CASE => self.both_begin(p + 1),
            _ => true,
        }
    }

    // The instruction at p, of so many numbers, is sound.
    fn sound_at(&self, p: usize, size: usize) -> bool
        requires size_value { size ≡ len (standing self.now.code.now p) }
        requires size_nonzero { size ≢ 0 }
        ensures { result ≡ sound (parse self.now.code.now) (standing self.now.code.now p) (from self.now.code.now (p + size)) }
    {
        self.targets_begin(p) && (size < self.code.len() - p || !runs_on(self.code[p]))
    }

    // Each is sound, or the offset of the first that is not.
    fn first_bad(&self) -> Result<(), u64>
        ensures { result ≡ first_bad (parse self.now.code.now) (parse self.now.code.now) 0 }
    {
        let mut instructions = Instructions::between(Plain(self.code), 0, self.code.len());
        // A `for` over a `&mut` was tried: behind it the proof has no name of its own for where the walk stopped.
        while let Some(instruction) = instructions.next() {
            if !self.sound_at(instruction.place, instruction.size) {
                return Err(instruction.place as u64);
            }
        }
        if instructions.at < self.code.len() {
            return Err(instructions.at as u64);
        }
        Ok(())
    }
}

// Whether the numbers are a code, of any length; else the lowest offset where they are none.
pub fn check(code: &[u32]) -> Result<(), u64>
    ensures { result ≡ check code.now }
{
    if code.is_empty() {
        return Err(0);
    }
    let mut table = [0; PLACES];
    let stride = stride_of(code.len());
    fill(code, &mut table, stride);
    let indexed = Indexed {
        code,
        table: &table,
        stride,
    };
    indexed.first_bad()
}
