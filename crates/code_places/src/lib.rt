// Where kept instructions come to stand: an index of places, filled from a slice whose kept instructions are marked, and searches that begin at it.
#![tactic(auto)]

ghost use Rattle.std.specs.Prelude.{◌≡◌, List, ℕ, ◌≤◌, ◌<◌, min, get_or, length};
ghost use Rattle.code_valid.specs.Valid.{Valid};
ghost use Rattle.code_valid.specs.Instrs.{parse};
ghost use Rattle.code_shorten.specs.Closes.{In};
ghost use Rattle.code_shorten.specs.Sound.{Begin};
ghost use Rattle.code_pass.specs.Stages.{cycle, Marked, Index, kept_places, new_place};
ghost use Rattle.code_places.specs.Placing.{begins, news, stride_in, stride_for, kept_place, Tagged, PlacedBy};

use code_machine::word;
use code_mark::{RAISE, Raised, kept_at};
use code_valid::Instructions;
use index::{Places, Stride};

pub mod index;

// Of an old place this much is said by the number that begins a gathered instruction: what is left of it by 2 ^ 29.
pub const CYCLE: u32 = 536_870_912;

// No target names a place from here on.
const TARGETS: usize = 4_294_967_296;

// The stride of an index of so many entries for a code of so many numbers: each place that a target names stands before the last entry, and no instruction
// is longer. Of ten entries or more the stride is below `CYCLE`, however long the code.
#[tactic(auto, unfolding(crate::specs::Placing::stride_for))]
pub fn stride_of(strides: usize, length: usize) -> usize
    requires { 10 ≤ strides }
    ensures value { result ≡ stride_for strides length }
    ensures lower_bound { 4 ≤ result }
    ensures upper_bound { result < cycle }
{
    length.min(TARGETS) / (strides - 1) + 4
}

// Fills the index from an entry on.
fn fill_rest(index: &mut [Stride], from: usize, stride: Stride)
    ensures same { length index.new ≡ length index.old }
    ensures before { (k : ℕ) → k < from → stride_in index.new k ≡ stride_in index.old k }
    ensures rest { (k : ℕ) → from ≤ k → k < length index.old → stride_in index.new k ≡ stride }
{
    if from < index.len() {
        index[from..].fill(stride);
    }
}

// Fills the index of a slice whose kept instructions are marked.
pub fn fill(code: &[u32], index: &mut [Stride])
    requires { 10 ≤ length index.old }
    ensures { (C : List ℕ) → Valid C → Marked C code.now → Index C (begins index.new) (news index.new) (stride_for (length index.old) (length C)) }
{
    let stride = stride_of(index.len(), code.len());
    let mut kept = 0;
    let mut k = 0;
    let mut next = 0;
    for instruction in Instructions::between(Raised(code), 0, code.len()) {
        if k < index.len() && next <= instruction.place {
            index[k] = Stride {
                begin: instruction.place,
                new: kept,
            };
            k += 1;
            next += stride;
        }
        kept += kept_at(code, instruction);
    }
    let end = Stride {
        begin: code.len(),
        new: kept,
    };
    fill_rest(index, k, end);
}

impl Places<'_> {
    // The k-th entry of the index, of nothing past its end.
    fn stride_at(&self, k: usize) -> Stride
        ensures begin { result.begin ≡ get_or (begins self.now.index.now) k 0 }
        ensures new { result.new ≡ get_or (news self.now.index.now) k 0 }
    {
        let none = Stride { begin: 0, new: 0 };
        self.index.get(k).copied().unwrap_or(none)
    }

    // Where the instruction of the front that stood at o comes to stand; none where it is not kept.
    pub fn front_place(&self, code: &[u32], o: u32) -> Option<usize>
        ensures { (C : List ℕ) → PlacedBy C self.now → Tagged C code.now self.now.split → o < self.now.split → result ≡ kept_place C o }
    {
        let k = o as usize / self.stride;
        let next = self.stride_at(k + 1);
        let end = next.new.min(self.front).min(code.len());
        for instruction in Instructions::between(Raised(code), self.stride_at(k).new, end) {
            if word(code, instruction.place) / RAISE == o % CYCLE {
                return Some(instruction.place);
            }
        }
        None
    }

    // Where the instruction that stands at o, behind the split, comes to stand, if it is kept.
    fn tail_place(&self, code: &[u32], o: u32) -> usize
        ensures { (C : List ℕ) → PlacedBy C self.now → Tagged C code.now self.now.split → self.now.split ≤ o → In (kept_places C) o → result ≡ new_place C o }
    {
        let k = o as usize / self.stride;
        let Stride { begin, new } = self.stride_at(k);
        let start = begin.max(self.split);
        let mut place = if begin < self.split { self.front } else { new };
        for instruction in Instructions::between(Raised(code), start, o as usize) {
            place = place.saturating_add(kept_at(code, instruction));
        }
        place
    }

    // Where the kept instruction at o comes to stand.
    pub fn place_of(&self, code: &[u32], o: u32) -> u32
        ensures { (C : List ℕ) → PlacedBy C self.now → Tagged C code.now self.now.split → In (kept_places C) o → result ≡ new_place C o }
    {
        let place = if (o as usize) < self.split {
            self.front_place(code, o).unwrap_or(0)
        } else {
            self.tail_place(code, o)
        };
        u32::try_from(place).unwrap_or(0)
    }
}
