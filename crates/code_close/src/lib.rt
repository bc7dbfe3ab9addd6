// Ends the pass that makes a code shorter: what is kept stands gathered at the front and names old places yet. Its targets are moved, what its first
// numbers are raised by is taken off, and the entries behind it become what they were.
#![tactic(auto)]

ghost use Rattle.std.specs.Prelude.{◌≡◌, ◌⊎◌, true, List, ◌++◌, ℕ, ◌+◌, ◌-◌, ◌%◌, ◌≤◌, ◌<◌, get_or, length, drop};
ghost use Rattle.route_completion.specs.Sem.{pick};
ghost use Rattle.code_flat.specs.Machine.{Instr};
ghost use Rattle.code_valid.specs.Instrs.{len, find};
ghost use Rattle.code_shorten.specs.Short.{shorter};
ghost use Rattle.code_shorten.specs.Sound.{AreInstrs};
ghost use Rattle.code_shorten.specs.Closes.{In};
ghost use Rattle.code_pass.specs.Stages.{mark, sent_on, kept_places, new_place, Gathered};
ghost use Rattle.code_mark.specs.Read.{read_at};
ghost use Rattle.code_places.specs.Placing.{Tagged, PlacedBy};
ghost use Rattle.code_close.specs.Closing.{names_first, names_second, names_third, Moves, Moved, Starts, Raised, Plain, Restored, Saved};

use code_machine::{opcodes, word};
use code_mark::{opcode_at, size_at};
use code_places::index::Places;

fn names_first(x: u32) -> bool
    ensures { result ≡ names_first x }
{
    matches!(x, opcodes::LEAVE | opcodes::OPEN | opcodes::CASE)
}

fn names_second(x: u32) -> bool
    ensures { result ≡ names_second x }
{
    matches!(x, opcodes::ASK | opcodes::SELECT | opcodes::CASE)
}

fn names_third(x: u32) -> bool
    ensures { result ≡ names_third x }
{
    matches!(x, opcodes::ASK | opcodes::SELECT)
}

// An operand of the new code: a place is moved, another number stays.
fn new_operand(code: &[u32], places: &Places, o: u32, named: bool) -> u32
    ensures { (C : List ℕ) → PlacedBy C places.now → Tagged C code.now places.now.split → (named ≡ true → In (kept_places C) o) → result ≡ pick named (new_place C o) o }
{
    if named { places.place_of(code, o) } else { o }
}

// Moves the targets of the instruction at q, which takes so many numbers.
fn move_at(code: &mut [u32], places: &Places, q: usize, size: usize)
    requires size_bound { size ≤ 4 }
    requires in_bounds { q + size ≤ length code.old }
    ensures { (C : List ℕ) (o : ℕ) → PlacedBy C places.now → Tagged C code.old places.now.split → In (kept_places C) o → read_at code.old q ≡ find (sent_on C) 0 o → size ≡ len (find (sent_on C) 0 o) → Moves C code.old code.new q o }
{
    let x = opcode_at(code, q);
    let a = new_operand(code, places, word(code, q + 1), names_first(x));
    let b = new_operand(code, places, word(code, q + 2), names_second(x));
    let c = new_operand(code, places, word(code, q + 3), names_third(x));
    let words: [u32; 4] = [word(code, q), a, b, c];
    code_put::put_words(code, q, &words, size);
}

// Moves the targets of all that is kept.
fn move_targets(code: &mut [u32], places: &Places, end: usize)
    ensures { (C : List ℕ) → PlacedBy C places.now → end ≡ length (shorter C) → Gathered C code.old places.now.split (length C) → Moved C code.new places.now.split }
{
    let mut q = 0;
    // The code is written as the walk goes, so an iterator can't hold it.
    while q < end {
        let size = size_at(code, q);
        if size == 0 {
            return;
        }
        move_at(code, places, q, size);
        q += size;
    }
}

// Makes the numbers plain that begin instructions from a place on, up to another.
fn make_plain(code: &mut [u32], from: usize, to: usize)
    ensures { (is : List Instr) → AreInstrs is → Starts is from to → Raised is code.old from to → Plain is code.old code.new from }
{
    let mut p = from;
    // The code is written as the walk goes, so an iterator can't hold it.
    while p < to {
        let size = size_at(code, p);
        if size == 0 {
            return;
        }
        code[p] = opcode_at(code, p);
        p += size;
    }
}

// Puts the entries back that stood from a place on, up to another.
fn restore(code: &mut [u32], from: usize, to: usize, saved: &[u32])
    ensures { Restored code.old code.new from to saved.now }
{
    for x in from..to.min(code.len()) {
        code[x] = word(saved, x - from);
    }
}

// Ends the pass over a slice where all that is kept is gathered. `new_length` is that of the shorter code, and `saved` holds the entries from there to
// the split as they came.
pub fn close_up(code: &mut [u32], places: &Places, new_length: usize, saved: &[u32])
    ensures { (C : List ℕ) → PlacedBy C places.now → new_length ≡ length (shorter C) → Gathered C code.old places.now.split (length C) → Saved C new_length places.now.split saved.now → code.new ≡ shorter C ++ drop new_length C }
{
    move_targets(code, places, new_length);
    make_plain(code, 0, new_length);
    let end = code.len();
    make_plain(code, places.split, end);
    restore(code, new_length, places.split, saved);
}
