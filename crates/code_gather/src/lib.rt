// Gathers what is kept of a code at its front, in the slice where it stands. The jumps of the front are sent on already; those behind it are sent on as
// they are copied. A dropped jump of the front that a kept one behind it still leads through is saved until its last user is copied.
#![tactic(auto)]

ghost use Rattle.std.specs.Prelude.{◌≡◌, ◌≢◌, true, false, ◌&&◌, List, [], ◌∷◌, ℕ, ◌+◌, ◌-◌, ◌*◌, ◌%◌, ◌≤◌, ◌<◌, ◌⊎◌, get_or, length, Option, Some, None};
ghost use Rattle.route_completion.specs.Sem.{pick, elem};
ghost use Rattle.code_flat.specs.Machine.{decode};
ghost use Rattle.code_valid.specs.Instrs.{len, words, parse, find};
ghost use Rattle.code_valid.specs.Valid.{Valid};
ghost use Rattle.code_shorten.specs.Short.{aim_of, hop};
ghost use Rattle.code_shorten.specs.Sound.{Begin};
ghost use Rattle.code_shorten.specs.Closes.{In};
ghost use Rattle.code_put.specs.Put.{Put};
ghost use Rattle.code_pass.specs.Stages.{sent_on, kept_places, kept_to, cycle, mark, Split, Sent, Fronted, Gathered};
ghost use Rattle.code_mark.specs.Read.{read_at};
ghost use Rattle.code_places.specs.Placing.{PlacedBy, Tagged};
ghost use Rattle.code_gather.specs.Gather.{way, place_in, Freed, hop_read, hop_sent, entry_read, comes, entered, is_jump, dropped, needed, Slots, Says, Saved, Behind, Pushed, Found, Gathering, target};

use code_machine::{Target, opcodes, word};
use code_mark::{RAISE, Raised, aim_at, hop, opcode_at, size_at};
use code_places::CYCLE;
use code_places::index::Places;
use code_valid::Instructions;

// A saved jump takes three numbers: its old place, and where it leads: a place, and a depth.
const SAVED: usize = 3;

// The jump that stands at t behind the split.
#[tactic(auto, using(crate::proofs::JumpLaws::hop_front, crate::proofs::JumpLaws::hop_on))]
fn hop_behind(code: &[u32], split: usize, t: u32) -> Option<Target>
    ensures { result ≡ hop_read code.now split t }
{
    if (t as usize) < split {
        None
    } else {
        hop(code, t)
    }
}

// Where jumps behind the split lead from a place on, with the least depth on the way: to a place where none stands, or to the front. None in a ring:
// more jumps than the code has numbers come to no end.
fn last_behind(code: &[u32], split: usize, from: Target) -> Option<Target>
    ensures { result ≡ way (hop_read code.now split) (length code.now + 1) from.place from.depth }
{
    let mut aim = from;
    for _jump in 0..code.len() + 1 {
        let Some(next) = hop_behind(code, split, aim.place) else {
            return Some(aim);
        };
        aim = Target {
            place: next.place,
            depth: aim.depth.min(next.depth),
        };
    }
    None
}

// Where the kept jump at p leads by jumps behind the split.
fn entry_of(code: &[u32], split: usize, p: usize) -> Option<Target>
    ensures { result ≡ entry_read code.now split p }
{
    if word(code, p) < RAISE {
        return None;
    }
    match aim_at(code, p) {
        Some(aim) => last_behind(code, split, aim),
        None => None,
    }
}

// The kept jump at p comes to the front at x.
fn enters(code: &[u32], split: usize, p: usize, x: usize) -> bool
    ensures value { result ≡ comes x (entry_read code.now split p) }
    ensures fits { result ≡ true → x ≤ 4294967295 }
{
    match entry_of(code, split, p) {
        Some(entry) => entry.place as usize == x,
        None => false,
    }
}

// A kept jump at `from` or behind does.
fn is_entered(code: &[u32], split: usize, from: usize, x: usize) -> bool
    ensures value { (C : List ℕ) → Valid C → Behind C code.now split → split ≤ from → Begin (parse C) from ⊎ (from ≡ length C) → result ≡ entered C split x from }
    ensures fits { result ≡ true → x ≤ 4294967295 }
{
    for instruction in Instructions::between(Raised(code), from, code.len()) {
        if enters(code, split, instruction.place, x) {
            return true;
        }
    }
    false
}

// The kept jump at p comes to the front where nothing is kept.
fn enters_dropped(code: &[u32], split: usize, p: usize) -> bool
    ensures { (x : ℕ) → comes x (entry_read code.now split p) ≡ true → x < split → get_or code.now x 0 < mark → result ≡ true }
{
    match entry_of(code, split, p) {
        Some(entry) => (entry.place as usize) < split && word(code, entry.place as usize) < RAISE,
        None => false,
    }
}

// Some kept jump behind the split does. In the code of a unit none does, and then no jump of the front is looked for among those behind it.
fn is_any_entered(code: &[u32], split: usize) -> bool
    ensures { (C : List ℕ) → Valid C → Split C split → Sent C code.now split → result ≡ false → (x : ℕ) → elem x (needed C split split) ≡ false }
{
    for instruction in Instructions::between(Raised(code), split, code.len()) {
        if enters_dropped(code, split, instruction.place) {
            return true;
        }
    }
    false
}

fn is_jump(x: u32) -> bool
    ensures { (a b c : ℕ) → result ≡ is_jump (aim_of (decode x a b c)) }
{
    matches!(x, opcodes::LEAVE | opcodes::CASE)
}

// Of the front: how many numbers are kept, and how many jumps are saved behind them.
#[derive(Clone, Copy)]
struct Front {
    kept: usize,
    saved: usize,
}

// Copies the kept instruction at p to the end of what is kept, says its old place by the number that begins it, and moves what is saved out of the way.
fn keep(code: &mut [u32], p: usize, size: usize, front: Front)
    requires kept_before_p { front.kept + 3 * front.saved ≤ p }
    requires in_bounds { p + size ≤ length code.old }
    requires size_bound { size ≤ 4 }
    ensures { Pushed code.old front.kept (3 * front.saved) ((get_or code.old p 0 % mark + mark * (p % cycle)) ∷ get_or code.old (p + 1) 0 ∷ get_or code.old (p + 2) 0 ∷ get_or code.old (p + 3) 0 ∷ []) size code.new }
{
    let place = (p % CYCLE as usize) as u32;
    let words: [u32; 4] = [
        opcode_at(code, p) + RAISE * place,
        word(code, p + 1),
        word(code, p + 2),
        word(code, p + 3),
    ];
    let end = front.kept + SAVED * front.saved;
    code.copy_within(front.kept..end, front.kept + size);
    code_put::put_words(code, front.kept, &words, size);
}

// Saves the dropped jump at p.
fn save(code: &mut [u32], p: usize, size: usize, at: usize)
    requires at_bound { at + 3 ≤ p + size }
    requires in_bounds { p + size ≤ length code.old }
    requires size_bound { 2 ≤ size }
    requires p_bound { p ≤ 4294967295 }
    ensures { Put code.old at (p ∷ get_or code.old (p + size - 2) 0 ∷ get_or code.old (p + size - 1) 0 ∷ []) 3 code.new }
{
    let words: [u32; SAVED] = [p as u32, word(code, p + size - 2), word(code, p + size - 1)];
    code_put::put_words(code, at, &words, SAVED);
}

// The instruction at p, which is not kept, is a jump that is needed behind the split.
fn is_needed(code: &[u32], split: usize, p: usize) -> bool
    ensures value { (C : List ℕ) → Valid C → Split C split → Behind C code.now split → result ≡ (is_jump (aim_of (read_at code.now p)) && entered C split p split) }
    ensures fits { result ≡ true → p ≤ 4294967295 }
    ensures size { result ≡ true → 3 ≤ len (read_at code.now p) }
{
    is_jump(opcode_at(code, p)) && is_entered(code, split, split, p)
}

// Gathers the front: what is kept stands at its beginning, what is saved behind it.
fn gather_front(code: &mut [u32], split: usize) -> Front
    ensures room { result.kept + 3 * result.saved ≤ length code.old }
    ensures same { length code.new ≡ length code.old }
    ensures gathered { (C : List ℕ) → Valid C → Split C split → Sent C code.old split → Gathering C code.new split result.kept result.saved }
{
    let any = is_any_entered(code, split);
    let mut p = 0;
    let mut front = Front { kept: 0, saved: 0 };
    // The code is written as the walk goes, so an iterator can't hold it.
    while p < split {
        let size = size_at(code, p);
        if size == 0 {
            return front;
        }
        if RAISE <= word(code, p) {
            keep(code, p, size, front);
            front.kept += size;
        } else if any && is_needed(code, split, p) {
            save(code, p, size, front.kept + SAVED * front.saved);
            front.saved += 1;
        }
        p += size;
    }
    front
}

// Where the jump is saved that stood at t, of those from `block` on.
fn slot_of(code: &[u32], block: usize, split: usize, t: u32) -> Option<usize>
    requires { split ≤ length code.now }
    ensures { Found code.now block split t result }
{
    for at in (block..split).step_by(SAVED) {
        if word(code, at) == t {
            return Some(at);
        }
    }
    None
}

// Where the instruction stands now that stood at t; none where it was dropped.
fn place_now(code: &[u32], places: &Places, t: u32) -> Option<usize>
    ensures { (C : List ℕ) → PlacedBy C places.now → Fronted C code.now places.now.split → result ≡ place_in C places.now.split t }
{
    if (t as usize) < places.split {
        return places.front_place(code, t);
    }
    Some(t as usize)
}

// The jump of the front that stood at t, which is sent on.
fn hop_front(code: &[u32], places: &Places, block: usize, t: u32) -> Option<Target>
    requires { places.now.split ≤ length code.now }
    ensures { (C : List ℕ) → PlacedBy C places.now → Fronted C code.now places.now.split → (n : ℕ) → block + 3 * n ≡ places.now.split → Slots C code.now places.now.split block n → Begin (parse C) t → (dropped C places.now.split t ≡ true → Says code.now block n t) → result ≡ hop_sent C places.now.split t }
{
    if t == 0 || places.split <= t as usize {
        return None;
    }
    if let Some(q) = places.front_place(code, t) {
        return aim_at(code, q);
    }
    let Some(at) = slot_of(code, block, places.split, t) else {
        return None;
    };
    Some(Target {
        place: word(code, at + 1),
        depth: word(code, at + 2),
    })
}

// A jump stood at t, and is kept.
fn is_kept_jump(code: &[u32], places: &Places, t: u32) -> bool
    ensures { (C : List ℕ) → PlacedBy C places.now → Fronted C code.now places.now.split → Begin (parse C) t → (is_jump (hop (parse C) t) ≡ true → In (kept_places C) t) → result ≡ is_jump (hop (parse C) t) }
{
    if t == 0 {
        return false;
    }
    match place_now(code, places, t) {
        Some(q) => is_jump(opcode_at(code, q)),
        None => false,
    }
}

// Where the kept jump at p goes when it is sent on; none where no jump stands, or it leads into a ring, and stays as it is. A jump of the front leads to a
// place where no jump stands, unless to a ring.
fn sent_at(code: &[u32], places: &Places, block: usize, p: usize) -> Option<Target>
    requires { places.now.split ≤ length code.now }
    ensures { (C : List ℕ) → PlacedBy C places.now → Fronted C code.now places.now.split → (n : ℕ) → block + 3 * n ≡ places.now.split → Saved C code.now places.now.split p block n → places.now.split ≤ p → Begin (parse C) p → In (kept_places C) p → result ≡ target C (find (parse C) 0 p) }
{
    let Some(last) = entry_of(code, places.split, p) else {
        return None;
    };
    let Some(next) = hop_front(code, places, block, last.place) else {
        return Some(last);
    };
    if is_kept_jump(code, places, next.place) {
        return None;
    }
    Some(Target {
        place: next.place,
        depth: last.depth.min(next.depth),
    })
}

// The numbers of the kept instruction at p, sent on.
fn words_at(code: &[u32], places: &Places, block: usize, p: usize, size: usize) -> [u32; 4]
    requires split_bound { places.now.split ≤ length code.now }
    requires p_bound { p + size ≤ length code.now }
    requires size_lower { 2 ≤ size }
    requires size_upper { size ≤ 4 }
    ensures { (C : List ℕ) → PlacedBy C places.now → Fronted C code.now places.now.split → (n : ℕ) → block + 3 * n ≡ places.now.split → Saved C code.now places.now.split p block n → places.now.split ≤ p → Begin (parse C) p → In (kept_places C) p → size ≡ len (find (parse C) 0 p) → (j : ℕ) → j < size → get_or result j 0 ≡ get_or (words (find (sent_on C) 0 p)) j 0 }
{
    let mut words: [u32; 4] = [
        opcode_at(code, p),
        word(code, p + 1),
        word(code, p + 2),
        word(code, p + 3),
    ];
    if let Some(aim) = sent_at(code, places, block, p) {
        words[size - 2] = aim.place;
        words[size - 1] = aim.depth;
    }
    words
}

// Frees the room of the jump that is saved for the kept one at p, if none behind that needs it: the first slot moves there.
fn free(code: &mut [u32], split: usize, block: usize, p: usize, size: usize) -> usize
    requires split_bound { split ≤ length code.old }
    requires p_bound { p + size ≤ length code.old }
    ensures same { length code.new ≡ length code.old }
    ensures outside { (x : ℕ) → (x < block) ⊎ (split ≤ x) → get_or code.new x 0 ≡ get_or code.old x 0 }
    ensures freed { (C : List ℕ) → Valid C → Behind C code.old split → (n : ℕ) → block + 3 * n ≡ split → Saved C code.old split p block n → split ≤ p → Begin (parse C) p → size ≡ len (find (parse C) 0 p) → Freed C code.new split (p + size) result }
{
    if split <= block {
        return block;
    }
    let Some(entry) = entry_of(code, split, p) else {
        return block;
    };
    let Some(at) = slot_of(code, block, split, entry.place) else {
        return block;
    };
    if is_entered(code, split, p + size, entry.place as usize) {
        return block;
    }
    if split - at < SAVED {
        return block;
    }
    code.copy_within(block..block + SAVED, at);
    block + SAVED
}

// Gathers what is kept behind the split. What is saved stands from `block` to the split.
fn gather_behind(code: &mut [u32], places: &Places, kept: usize, block: usize)
    requires { kept ≤ places.now.split }
    ensures { (C : List ℕ) → PlacedBy C places.now → Fronted C code.old places.now.split → kept ≡ kept_to C places.now.split → (n : ℕ) → block + 3 * n ≡ places.now.split → Saved C code.old places.now.split places.now.split block n → Gathered C code.new places.now.split (length C) }
{
    let mut p = places.split;
    let mut q = kept;
    let mut block = block;
    // The code is written as the walk goes, so an iterator can't hold it.
    while p < code.len() {
        let size = size_at(code, p);
        if size == 0 {
            return;
        }
        if RAISE <= word(code, p) {
            let words = words_at(code, places, block, p, size);
            block = free(code, places.split, block, p, size);
            code_put::put_words(code, q, &words, size);
            q += size;
        }
        p += size;
    }
}

// Gathers what is kept of the whole code.
pub fn gather(code: &mut [u32], places: &Places)
    ensures { (C : List ℕ) → PlacedBy C places.now → Sent C code.old places.now.split → Gathered C code.new places.now.split (length C) }
{
    let front = gather_front(code, places.split);
    let end = front.kept + SAVED * front.saved;
    if places.split < end || code.len() < places.split {
        return;
    }
    let block = places.split - SAVED * front.saved;
    code.copy_within(front.kept..end, block);
    gather_behind(code, places, front.kept, block);
}
