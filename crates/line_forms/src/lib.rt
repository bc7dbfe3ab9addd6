// Forms of lines: which can be read, and what stands in them.
#![tactic(auto)]

ghost use Rattle.std.specs.Prelude.{◌≡◌, ◌≤◌};
ghost use Rattle.line_forms.specs.Forms.{lettered, is_numbers, fits, is_n, name_of, is_x};

use line_fields::COMMA;

// A line that can be read has at most so many bytes ..
pub const LONGEST: usize = 2100;

// .. and at most so many nodes, scopes, bytes of source, bytes of names and answers can be read.
pub const MOST: usize = 1024;

// A node's line has so many numbers in front of its name.
pub const NODE_NUMBERS: usize = 8;

// A line that isn't too long, whose first field is the letter.
#[tactic(auto, using(crate::proofs::FormLaws::lettered_is_tested), unfolding(crate::specs::Forms::lettered))]
pub fn lettered(l: &[u8], c: u8) -> bool
    ensures { result ≡ lettered c l.now }
{
    l.len() <= LONGEST && line_fields::before(l, COMMA) == [c].as_slice()
}

// The letter and n numbers.
#[tactic(auto, using(crate::proofs::FormLaws::numbers_letter, crate::proofs::FormLaws::numbers_count_tested, crate::proofs::FormLaws::numbers_is_tested))]
pub fn is_numbers(l: &[u8], c: u8, n: usize) -> bool
    ensures { result ≡ is_numbers c n l.now }
{
    if !lettered(l, c) {
        return false;
    }
    let tail = line_fields::onward(l, COMMA);
    line_fields::count(tail) == n && line_fields::are_numbers(tail, n)
}

#[tactic(auto, using(crate::proofs::FormLaws::node_letter, crate::proofs::FormLaws::node_few_tested, crate::proofs::FormLaws::node_is_tested))]
pub fn is_node(l: &[u8]) -> bool
    ensures { result ≡ is_n l.now }
{
    if !lettered(l, b'N') {
        return false;
    }
    let tail = line_fields::onward(l, COMMA);
    NODE_NUMBERS < line_fields::count(tail) && line_fields::are_numbers(tail, NODE_NUMBERS)
}

// The rest of a node's line, behind its eight numbers.
#[tactic(auto, using(crate::proofs::FormLaws::name_is_lem))]
pub fn name(l: &[u8]) -> &[u8]
    ensures { result.now ≡ name_of l.now }
{
    line_fields::behind(line_fields::skip(line_fields::onward(l, COMMA), NODE_NUMBERS))
}

#[tactic(auto, unfolding(crate::specs::Forms::fits))]
pub fn fits(n: usize, each: usize, room: usize) -> bool
    requires { each ≤ 10 }
    ensures { result ≡ fits n each room }
{
    n <= MOST && n * each <= room
}

#[tactic(auto, using(crate::proofs::FormLaws::source_letter, crate::proofs::FormLaws::source_count_tested, crate::proofs::FormLaws::source_is_tested))]
pub fn is_source(l: &[u8], room: usize) -> bool
    ensures { result ≡ is_x room l.now }
{
    if !lettered(l, b'X') {
        return false;
    }
    let tail = line_fields::onward(l, COMMA);
    if line_fields::count(tail) != 1 {
        return false;
    }
    let digits = line_fields::field(tail);
    line_digits::is_hex(digits) && fits(digits.len() / 2, 1, room)
}
