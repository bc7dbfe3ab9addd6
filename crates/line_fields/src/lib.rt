// Lines of bytes, and the fields of a line, as parts of the slice that holds them.
#![tactic(auto)]

ghost use Rattle.std.specs.Prelude.{◌≡◌, ◌≤◌, ◌-◌, [], length, drop, get_or};
ghost use Rattle.base_common.specs.Upto.{all};
ghost use Rattle.line_digits.specs.Number.{is_number};
ghost use Rattle.line_fields.specs.Split.{lines_of, before, onward, to_first, fields_in, field_of, next_of, firsts};

// What ends a line, and what stands between its fields.
const NEW_LINE: u8 = b'\n';

pub const COMMA: u8 = b',';

// How many bytes stand before the first d; all, if there is none.
fn to_first(s: &[u8], d: u8) -> usize
    ensures { (result ≡ to_first d s.now) × (result ≤ length s.now) }
{
    s.iter().position(|x| *x == d).unwrap_or(s.len())
}

#[tactic(auto, using(crate::proofs::SplitLaws::take_before))]
pub fn before(s: &[u8], d: u8) -> &[u8]
    ensures { result.now ≡ before d s.now }
{
    &s[..to_first(s, d)]
}

#[tactic(auto, using(crate::proofs::SplitLaws::drop_onward, line_digits::proofs::Lists::part_from))]
pub fn onward(s: &[u8], d: u8) -> &[u8]
    ensures { result.now ≡ onward d s.now }
{
    &s[to_first(s, d)..]
}

pub fn behind(s: &[u8]) -> &[u8]
    ensures { result.now ≡ drop 1 s.now }
{
    match s {
        [_, rest @ ..] => rest,
        [] => s,
    }
}

// A tail is what follows a line's letter or a field: nothing, or a comma and more.
// Its first field.
pub fn field(tail: &[u8]) -> &[u8]
    ensures { result.now ≡ field_of tail.now }
{
    before(behind(tail), COMMA)
}

// The tail behind that field.
#[tactic(auto, using(crate::proofs::FieldLaws::next_short))]
pub fn next(tail: &[u8]) -> &[u8]
    ensures { (result.now ≡ next_of tail.now) × (length result.now ≤ length tail.now - 1) }
{
    onward(behind(tail), COMMA)
}

#[tactic(auto, using(crate::proofs::FieldLaws::count_turn, crate::proofs::FieldLaws::count_end))]
pub fn count(tail: &[u8]) -> usize
    ensures { result ≡ length (fields_in tail.now) }
{
    let mut t = tail;
    let mut n = 0;
    while !t.is_empty() {
        t = next(t);
        n += 1;
    }
    n
}

// Are the first n fields numbers?
#[tactic(auto, using(crate::proofs::FieldLaws::numbers_on, crate::proofs::FieldLaws::numbers_bad, crate::proofs::FieldLaws::numbers_end, crate::proofs::FieldLaws::numbers_none))]
pub fn are_numbers(tail: &[u8], n: usize) -> bool
    ensures { result ≡ all is_number (firsts n tail.now) }
{
    let mut t = tail;
    for _ in 0..n {
        if t.is_empty() {
            return true;
        }
        if !line_digits::is_number(field(t)) {
            return false;
        }
        t = next(t);
    }
    true
}

// The tail behind the first n fields.
// It differs from `skip_lines` in its step alone. One function for both would take the step as a closure, and be no plainer: either body is a loop of one
// line, and each call would hand on a closure with a contract as long as theirs.
pub fn skip(tail: &[u8], n: usize) -> &[u8]
    ensures { fields_in result.now ≡ drop n (fields_in tail.now) }
{
    let mut t = tail;
    for _ in 0..n {
        t = next(t);
    }
    t
}

// The first line; empty, if there is none.
#[tactic(auto, using(crate::proofs::SplitLaws::line_first))]
pub fn line(b: &[u8]) -> &[u8]
    ensures { result.now ≡ get_or (lines_of b.now) 0 [] }
{
    before(b, NEW_LINE)
}

// The bytes after the first line.
#[tactic(auto, using(crate::proofs::SplitLaws::lines_after))]
pub fn after(b: &[u8]) -> &[u8]
    ensures { lines_of result.now ≡ drop 1 (lines_of b.now) }
{
    behind(onward(b, NEW_LINE))
}

// The bytes after the first n lines.
pub fn skip_lines(b: &[u8], n: usize) -> &[u8]
    ensures { lines_of result.now ≡ drop n (lines_of b.now) }
{
    let mut t = b;
    for _ in 0..n {
        t = after(t);
    }
    t
}
