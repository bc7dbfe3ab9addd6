// A reader holds a line's bytes and how far it has come. The functions over it are few and thin: each takes it apart and calls
// one on the slice and the place, and `next_from` is for callers that hold only those.
#![tactic(auto)]

ghost use Rattle.std.specs.Prelude.{◌≡◌, ◌+◌, ◌≤◌, true, map, length, drop};
ghost use Rattle.base_common.specs.Upto.{all};
ghost use Rattle.base_common.specs.Wrote.{put};
ghost use Rattle.line_digits.specs.Number.{is_number, value_of};
ghost use Rattle.line_fields.specs.Split.{fields_in, firsts};
ghost use Rattle.line_reader.specs.Step.{step_at};

#[derive(Clone, Copy)]
pub struct Reader<'a> {
    pub line: &'a [u8],
    pub at: usize,
}

// The number of the field behind the comma at a place, and where that field ends.
#[derive(Clone, Copy)]
pub struct Number {
    pub value: u32,
    pub past: usize,
}

fn from(line: &[u8], at: usize) -> &[u8]
    ensures { result.now ≡ drop at line.now }
{
    line.get(at..).unwrap_or(&[])
}

// The work: the step from a place of a line, if the field behind it is a number.
#[tactic(auto, using(crate::proofs::StepLaws::past_is, crate::proofs::StepLaws::step_number, crate::proofs::StepLaws::step_stop, line_digits::proofs::NumberLaws::told_value, line_digits::proofs::NumberLaws::told_none))]
pub fn step_at(line: &[u8], at: usize) -> Option<Number>
    ensures { result ≡ step_at line.now at }
{
    let tail = from(line, at);
    let value = line_digits::number(line_fields::field(tail))?;
    let past = line.len() - line_fields::next(tail).len();
    Some(Number { value, past })
}

pub fn open<'a>(line: &'a [u8], at: usize) -> Reader<'a>
    ensures { (result.line ≡ line.entry) × (result.at ≡ at) }
{
    Reader { line, at }
}

pub fn next<'a>(r: Reader<'a>) -> Option<Number>
    ensures { result ≡ step_at r.entry.line.now r.entry.at }
{
    step_at(r.line, r.at)
}

pub fn next_from(line: &[u8], at: usize) -> Option<Number>
    ensures { result ≡ step_at line.now at }
{
    next(open(line, at))
}

// Writes the first n fields of a line's tail, all numbers, from place w on. A tail is what follows a line's letter: nothing, or a
// comma and more.
#[tactic(auto, using(line_fields::proofs::FieldLaws::firsts_none, line_fields::proofs::FieldLaws::length_values, table_put::proofs::Writes::put_start, table_put::proofs::Writes::put_end))]
pub fn write_numbers(tail: &[u8], n: usize, out: &mut [u32], w: usize)
    requires { (n ≤ length (fields_in tail.now)) × (w + n ≤ length out.old) × (all is_number (firsts n tail.now) ≡ true) }
    ensures { out.new ≡ put out.old w (map value_of (firsts n tail.now)) }
{
    let mut at = 0;
    for k in w..w + n {
        let number = next_from(tail, at).unwrap();
        out[k] = number.value;
        at = number.past;
    }
}
