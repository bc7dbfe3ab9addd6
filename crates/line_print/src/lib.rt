// Lines of numbers, as the programs print them, and the front of a slice.
#![tactic(auto)]

ghost use Rattle.std.specs.Prelude.{◌≡◌, ◌+◌, ◌≤◌, ◌<◌, ◌∷◌, ℕ, length, map, take};
ghost use Rattle.base_common.specs.Wrote.{put};
ghost use Rattle.line_print.specs.Print.{decimal, fields_for, line_of};

// A number that is printed in decimal digits.
trait Decimal: Copy {
    ghost number: { Self → ℕ };

    fn word(self) -> u64
        ensures { result ≡ number self };
}

impl Decimal for u32 {
    ghost number = { λ n. n };

    fn word(self) -> u64 {
        u64::from(self)
    }
}

impl Decimal for u64 {
    ghost number = { λ n. n };

    fn word(self) -> u64 {
        self
    }
}

// How many decimal digits n has. Digits are written by hand here, since `to_string` takes its text from the heap.
#[tactic(auto, using(crate::proofs::PrintLaws::length_power, crate::proofs::PrintLaws::length_zero))]
fn places(n: u64) -> usize
    ensures { (result ≡ length (decimal n)) × (result ≤ 20) }
{
    match n.checked_ilog10() {
        Some(k) => k as usize + 1,
        None => 1,
    }
}

fn glyph(d: u64) -> u8
    requires { d < 10 }
    ensures { result ≡ 48 + d }
{
    b'0' + d as u8
}

// Writes n's decimal digits from place w on, the last one first. Says where they end.
#[tactic(auto, using(crate::proofs::PrintLaws::length_more, crate::proofs::PrintLaws::length_less, crate::proofs::PrintLaws::digit_last))]
fn put_number(n: u64, out: &mut [u8], w: usize) -> usize
    requires { w + length (decimal n) ≤ length out.old }
    ensures { (result ≡ w + length (decimal n)) × (out.new ≡ put out.old w (decimal n)) }
{
    let end = w + places(n);
    // `i` goes down with what is left of n: a range run backwards is no plainer, since it ends with no digit left, where 0 has one.
    let mut i = end;
    let mut rest = n;
    while 10 <= rest {
        i -= 1;
        out[i] = glyph(rest % 10);
        rest /= 10;
    }
    out[w] = glyph(rest);
    end
}

// Writes a comma and a number.
fn put_field(n: u64, out: &mut [u8], w: usize) -> usize
    requires { w + length (44 ∷ decimal n) ≤ length out.old }
    ensures { (result ≡ w + length (44 ∷ decimal n)) × (out.new ≡ put out.old w (44 ∷ decimal n)) }
{
    out[w] = line_fields::COMMA;
    put_number(n, out, w + 1)
}

// Writes numbers from place w on, each behind a comma. Says where they end.
fn put_fields<T: Decimal>(numbers: &[T], out: &mut [u8], w: usize) -> usize
    requires { w + length (fields_for (map T.number numbers.now)) ≤ length out.old }
    ensures { (result ≡ w + length (fields_for (map T.number numbers.now))) × (out.new ≡ put out.old w (fields_for (map T.number numbers.now))) }
{
    let mut at = w;
    for n in numbers {
        at = put_field(n.word(), out, at);
    }
    at
}

// Writes a line of numbers or words from place w on, and says where it ends.
#[tactic(auto, using(crate::proofs::PrintLaws::line_put, crate::proofs::PrintLaws::length_line))]
fn put_line<T: Decimal>(letter: u8, numbers: &[T], out: &mut [u8], w: usize) -> usize
    requires { w + length (line_of letter (map T.number numbers.now)) ≤ length out.old }
    ensures { (result ≡ w + length (line_of letter (map T.number numbers.now))) × (out.new ≡ put out.old w (line_of letter (map T.number numbers.now))) }
{
    out[w] = letter;
    let end = put_fields(numbers, out, w + 1);
    out[end] = b'\n';
    end + 1
}

// Writes a line from place w on, and says where it ends.
pub fn line(letter: u8, numbers: &[u32], out: &mut [u8], w: usize) -> usize
    requires { w + length (line_of letter numbers.now) ≤ length out.old }
    ensures { (result ≡ w + length (line_of letter numbers.now)) × (out.new ≡ put out.old w (line_of letter numbers.now)) }
{
    put_line(letter, numbers, out, w)
}

// The same for words. Two names, since one generic name is no plainer for callers: its clause has `map T.number`, which each of them would have to take
// away again by a law.
pub fn long_line(letter: u8, numbers: &[u64], out: &mut [u8], w: usize) -> usize
    requires { w + length (line_of letter numbers.now) ≤ length out.old }
    ensures { (result ≡ w + length (line_of letter numbers.now)) × (out.new ≡ put out.old w (line_of letter numbers.now)) }
{
    put_line(letter, numbers, out, w)
}

// The first n members of a slice, or all where there are fewer.
pub fn front<T>(s: &[T], n: usize) -> &[T]
    ensures { result.now ≡ take n s.now }
{
    s.get(..n).unwrap_or(s)
}
