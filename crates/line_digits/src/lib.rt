// Numbers as text: decimal digits, and bytes in hexadecimal.
#![tactic(auto)]

ghost use Rattle.std.specs.Prelude.{◌≡◌, ◌+◌, ◌≤◌, ◌<◌, true, ◌++◌, length, drop};
ghost use Rattle.line_digits.specs.Hex.{is_hex_digit, nibble_of, Nibble, is_hex, bytes_of};
ghost use Rattle.line_digits.specs.Number.{is_number, value_of, number_of};

// The largest number that a line can name.
const MOST: u64 = u32::MAX as u64;

// The number that the bytes spell.
#[tactic(auto, using(crate::proofs::NumberLaws::number_none, crate::proofs::NumberLaws::number_start, crate::proofs::NumberLaws::number_on_tested, crate::proofs::NumberLaws::number_bad, crate::proofs::NumberLaws::number_over, crate::proofs::NumberLaws::number_end))]
pub fn number(s: &[u8]) -> Option<u32>
    ensures { result ≡ number_of s.now }
{
    if s.is_empty() {
        return None;
    }
    let mut v: u64 = 0;
    for c in s {
        if !c.is_ascii_digit() {
            return None;
        }
        v = v * 10 + u64::from(*c - b'0');
        if MOST < v {
            return None;
        }
    }
    Some(v as u32)
}

#[tactic(auto, using(crate::proofs::NumberLaws::some_is))]
pub fn is_number(s: &[u8]) -> bool
    ensures { result ≡ is_number s.now }
{
    number(s).is_some()
}

#[tactic(auto, using(crate::proofs::NumberLaws::number_some))]
pub fn value(s: &[u8]) -> u32
    requires { is_number s.now ≡ true }
    ensures { result ≡ value_of s.now }
{
    number(s).unwrap()
}

fn is_hex_digit(c: u8) -> bool
    ensures { result ≡ is_hex_digit c }
{
    matches!(c, b'0'..=b'9' | b'A'..=b'F' | b'a'..=b'f')
}

#[tactic(auto, using(crate::proofs::HexLaws::nibble_low, crate::proofs::HexLaws::nibble_mid, crate::proofs::HexLaws::nibble_high))]
fn nibble(c: u8) -> u8
    requires { Nibble c }
    ensures { (result ≡ nibble_of c) × (result < 16) }
{
    match c {
        ..=b'9' => c - b'0',
        ..=b'F' => c - (b'A' - 10),
        _ => c - (b'a' - 10),
    }
}

pub fn is_hex(s: &[u8]) -> bool
    ensures { result ≡ is_hex s.now }
{
    s.iter().all(|c| is_hex_digit(*c)) && s.len() % 2 == 0
}

// Writes the bytes that the digits spell to the front of a slice, and says how many they are.
#[tactic(auto, using(crate::proofs::HexLaws::byte_room, crate::proofs::HexLaws::hex_pair, crate::proofs::HexLaws::hex_nibble))]
pub fn write_bytes(s: &[u8], out: &mut [u8]) -> usize
    requires { (is_hex s.now ≡ true) × (length (bytes_of s.now) ≤ length out.old) }
    ensures { (result ≡ length (bytes_of s.now)) × (out.new ≡ bytes_of s.now ++ drop (length (bytes_of s.now)) out.old) }
{
    let mut k = 0;
    let mut t = s;
    while let [high, low, rest @ ..] = t {
        out[k] = nibble(*high) * 16 + nibble(*low);
        t = rest;
        k += 1;
    }
    k
}
