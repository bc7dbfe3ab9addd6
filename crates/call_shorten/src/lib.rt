// The call that makes a lent code slice shorter, in the slice, for every length.
#![tactic(auto)]

ghost use Rattle.std.specs.Prelude.{◌≡◌, ◌≤◌, ◌++◌, length, drop};
ghost use Rattle.code_valid.specs.Valid.{Valid};
ghost use Rattle.code_shorten.specs.Short.{shorter};
ghost use Rattle.call_shorten.specs.Shorten.{shorten_answer, shorten_slice};

use code_machine::word;
use code_places::index::{Places, Stride};

// Codes of up to so many numbers get `FEW` strides.
const SHORT: usize = 128;

// All strides are cleared and filled for each code, so the fewer, the less it takes. None of these is wider than 8 numbers.
const FEW: usize = 32;

// Codes of up to so many get `MORE`.
const MIDDLE: usize = 1024;

// None of these is wider than 8 numbers either.
const MORE: usize = 256;

// Longer codes get so many that the strides of a unit's longest are narrow too: 164 of 655,358 numbers.
const MANY: usize = 4096;

// Makes a code shorter, and tells the new length. The entries behind it stay as they were.
fn shorten_by(code: &mut [u32], index: &mut [Stride]) -> usize
    requires valid { Valid code.old }
    requires strides_bound { 10 ≤ length index.old }
    ensures value { result ≡ length (shorter code.old) }
    ensures code_after { code.new ≡ shorter code.old ++ drop result code.old }
{
    code_mark::mark_reached(code);
    let length = code_mark::new_length(code);
    let split = code_mark::split_of(code, length);
    let front = code_mark::kept_before(code, split);
    // At most three entries stand before the split and behind the new length: those of an instruction that begins before it.
    let saved: [u32; 3] = [
        word(code, length),
        word(code, length + 1),
        word(code, length + 2),
    ];
    let stride = code_places::stride_of(index.len(), code.len());
    code_places::fill(code, index);
    let places = Places {
        index,
        stride,
        split,
        front,
    };
    code_mark::send_front(code, split);
    code_gather::gather(code, &places);
    code_close::close_up(code, &places, length, &saved);
    length
}

// With an index of N strides. It stands by itself, so that no call makes room for a larger index than its own.
#[inline(never)]
fn shorten_within<const N: usize>(code: &mut [u32]) -> usize
    requires valid { Valid code.old }
    requires lower_bound { 10 ≤ N }
    requires upper_bound { N ≤ 4096 }
    ensures value { result ≡ length (shorter code.old) }
    ensures code_after { code.new ≡ shorter code.old ++ drop result code.old }
{
    let mut index: [Stride; N] = [Stride { begin: 0, new: 0 }; N];
    shorten_by(code, &mut index)
}

// With the fewest strides that serve.
fn shorten_valid(code: &mut [u32]) -> usize
    requires { Valid code.old }
    ensures value { result ≡ length (shorter code.old) }
    ensures code_after { code.new ≡ shorter code.old ++ drop result code.old }
{
    if code.len() <= SHORT {
        return shorten_within::<FEW>(code);
    }
    if code.len() <= MIDDLE {
        return shorten_within::<MORE>(code);
    }
    shorten_within::<MANY>(code)
}

// Makes the code that is lent shorter, of any length, and gives the new length; 18 with its place where the numbers are no code, and nothing is changed.
pub fn shorten(code: &mut [u32]) -> Result<usize, u64>
    ensures answer { result ≡ shorten_answer code.old }
    ensures code_after { code.new ≡ shorten_slice code.old }
{
    code_valid::check(code)?;
    Ok(shorten_valid(code))
}
