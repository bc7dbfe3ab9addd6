// Reading a whole input into a slice.
#![tactic(auto)]

ghost use Rattle.std.specs.Prelude.{◌≡◌, ◌≤◌, IfOk, IfSome, length, take};

use std::io;
use std::io::Read;

// Reads until the slice is full or the input ends. Says how many bytes now stand at the slice's front; those are the first ones of
// the input, as many as the slice has room for, where the reader's bytes are known.
pub fn read_full<R: Read>(reader: &mut R, out: &mut [u8]) -> io::Result<usize>
    ensures in_bounds { IfOk result (λ n. n ≤ length out.new) }
    ensures bytes { IfOk result (λ n. IfSome (R.remaining reader.old) (λ bytes. take n out.new ≡ take (length out.old) bytes)) }
{
    let mut done = 0;
    while done < out.len() {
        let n = reader.read(&mut out[done..])?;
        if n == 0 {
            break;
        }
        done += n;
    }
    Ok(done)
}
