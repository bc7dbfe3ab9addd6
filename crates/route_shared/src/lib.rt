// "the length of the longest beginning that their routes share", for two lists of answers of any kind, on any list of numbers as code: both routes are
// run in step, entry by entry.
#![tactic(auto)]

ghost use Rattle.std.specs.Prelude.{◌≡◌};
ghost use Rattle.route_shared.specs.Shared.{shared_entries};

use code_machine::{Ends, ROOM};

// Each run has an array of its own for its pending ends.
fn shared_over(
    code: &[u32],
    first: &[u32],
    second: &[u32],
    ends: &mut Ends,
    others: &mut Ends,
) -> u64
    ensures { result ≡ shared_entries code.now first.now second.now }
{
    let mut p = code_machine::start(code);
    let mut q = code_machine::start(code);
    let mut entries = 0;
    loop {
        let Ok(one) = code_machine::next_entry(code, first, ends, p) else {
            return entries;
        };
        let Ok(other) = code_machine::next_entry(code, second, others, q) else {
            return entries;
        };
        if one.node != other.node {
            return entries;
        }
        entries = route_list::next(entries);
        p = one.then;
        q = other.then;
    }
}

// How many entries the routes for the two lists of answers share from their beginning.
pub fn shared_entries(code: &[u32], first: &[u32], second: &[u32]) -> u64
    ensures { result ≡ shared_entries code.now first.now second.now }
{
    let mut ends: Ends = [0; ROOM];
    let mut others: Ends = [0; ROOM];
    shared_over(code, first, second, &mut ends, &mut others)
}
