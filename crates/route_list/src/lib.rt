// The list of a route as its caller gets it: counted, and written to a slice that the caller lends, as far as that goes; and the numbers of its end.
#![tactic(auto)]

ghost use Rattle.std.specs.Prelude.{◌≡◌, set};
ghost use Rattle.route_list.specs.Listing.{next};

pub mod run_end;

// One entry more. "A length above 18,446,744,073,709,551,615 is given as that number."
pub fn next(entries: u64) -> u64
    ensures { result ≡ next entries }
{
    entries.saturating_add(1)
}

// The node of entry k is written if the slice goes that far.
fn store(out: &mut [u32], k: u64, node: u32)
    ensures { out.new ≡ set out.old k node }
{
    if k < out.len() as u64 {
        out[k as usize] = node;
    }
}

// Lists a node behind so many entries, and gives their count then.
pub fn add(out: &mut [u32], entries: u64, node: u32) -> u64
    ensures counted { result ≡ next entries }
    ensures written { out.new ≡ set out.old entries node }
{
    store(out, entries, node);
    next(entries)
}
