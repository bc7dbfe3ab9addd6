// For the benchmark alone, and no part of the library: a walk up with a division at each step, and calls that time it
// beside the library's own walk, which has none.
#![tactic(auto)]

ghost use Rattle.std.specs.Prelude.{◌≡◌, ◌<◌};
ghost use Rattle.table_records.specs.Table.{count};
ghost use Rattle.table_children.specs.Children.{below};
ghost use Rattle.table_ancestry.specs.Ancestry.{nearest_of};

use table_records::NodeId;
use table_records::nodes::Nodes;

// More than any kind: a walk that looks for it goes to the root.
const NO_KIND: u32 = 100;

// The nearest ancestor with a kind from low to high, by the contract of table_ancestry::nearest. Each step asks whether there
// is such a node by the table's size, which is a division.
fn nearest_by_size(nodes: &Nodes, n: NodeId, low: u32, high: u32) -> Option<NodeId>
    requires n_bound { n.0 < count nodes.now }
    ensures value { result ≡ nearest_of nodes.now low high n.0 }
    ensures below { below nodes.now result }
{
    let mut at = n;
    while 0 < at.0 {
        at = table_ancestry::up(nodes, at);
        let size = table_records::size(nodes);
        if size <= at.0 {
            return None;
        }
        if (low..=high).contains(&table_records::kind(nodes, at)) {
            return Some(at);
        }
    }
    None
}

// So many walks to the root. What is looked for changes from walk to walk, so that none can be left out.
fn walks_by<F: Fn(u32) -> Option<NodeId>>(walk: F, walks: u32) -> u32
    requires { F.IsAlwaysCallable walk }
{
    for done in 0..walks {
        let None = walk(done) else {
            return done;
        };
    }
    walks
}

fn walks_from_last(nodes: &Nodes, walks: u32, divided: u32) -> u32 {
    let last = NodeId(table_records::size(nodes) - 1);
    if divided == 0 {
        return walks_by(
            |high| table_ancestry::nearest(nodes, last, NO_KIND, high),
            walks,
        );
    }
    walks_by(|high| nearest_by_size(nodes, last, NO_KIND, high), walks)
}

// So many walks from the last node to the root, with a division in each step or (0) without, and how many were done: none
// where the tables are turned down.
#[tactic(auto, using(refusal_input::proofs::InputLaws::input_well_formed))]
#[unsafe(no_mangle)]
pub extern "C" fn bench_walks(
    source_type: u32,
    nodes: &[u32],
    scopes: &[u32],
    source: &[u8],
    names: &[u8],
    walks: u32,
    divided: u32,
) -> u32 {
    match refusal_input::refusal(source_type, nodes, scopes, source, names) {
        Err(_) => 0,
        Ok(()) => {
            let nodes = &Nodes { numbers: nodes };
            walks_from_last(nodes, walks, divided)
        }
    }
}

// Whether the tables are turned down: the refusal's number, or 0. It is a caller of the refusals beside bench_walks, so that the
// compiler makes one function of them, as in the library, and the walks alone are timed.
#[unsafe(no_mangle)]
pub extern "C" fn bench_refusal(
    source_type: u32,
    nodes: &[u32],
    scopes: &[u32],
    source: &[u8],
    names: &[u8],
) -> u32 {
    match refusal_input::refusal(source_type, nodes, scopes, source, names) {
        Err(refused) => refused.number(),
        Ok(()) => 0,
    }
}
