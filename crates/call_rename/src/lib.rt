// The public call `rename`: the refusals of the input (1 to 6, 13 to 15), 19 and 20, or the tables with their labels renamed.
#![tactic(auto)]

ghost use Rattle.std.specs.Prelude.{◌≡◌};
ghost use Rattle.call_rename.specs.Rename.{written, labelled, renaming};
ghost use Rattle.call_rename.specs.Sized.{Sized};

use call_labels::Labels;
use refusal_verdict::{Refusal, Refused};
use table_names::named::NamedNodes;
use table_records::nodes::Nodes;

// The names of a table, as document 01 bounds them.
const MOST_BYTES: usize = 1048576;

// How many bytes of names are written, with the node table, from each slice's start. The lengths first, so that nothing is written where either slice is too short.
#[tactic(auto, using(crate::proofs::RenameLaws::short_nodes, crate::proofs::RenameLaws::short_names_lem, crate::proofs::RenameLaws::long_names, crate::proofs::RenameLaws::room, call_labels::proofs::WrittenLaws::records_length))]
fn write_all(
    labels: &Labels,
    renamed_nodes: &mut [u32],
    renamed_names: &mut [u8],
) -> Result<usize, Refused>
    ensures value { result ≡ (written labels.now.nodes labels.now.names renamed_nodes.old renamed_names.old).answer }
    ensures renamed_nodes_after { renamed_nodes.new ≡ (written labels.now.nodes labels.now.names renamed_nodes.old renamed_names.old).nodes }
    ensures renamed_names_after { renamed_names.new ≡ (written labels.now.nodes labels.now.names renamed_nodes.old renamed_names.old).names }
{
    let named = labels.named;
    let nodes: &[u32] = named.nodes;
    let needed = call_labels::names_length(labels);
    if renamed_nodes.len() < nodes.len() {
        return Err(Refused::Short(Refusal::RenamedSlices, needed as u64));
    }
    if renamed_names.len() < needed {
        return Err(Refused::Short(Refusal::RenamedSlices, needed as u64));
    }
    if MOST_BYTES < needed {
        return Err(Refused::Short(Refusal::RenamedSlices, needed as u64));
    }
    call_labels::write(labels, renamed_nodes, renamed_names);
    Ok(needed)
}

// 19, or else the labels renamed.
#[tactic(auto, using(crate::proofs::RenameLaws::ready, crate::proofs::RenameLaws::listed_unfit, crate::proofs::RenameLaws::listed_few, crate::proofs::RenameLaws::labelled_unfit, crate::proofs::RenameLaws::labelled_fit))]
fn labels(
    nodes: &[u32],
    names: &[u8],
    renamed_nodes: &mut [u32],
    renamed_names: &mut [u8],
) -> Result<usize, Refused>
    requires { Sized nodes.now names.now }
    ensures value { result ≡ (labelled nodes.now names.now renamed_nodes.old renamed_names.old).answer }
    ensures renamed_nodes_after { renamed_nodes.new ≡ (labelled nodes.now names.now renamed_nodes.old renamed_names.old).nodes }
    ensures renamed_names_after { renamed_names.new ≡ (labelled nodes.now names.now renamed_nodes.old renamed_names.old).names }
{
    let nodes = &Nodes { numbers: nodes };
    let named = &NamedNodes { nodes, names };
    let found = call_labels::first_labels(named);
    match found {
        Err(n) => Err(Refused::At(Refusal::Label, n.0)),
        Ok(kept) => {
            let labels = Labels { named, kept: &kept };
            write_all(&labels, renamed_nodes, renamed_names)
        }
    }
}

// Writes the tables of a rule with its labels renamed to short names. It takes five parts of a rule, and no `Rule`: nothing here asks for the option on
// async bodies.
#[tactic(auto, using(refusal_verdict::proofs::VerdictLaws::handed, crate::proofs::RenameLaws::sized, crate::proofs::RenameLaws::input_refused, crate::proofs::RenameLaws::input_passed))]
pub fn rename(
    source_type: u32,
    nodes: &[u32],
    scopes: &[u32],
    source: &[u8],
    names: &[u8],
    renamed_nodes: &mut [u32],
    renamed_names: &mut [u8],
) -> Result<usize, Refused>
    ensures value { result ≡ (renaming source_type nodes.now scopes.now source.now names.now renamed_nodes.old renamed_names.old).answer }
    ensures renamed_nodes_after { renamed_nodes.new ≡ (renaming source_type nodes.now scopes.now source.now names.now renamed_nodes.old renamed_names.old).nodes }
    ensures renamed_names_after { renamed_names.new ≡ (renaming source_type nodes.now scopes.now source.now names.now renamed_nodes.old renamed_names.old).names }
{
    refusal_input::refusal(source_type, nodes, scopes, source, names)?;
    labels(nodes, names, renamed_nodes, renamed_names)
}
