// The refusals of the input: 1, 2, 3, 4, 5 (scope records, then nodes), 13, 14, 6, 15. The first of them that applies is given, at its lowest place. Well-formed
// tables are those that pass.
#![tactic(auto)]

ghost use Rattle.std.specs.Prelude.{◌≡◌};
ghost use Rattle.table_records.specs.Table.{count};
ghost use Rattle.table_records.specs.Facts.{Scoped};
ghost use Rattle.check_supers.specs.Super.{fails_at};
ghost use Rattle.refusal_verdict.specs.First.{first};
ghost use Rattle.refusal_input.specs.Input.{shape_refusal, input_refusal};

use refusal_verdict::{Refusal, Refused};
use table_records::NodeId;
use table_records::nodes::Nodes;
use table_records::scopes::Scopes;

// The lowest Super whose search the Rust ends in a failure.
#[tactic(auto, using(refusal_verdict::proofs::FirstLaws::first_on, refusal_verdict::proofs::FirstLaws::first_stop, refusal_verdict::proofs::FirstLaws::first_end))]
fn failing(nodes: &Nodes, scopes: &Scopes) -> Option<u32>
    requires scoped { Scoped nodes.now scopes.now }
    ensures { result ≡ first (fails_at nodes.now scopes.now) 0 (count nodes.now) }
{
    (0..table_records::size(nodes)).find(|&i| check_super_search::fails_at(
        nodes,
        scopes,
        NodeId(i),
    ))
}

// 13, 14, 6 and 15, each over the whole tree.
#[tactic(auto, using(refusal_verdict::proofs::VerdictLaws::handed, refusal_verdict::proofs::VerdictLaws::stopped, refusal_verdict::proofs::VerdictLaws::went_on), unfolding(crate::specs::Input::shape_refusal))]
fn shape_refusal(nodes: &Nodes, scopes: &Scopes) -> Result<(), Refused>
    requires scoped { Scoped nodes.now scopes.now }
    ensures { result ≡ shape_refusal nodes.now scopes.now }
{
    Refusal::Misplaced.at(refusal_standing::misplaced_child(nodes))?;
    Refusal::WrongCount.at(refusal_counts::wrong_count(nodes))?;
    Refusal::Walk.at(failing(nodes, scopes))?;
    Refusal::ReturnInStatic.at(refusal_return::return_in_static(nodes))
}

// The refusal of the input. It takes five parts of a rule, and no `Rule`: no refusal asks for the option on async bodies.
#[tactic(auto, using(refusal_verdict::proofs::VerdictLaws::handed, refusal_verdict::proofs::VerdictLaws::stopped, refusal_verdict::proofs::VerdictLaws::went_on, refusal_fields::proofs::FieldsLaws::sizes_of), unfolding(crate::specs::Input::input_refusal, crate::specs::Input::tables_or))]
pub fn refusal(
    source_type: u32,
    nodes: &[u32],
    scopes: &[u32],
    source: &[u8],
    names: &[u8],
) -> Result<(), Refused>
    ensures { result ≡ input_refusal source_type nodes.now scopes.now source.now names.now }
{
    if refusal_fields::wrong_sizes(source_type, nodes, scopes, source, names) {
        return Err(Refused::At(Refusal::Sizes, 0));
    }
    Refusal::Unlisted.at(refusal_fields::unlisted(source_type, nodes))?;
    Refusal::Tree.at(refusal_tree::misplaced(nodes))?;
    // no node is out of place
    let nodes = &Nodes { numbers: nodes };
    Refusal::Bytes.at(refusal_fields::stray(nodes, source, names))?;
    Refusal::Scopes.at(refusal_scopes::broken(scopes))?;
    // no scope record is broken
    let scopes = &Scopes { numbers: scopes };
    Refusal::Scopes.at(refusal_scopes::misscoped(nodes, scopes))?;
    shape_refusal(nodes, scopes)
}
