// The code of a unit, made from the tables alone: the words of each of its nodes at its place, and the ends behind them.
#![tactic(auto)]

ghost use Rattle.std.specs.Prelude.{◌≡◌, ◌+◌, ◌<◌, ◌≤◌, length};
ghost use Rattle.table_records.specs.Table.{count};
ghost use Rattle.code_flat.specs.Code.{unit, ends};
ghost use Rattle.route_list.specs.Over.{over};
ghost use Rattle.code_tree.specs.Statements.{body_of, unit_of};
ghost use Rattle.code_widths.specs.Widths.{Units, Widths};
ghost use Rattle.code_contexts.specs.Contexts as contexts;
ghost use Rattle.code_contexts.specs.Turn.{Room};
ghost use Rattle.code_branch.specs.Branch.{Arrays};
ghost use Rattle.code_put.specs.Put.{Put};
ghost use Rattle.code_assemble.specs.Ready.{Ready};
ghost use Rattle.code_assemble.specs.Assembled.{assembled, assembled_slice};
ghost use Rattle.code_assemble.specs.Written.{Emitted};

use code_branch::Layout;
use code_contexts::Draft;
use code_machine::opcodes;
use code_put::put_words;
use refusal_verdict::{Refusal, Refused};
use table_records::NodeId;
use table_records::nodes::Nodes;

// Up to how many nodes small arrays serve, and smaller ones: they cost less to clear.
const SMALL: usize = 1024;

const FEW: usize = 128;

// More nodes than a table has.
const LARGE: usize = 65536;

// How many words the ends take.
const END_WORDS: usize = 8;

// Writes the words of n at its place, if it is the unit's.
fn emit_at(laid: &Layout, n: NodeId, code: &mut [u32])
    requires b_lt_n { laid.now.body < n.0 }
    requires n_bound { n.0 < count laid.now.nodes }
    requires b_in_bounds { length (unit (body_of laid.now.nodes laid.now.names laid.now.body)) ≤ length code.old }
    ensures { Emitted laid.now.nodes laid.now.names laid.now.body n.0 code.old code.new }
{
    if laid.levels[n.0 as usize] == 0 {
        return;
    }
    let words = code_instructions::words_of(laid, n);
    let own = code_instructions::own_of(laid.nodes, laid.names, laid.body, n);
    put_words(
        code,
        laid.offsets[n.0 as usize] as usize,
        &words,
        own as usize,
    );
}

// The four ends.
fn put_ends(code: &mut [u32], o: usize)
    requires { o + 8 ≤ length code.old }
    ensures { Put code.old o ends 8 code.new }
{
    let words: [u32; 8] = [
        opcodes::END,
        0,
        opcodes::END,
        1,
        opcodes::END,
        2,
        opcodes::END,
        5,
    ];
    put_words(code, o, &words, END_WORDS);
}

// Writes the words of all nodes, and the ends.
#[tactic(auto, using(crate::proofs::WrittenLaws::length_whole, crate::proofs::WrittenLaws::write_start, crate::proofs::WrittenLaws::write_turn, crate::proofs::WrittenLaws::write_end, code_layout::proofs::LayoutLaws::in_root, code_branch::proofs::JumpLaws::width_is_lem))]
fn write_code(laid: &Layout, code: &mut [u32])
    requires b_in_bounds { length (unit (body_of laid.now.nodes laid.now.names laid.now.body)) ≤ length code.old }
    ensures { code.new ≡ over (unit (body_of laid.now.nodes laid.now.names laid.now.body)) code.old }
{
    for j in laid.body.0 + 1..table_records::size(laid.nodes) {
        emit_at(laid, NodeId(j), code);
    }
    put_ends(code, laid.widths[laid.body.0 as usize] as usize);
}

// Writes the words of all nodes, and the ends, from a draft in which each node has its place.
fn write_draft<'a>(
    nodes: &'a Nodes<'a>,
    names: &'a [u8],
    b: NodeId,
    draft: &'a Draft<'a>,
    code: &mut [u32],
)
    requires arrays { Arrays nodes.now names.now b.0 draft.now.widths.now draft.now.levels.now draft.now.offsets.now draft.now.follows.now }
    requires b_in_bounds { length (unit (body_of nodes.now names.now b.0)) ≤ length code.old }
    ensures { code.new ≡ over (unit (body_of nodes.now names.now b.0)) code.old }
{
    let laid = Layout {
        nodes,
        names,
        body: b,
        widths: draft.widths,
        levels: draft.levels,
        offsets: draft.offsets,
        follows: draft.follows,
    };
    write_code(&laid, code);
}

// How many numbers the code of the statements that b holds has, once the widths are there, written from the slice's start. The length is known before anything
// is written.
#[tactic(auto, using(crate::proofs::WrittenLaws::fits_answer, crate::proofs::WrittenLaws::fits_slice, crate::proofs::WrittenLaws::short_answer, crate::proofs::WrittenLaws::short_slice, crate::proofs::WrittenLaws::length_whole, code_layout::proofs::LayoutLaws::in_root))]
fn code_by(
    nodes: &Nodes,
    names: &[u8],
    b: NodeId,
    draft: &mut Draft,
    code: &mut [u32],
) -> Result<usize, Refused>
    requires ready { contexts.Ready nodes.now names.now b.0 }
    requires room { Room nodes.now draft.old }
    requires units { Units nodes.now b.0 (count nodes.now) draft.old.levels.now }
    requires widths { Widths nodes.now b.0 draft.old.widths.now draft.old.offsets.now }
    ensures value { result ≡ assembled (unit (body_of nodes.now names.now b.0)) (length code.old) }
    ensures code_after { code.new ≡ assembled_slice (unit (body_of nodes.now names.now b.0)) code.old }
{
    let length = draft.widths[b.0 as usize] as usize + END_WORDS;
    if code.len() < length {
        return Err(Refused::Short(Refusal::CodeSlice, length as u64));
    }
    code_contexts::fill_places(nodes, names, b, draft);
    write_draft(nodes, names, b, draft, code);
    Ok(length)
}

// The code of the statements that b holds, by way of arrays with room for N nodes.
// Four arrays, and not one of structs: in the first passes they hold marks and sums in place of levels and offsets, one array to a pass.
// It stands by itself, so that no call makes room for larger arrays than its own.
#[inline(never)]
fn code_within<const N: usize>(
    nodes: &Nodes,
    names: &[u8],
    b: NodeId,
    code: &mut [u32],
) -> Result<usize, Refused>
    requires ready { contexts.Ready nodes.now names.now b.0 }
    requires nodes_bound { count nodes.now ≤ N }
    requires size_bound { N ≤ 65536 }
    ensures value { result ≡ assembled (unit (body_of nodes.now names.now b.0)) (length code.old) }
    ensures code_after { code.new ≡ assembled_slice (unit (body_of nodes.now names.now b.0)) code.old }
{
    let mut widths: [u32; N] = [0; N];
    let mut levels: [u16; N] = [0; N];
    let mut offsets: [u32; N] = [0; N];
    let mut follows: [u32; N] = [0; N];
    code_widths::fill_units(nodes, names, b, &mut levels, &mut widths);
    code_widths::fill_widths(nodes, names, b, &levels, &mut widths, &mut offsets);
    let mut draft = Draft {
        widths: &mut widths,
        levels: &mut levels,
        offsets: &mut offsets,
        follows: &mut follows,
    };
    code_by(nodes, names, b, &mut draft, code)
}

// The code of the statements that b holds.
fn code_body(nodes: &Nodes, names: &[u8], b: NodeId, code: &mut [u32]) -> Result<usize, Refused>
    requires { contexts.Ready nodes.now names.now b.0 }
    ensures value { result ≡ assembled (unit (body_of nodes.now names.now b.0)) (length code.old) }
    ensures code_after { code.new ≡ assembled_slice (unit (body_of nodes.now names.now b.0)) code.old }
{
    if !table_records::is_node(nodes, FEW as u32) {
        return code_within::<FEW>(nodes, names, b, code);
    }
    if !table_records::is_node(nodes, SMALL as u32) {
        return code_within::<SMALL>(nodes, names, b, code);
    }
    code_within::<LARGE>(nodes, names, b, code)
}

// The code of a unit without statements: the ends alone.
fn code_none(code: &mut [u32]) -> Result<usize, Refused>
    ensures value { result ≡ assembled ends (length code.old) }
    ensures code_after { code.new ≡ assembled_slice ends code.old }
{
    if code.len() < END_WORDS {
        return Err(Refused::Short(Refusal::CodeSlice, END_WORDS as u64));
    }
    put_ends(code, 0);
    Ok(END_WORDS)
}

// The code of the unit u.
#[tactic(auto, using(crate::proofs::ReadyLaws::unit_held, crate::proofs::ReadyLaws::unit_none))]
pub fn code_unit(nodes: &[u32], names: &[u8], u: NodeId, code: &mut [u32]) -> Result<usize, Refused>
    requires { Ready nodes.now names.now u.0 }
    ensures value { result ≡ assembled (unit (unit_of nodes.now names.now u.0)) (length code.old) }
    ensures code_after { code.new ≡ assembled_slice (unit (unit_of nodes.now names.now u.0)) code.old }
{
    let nodes = &Nodes { numbers: nodes };
    match code_shapes::holder(nodes, u) {
        Some(b) => code_body(nodes, names, b, code),
        None => code_none(code),
    }
}
