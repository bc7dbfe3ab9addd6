// rulecheck: reads the lines of a rule's tables from standard input, checks them, and prints the findings or the refusal.
#![tactic(auto)]

ghost use Rattle.std.specs.Prelude.{◌≡◌, IfSome, OnOk, length};
ghost use Rattle.std.specs.Io.KnownBytes.{Appends};
ghost use Rattle.line_input.specs.Format.{front};
ghost use Rattle.line_answers.specs.Answer.{findings_room, text_room};
ghost use Rattle.rulecheck.specs.Response.{check_text, response};

use check_dispatch::Rule;
use line_answers::{FINDINGS_ROOM, TEXT_ROOM};
use line_input::ENOUGH;
use refusal_verdict::{Refusal, Refused};
use std::io;
use std::io::{Read, Write};

// The option on async and generator bodies, which `rulecheck` has off.
const ASYNC_BODIES_OFF: u32 = 0;

// Writes the text of the tables. Says where it ends. It takes no `Rule`: the lines of this program have no option on async bodies.
#[tactic(auto, using(crate::proofs::ResponseLaws::check_text_lem, crate::proofs::ResponseLaws::check_counted, crate::proofs::ResponseLaws::put_front))]
fn check_text(
    source_type: u32,
    nodes: &[u32],
    scopes: &[u32],
    source: &[u8],
    names: &[u8],
    findings: &mut [u32],
    out: &mut [u8],
) -> usize
    requires { (length findings.old ≡ findings_room) × (length out.old ≡ text_room) }
    ensures { (result ≡ length (check_text source_type nodes.now scopes.now source.now names.now)) × (out.new ≡ front (check_text source_type nodes.now scopes.now source.now names.now) out.old) }
{
    let rule = Rule {
        source_type,
        async_bodies: ASYNC_BODIES_OFF,
        nodes,
        scopes,
        source,
        names,
    };
    let answer = call_check::check(&rule, findings);
    line_answers::answer_text(answer, findings, out)
}

// Writes what is printed for the bytes `input`, with slices for the tables and for the findings. Says where it ends. The tables' have room for
// 1,024 nodes of ten numbers, 1,024 scopes of three, and 1,024 bytes of source and of names: the most that are read.
#[tactic(auto, using(crate::proofs::ResponseLaws::text_unread, crate::proofs::ResponseLaws::text_tables, crate::proofs::ResponseLaws::put_front))]
fn respond_by(
    input: &[u8],
    nodes: &mut [u32],
    scopes: &mut [u32],
    source: &mut [u8],
    names: &mut [u8],
    findings: &mut [u32],
    out: &mut [u8],
) -> usize
    requires nodes_len { (length nodes.old ≡ 10240) × (length scopes.old ≡ 3072) × (length source.old ≡ 1024) × (length names.old ≡ 1024) }
    requires findings_len { (length findings.old ≡ findings_room) × (length out.old ≡ text_room) }
    ensures { (result ≡ length (response input.now)) × (out.new ≡ front (response input.now) out.old) }
{
    let read = line_input::read(input, nodes, scopes, source, names);
    match read {
        Err(unread) => line_answers::refusal_text(Refused::At(Refusal::Unread, unread.line), out),
        Ok(tables) => check_text(
            tables.kind,
            line_print::front(nodes, tables.nodes),
            line_print::front(scopes, tables.scopes),
            line_print::front(source, tables.source),
            line_print::front(names, tables.names),
            findings,
            out,
        ),
    }
}

// Writes what is printed for the bytes `input`. Says where it ends.
fn respond(input: &[u8], out: &mut [u8]) -> usize
    requires { length out.old ≡ text_room }
    ensures { (result ≡ length (response input.now)) × (out.new ≡ front (response input.now) out.old) }
{
    let mut nodes = [0u32; 10240];
    let mut scopes = [0u32; 3072];
    let mut source = [0u8; 1024];
    let mut names = [0u8; 1024];
    let mut findings = [0u32; FINDINGS_ROOM];
    respond_by(
        input,
        &mut nodes,
        &mut scopes,
        &mut source,
        &mut names,
        &mut findings,
        out,
    )
}

// Reads, and prints what there is to print for what was read: where the reader's and the writer's bytes are known, the response to all
// that the reader has, also where that is more than `ENOUGH` bytes.
fn run<I: Read, O: Write>(
    reader: &mut I,
    writer: &mut O,
    input: &mut [u8; ENOUGH],
    out: &mut [u8; TEXT_ROOM],
) -> io::Result<()>
    ensures { OnOk result (IfSome (I.remaining reader.old) (λ bytes. Appends (O.contents writer.old) (O.contents writer.new) (response bytes))) }
{
    let got = line_stream::read_full(reader, input)?;
    let end = respond(line_print::front(input, got), out);
    writer.write_all(line_print::front(out, end))
}

fn main(rt: HostRuntime) -> io::Result<()> {
    let mut input = [0u8; ENOUGH];
    let mut out = [0u8; TEXT_ROOM];
    run(&mut rt.stdin(), &mut rt.stdout(), &mut input, &mut out)
}
