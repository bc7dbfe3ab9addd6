// ruleroute: reads the lines of a rule's tables, a unit and answers from standard input, and prints the unit's route or the refusal.
#![tactic(auto)]

ghost use Rattle.std.specs.Prelude.{◌≡◌, [], ◌∷◌, IfSome, OnOk, length, take};
ghost use Rattle.std.specs.Io.KnownBytes.{Appends};
ghost use Rattle.base_common.specs.Wrote.{put};
ghost use Rattle.line_print.specs.Print.{line_of};
ghost use Rattle.ruleroute.specs.Answer.{entry_line, last_line, line_room, answers_room, code_room, routed_of, entries_of, lines_for, listed, text_of, printed};

use check_dispatch::Rule;
use line_input::ENOUGH;
use refusal_verdict::{Refusal, Refused};
use route_viewer::Route;
use std::io;
use std::io::{Read, Write};

// The option on async and generator bodies, which `ruleroute` has off.
const ASYNC_BODIES_OFF: u32 = 0;
// Room for a line.
const LINE: usize = 256;
// The most nodes that are read.
const NODES: usize = 1024;
// How many numbers of code the unit's own node takes, and at most each other node.
const UNIT_NUMBER: usize = 8;

const MOST_NUMBER: usize = 10;
// Room for the code of every unit, so that 11 is never given (`code_fits`), and for the route.
const CODE: usize = UNIT_NUMBER + MOST_NUMBER * (NODES - 1);

const ROUTE: usize = 655360;

// Writes the line of an entry. Says where it ends.
#[tactic(auto, using(line_print::proofs::PrintLaws::line_numbers, line_answers::proofs::AnswerLaws::numbers_one))]
fn entry_line(node: u32, out: &mut [u8]) -> usize
    requires { length out.old ≡ line_room }
    ensures { (result ≡ length (entry_line node)) × (out.new ≡ put out.old 0 (entry_line node)) }
{
    let l = [node];
    line_print::line(b'L', &l, out, 0)
}

// Writes the line of a route's end. Says where it ends.
#[tactic(auto, using(line_print::proofs::PrintLaws::line_words, crate::proofs::AnswerLaws::words_three))]
fn end_line(end: u64, entries: u64, taken: u64, out: &mut [u8]) -> usize
    requires { length out.old ≡ line_room }
    ensures { (result ≡ length (line_of 90 (end ∷ entries ∷ taken ∷ []))) × (out.new ≡ put out.old 0 (line_of 90 (end ∷ entries ∷ taken ∷ []))) }
{
    let z = [end, entries, taken];
    line_print::long_line(b'Z', &z, out, 0)
}

// Writes the last line that is printed. Says where it ends.
#[tactic(auto, unfolding(crate::specs::Answer::last_line))]
fn last_line(answer: Result<Route, Refused>, out: &mut [u8]) -> usize
    requires { length out.old ≡ line_room }
    ensures { (result ≡ length (last_line answer)) × (out.new ≡ put out.old 0 (last_line answer)) }
{
    match answer {
        Ok(route) => end_line(route.end as u64, route.entries as u64, route.taken, out),
        Err(refused) => line_answers::refusal_text(refused, out),
    }
}

// The answer for the bytes `input`, with slices for the tables and for the code; `out` holds the route then. The tables' have room for
// 1,024 nodes of ten numbers, 1,024 scopes of three, and 1,024 bytes of source and of names: the most that are read.
#[tactic(auto, using(crate::proofs::AnswerLaws::answer_unasked, crate::proofs::AnswerLaws::entries_unasked, crate::proofs::AnswerLaws::answer_asked, crate::proofs::AnswerLaws::entries_asked))]
fn respond_by(
    input: &[u8],
    nodes: &mut [u32],
    scopes: &mut [u32],
    source: &mut [u8],
    names: &mut [u8],
    answers: &mut [u32],
    code: &mut [u32],
    out: &mut [u32],
) -> Result<Route, Refused>
    requires nodes_len { (length nodes.old ≡ 10240) × (length scopes.old ≡ 3072) × (length source.old ≡ 1024) × (length names.old ≡ 1024) }
    requires answers_len { (length answers.old ≡ answers_room) × (length code.old ≡ code_room) }
    ensures { (result ≡ routed_of input.now (length out.old)) × (out.new ≡ entries_of input.now out.old) }
{
    let read = line_input::read_route(input, nodes, scopes, source, names, answers);
    match read {
        Err(unread) => Err(Refused::At(Refusal::Unread, unread.line)),
        Ok(asked) => {
            let tables = asked.tables;
            let rule = Rule {
                source_type: tables.kind,
                async_bodies: ASYNC_BODIES_OFF,
                nodes: line_print::front(nodes, tables.nodes),
                scopes: line_print::front(scopes, tables.scopes),
                source: line_print::front(source, tables.source),
                names: line_print::front(names, tables.names),
            };
            let given = line_print::front(answers, asked.answers);
            call_routes::route(&rule, asked.unit, given, code, out)
        }
    }
}

// The same with slices of its own.
fn respond(input: &[u8], out: &mut [u32]) -> Result<Route, Refused>
    ensures { (result ≡ routed_of input.now (length out.old)) × (out.new ≡ entries_of input.now out.old) }
{
    let mut nodes = [0u32; 10240];
    let mut scopes = [0u32; 3072];
    let mut source = [0u8; 1024];
    let mut names = [0u8; 1024];
    let mut answers = [0u32; 1024];
    let mut code = [0u32; CODE];
    respond_by(
        input,
        &mut nodes,
        &mut scopes,
        &mut source,
        &mut names,
        &mut answers,
        &mut code,
        out,
    )
}

// Prints the line of an entry by way of `text`.
fn print_entry<O: Write>(writer: &mut O, node: u32, text: &mut [u8]) -> io::Result<()>
    requires { length text.old ≡ line_room }
    ensures { OnOk result (Appends (O.contents writer.old) (O.contents writer.new) (entry_line node)) }
{
    let end = entry_line(node, text);
    writer.write_all(line_print::front(text, end))
}

#[tactic(auto, using(crate::proofs::AnswerLaws::lines_appended), unfolding(crate::specs::Answer::lines_for))]
fn print_entries<O: Write>(writer: &mut O, entries: &[u32], text: &mut [u8]) -> io::Result<()>
    requires { length text.old ≡ line_room }
    ensures { OnOk result (Appends (O.contents writer.old) (O.contents writer.new) (lines_for entries.now)) }
{
    for entry in entries {
        print_entry(writer, *entry, text)?;
    }
    Ok(())
}

// How many entries there are to print.
fn listed(answer: Result<Route, Refused>) -> usize
    ensures { result ≡ listed answer }
{
    match answer {
        Ok(route) => route.entries,
        Err(_) => 0,
    }
}

// Prints the entries of a route, which stand at the front of `out`.
fn print_route<O: Write>(
    writer: &mut O,
    answer: Result<Route, Refused>,
    out: &[u32],
    text: &mut [u8],
) -> io::Result<()>
    requires { length text.old ≡ line_room }
    ensures { OnOk result (Appends (O.contents writer.old) (O.contents writer.new) (lines_for (take (listed answer) out.now))) }
{
    print_entries(writer, line_print::front(out, listed(answer)), text)
}

// Prints an answer: the lines of the functions above.
fn print_routed<O: Write>(
    writer: &mut O,
    answer: Result<Route, Refused>,
    out: &[u32],
    text: &mut [u8],
) -> io::Result<()>
    requires { length text.old ≡ line_room }
    ensures { OnOk result (Appends (O.contents writer.old) (O.contents writer.new) (text_of answer out.now)) }
{
    print_route(writer, answer, out, text)?;
    let end = last_line(answer, text);
    writer.write_all(line_print::front(text, end))
}

// Reads, and prints the route of what was read: where the reader's and the writer's bytes are known, what is printed for all that the
// reader has, also where that is more than `ENOUGH` bytes.
fn run<I: Read, O: Write>(
    reader: &mut I,
    writer: &mut O,
    input: &mut [u8; ENOUGH],
    out: &mut [u32; ROUTE],
    text: &mut [u8; LINE],
) -> io::Result<()>
    ensures { OnOk result (IfSome (I.remaining reader.old) (λ bytes. Appends (O.contents writer.old) (O.contents writer.new) (printed bytes out.old))) }
{
    let got = line_stream::read_full(reader, input)?;
    let answer = respond(line_print::front(input, got), out);
    print_routed(writer, answer, out, text)
}

fn main(rt: HostRuntime) -> io::Result<()> {
    let mut input = [0u8; ENOUGH];
    let mut out = [0u32; ROUTE];
    let mut text = [0u8; LINE];
    run(
        &mut rt.stdin(),
        &mut rt.stdout(),
        &mut input,
        &mut out,
        &mut text,
    )
}
