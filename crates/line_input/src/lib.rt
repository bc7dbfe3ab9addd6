// The lines of rulecheck's and ruleroute's input, read into lent slices.
#![tactic(auto)]

ghost use Rattle.std.specs.Prelude.{◌≡◌, ◌+◌, ◌*◌, ◌^◌, ◌<◌, ◌≤◌, min, true, length};
ghost use Rattle.base_common.specs.Wrote.{put};
ghost use Rattle.line_fields.specs.Split.{lines_of};
ghost use Rattle.line_input.specs.Route.{is_a, unit_in, two_of, two_answers, asked_by, read_route};
ghost use Rattle.line_forms.specs.Forms.{rest, numbers_of, is_numbers, is_n, name_of, is_x, source_of};
ghost use Rattle.line_input.specs.Format.{unread, node_of, scope_lines, node_lines, scopes_of, room_of, read_behind, head_of, read_input, front, Given, Gives, NodesRead};

use line_fields::COMMA;
use line_forms::{LONGEST, MOST, NODE_NUMBERS};

// So many bytes of an input are read at most: 2,052 lines (J, 1,024 scopes, 1,024 nodes, X, U, A) of up to 2,100 bytes, each with its
// end. `proofs/Whole` proves that what follows them changes nothing.
pub const ENOUGH: usize = (2 * MOST + 4) * (LONGEST + 1);

// So many numbers a node takes in its table, and so many a scope.
const NODE: usize = 10;

const SCOPE: usize = 3;

// The tables that are read: the source type, and how much of each slice is used.
#[derive(Clone, Copy)]
pub struct Tables {
    pub kind: u32,
    pub nodes: usize,
    pub scopes: usize,
    pub source: usize,
    pub names: usize,
}

// The same with the unit and the number of answers.
#[derive(Clone, Copy)]
pub struct Asked {
    pub tables: Tables,
    pub unit: u32,
    pub answers: usize,
}

// A line, from 1, that can't be read or is missing.
#[derive(Clone, Copy)]
pub struct Unread {
    pub line: u32,
}

// What the two lines behind the X line say.
#[derive(Clone, Copy)]
struct Two {
    unit: u32,
    answers: usize,
}

// Which of the two can't be read.
#[derive(Clone, Copy)]
enum Missing {
    NoUnit,
    NoAnswers,
}

// What the J line says.
#[derive(Clone, Copy)]
struct Head {
    kind: u32,
    nodes: usize,
    scopes: usize,
}

fn at_line(line: usize) -> Unread
    requires { line < 2 ^ 32 }
    ensures { result ≡ unread line }
{
    Unread { line: line as u32 }
}

// A node's ten numbers: eight of its line, where its name starts, and how long that is.
fn write_node(l: &[u8], nodes: &mut [u32], w: usize, start: u32, len: u32)
    requires { (is_n l.now ≡ true) × (w + 10 ≤ length nodes.old) × (len ≡ length (name_of l.now)) }
    ensures { nodes.new ≡ put nodes.old w (node_of start l.now) }
{
    line_reader::write_numbers(line_fields::onward(l, COMMA), NODE_NUMBERS, nodes, w);
    nodes[w + NODE_NUMBERS] = start;
    nodes[w + NODE_NUMBERS + 1] = len;
}

// Reads n scope lines, or those before the first that can't be read. Says how many.
#[tactic(auto, using(crate::proofs::ReadLaws::scoping_done, crate::proofs::ReadLaws::scopes_bad, crate::proofs::ReadLaws::scopes_none, line_forms::proofs::FormLaws::numbers_told))]
fn read_scopes(b: &[u8], n: usize, scopes: &mut [u32]) -> usize
    requires { n * 3 ≤ length scopes.old }
    ensures { (result ≡ length (scope_lines n (lines_of b.now))) × (scopes.new ≡ front (scopes_of (scope_lines n (lines_of b.now))) scopes.old) }
{
    let mut t = b;
    for i in 0..n {
        let l = line_fields::line(t);
        if !line_forms::is_numbers(l, b'S', SCOPE) {
            return i;
        }
        line_reader::write_numbers(line_fields::onward(l, COMMA), SCOPE, scopes, i * SCOPE);
        t = line_fields::after(t);
    }
    n
}

// How many lines were read, and how many bytes their names have.
#[derive(Clone, Copy)]
struct NodeLines {
    lines: usize,
    bytes: usize,
}

// Reads n node lines, or those before the first that can't be read. Names have 1,024 bytes at most, also where their slice is longer.
fn read_nodes(b: &[u8], n: usize, nodes: &mut [u32], names: &mut [u8]) -> NodeLines
    requires { n * 10 ≤ length nodes.old }
    ensures { NodesRead (node_lines (min 1024 (length names.old)) n (lines_of b.now)) nodes.old names.old result.lines result.bytes nodes.new names.new }
{
    let room = MOST.min(names.len());
    let mut t = b;
    let mut bytes = 0;
    for lines in 0..n {
        let l = line_fields::line(t);
        if !line_forms::is_node(l) {
            return NodeLines { lines, bytes };
        }
        let text = line_forms::name(l);
        let len = text.len();
        if room - bytes < len {
            return NodeLines { lines, bytes };
        }
        write_node(l, nodes, lines * NODE, bytes as u32, len as u32);
        table_put::copy(text, names, bytes);
        t = line_fields::after(t);
        bytes += len;
    }
    NodeLines { lines: n, bytes }
}

#[tactic(auto, using(crate::proofs::InputLaws::source_told))]
fn write_source(l: &[u8], source: &mut [u8]) -> usize
    requires { is_x (length source.old) l.now ≡ true }
    ensures { (result ≡ length (source_of l.now)) × (source.new ≡ front (source_of l.now) source.old) }
{
    line_digits::write_bytes(line_fields::field(line_fields::onward(l, COMMA)), source)
}

// The J line: at most 1,024 nodes and scopes, for which there is room.
#[tactic(auto, using(crate::proofs::InputLaws::head_numbers, line_forms::proofs::FormLaws::numbers_told))]
fn read_head(l: &[u8], nodes: usize, scopes: usize) -> Option<Head>
    ensures { result ≡ head_of nodes scopes l.now }
{
    if !line_forms::is_numbers(l, b'J', 3) {
        return None;
    }
    let mut a = [0u32; 3];
    line_reader::write_numbers(line_fields::onward(l, COMMA), 3, &mut a, 0);
    let n = a[1] as usize;
    let s = a[2] as usize;
    if !line_forms::fits(n, NODE, nodes) || !line_forms::fits(s, SCOPE, scopes) {
        return None;
    }
    Some(Head {
        kind: a[0],
        nodes: n,
        scopes: s,
    })
}

// The lines behind the J line, which says at most 1,024 nodes and scopes; there is room for ten numbers a node and three a scope.
#[tactic(auto, using(crate::proofs::InputLaws::gives_stopped, crate::proofs::InputLaws::gives_tables, crate::proofs::InputLaws::behind_nodes, crate::proofs::InputLaws::behind_source, crate::proofs::InputLaws::behind_all, crate::proofs::ReadLaws::scopes_sized, crate::proofs::ReadLaws::nodes_sized))]
fn read_behind(
    b: &[u8],
    head: Head,
    nodes: &mut [u32],
    scopes: &mut [u32],
    source: &mut [u8],
    names: &mut [u8],
) -> Result<Tables, Unread>
    requires { (head.nodes ≤ 1024) × (head.scopes ≤ 1024) × (head.nodes * 10 ≤ length nodes.old) × (head.scopes * 3 ≤ length scopes.old) }
    ensures { Gives (read_behind (room_of nodes.old scopes.old source.old names.old) head.kind head.nodes head.scopes (lines_of b.now)) result nodes.old scopes.old source.old names.old nodes.new scopes.new source.new names.new }
{
    let n = head.nodes;
    let s = head.scopes;
    let got = read_scopes(b, s, scopes);
    if got != s {
        return Err(at_line(2 + got));
    }
    let rest = line_fields::skip_lines(b, s);
    let named = read_nodes(rest, n, nodes, names);
    let lines = named.lines;
    if lines != n {
        return Err(at_line(2 + s + lines));
    }
    let x = line_fields::line(line_fields::skip_lines(rest, n));
    if !line_forms::is_source(x, source.len()) {
        return Err(at_line(2 + s + n));
    }
    let size = write_source(x, source);
    Ok(Tables {
        kind: head.kind,
        nodes: n * NODE,
        scopes: s * SCOPE,
        source: size,
        names: named.bytes,
    })
}

// All of it. A line that can't be read or is missing gives its number; what the lines before it gave is written.
// The four slices are lent one by one, as everywhere: a struct of them is no plainer, since each has its own clause, before and after.
#[tactic(auto, using(crate::proofs::InputLaws::head_some_lem, crate::proofs::InputLaws::head_room))]
pub fn read(
    input: &[u8],
    nodes: &mut [u32],
    scopes: &mut [u32],
    source: &mut [u8],
    names: &mut [u8],
) -> Result<Tables, Unread>
    ensures answer { result ≡ (read_input (room_of nodes.old scopes.old source.old names.old) input.now).answer }
    ensures tables { Given (read_input (room_of nodes.old scopes.old source.old names.old) input.now) nodes.old scopes.old source.old names.old nodes.new scopes.new source.new names.new }
{
    let head = read_head(line_fields::line(input), nodes.len(), scopes.len()).ok_or(Unread {
        line: 1,
    })?;
    read_behind(
        line_fields::after(input),
        head,
        nodes,
        scopes,
        source,
        names,
    )
}

#[tactic(auto, using(crate::proofs::RouteLaws::answers_letter, crate::proofs::RouteLaws::answers_bad, crate::proofs::RouteLaws::answers_is))]
fn is_answers(l: &[u8], room: usize) -> bool
    ensures { result ≡ is_a room l.now }
{
    if !line_forms::lettered(l, b'A') {
        return false;
    }
    let tail = line_fields::onward(l, COMMA);
    let n = line_fields::count(tail);
    line_fields::are_numbers(tail, n) && line_forms::fits(n, 1, room)
}

#[tactic(auto, using(crate::proofs::RouteLaws::unit_told))]
fn unit(l: &[u8]) -> u32
    requires { is_numbers 85 1 l.now ≡ true }
    ensures { result ≡ unit_in l.now }
{
    line_digits::value(line_fields::field(line_fields::onward(l, COMMA)))
}

#[tactic(auto, using(crate::proofs::RouteLaws::answers_told, crate::proofs::RouteLaws::answers_put, line_forms::proofs::FormLaws::rest_tail))]
fn write_answers(l: &[u8], answers: &mut [u32]) -> usize
    requires { is_a (length answers.old) l.now ≡ true }
    ensures { (result ≡ length (rest l.now)) × (answers.new ≡ front (numbers_of (rest l.now)) answers.old) }
{
    let tail = line_fields::onward(l, COMMA);
    let n = line_fields::count(tail);
    line_reader::write_numbers(tail, n, answers, 0);
    n
}

fn read_two(b: &[u8], answers: &mut [u32]) -> Result<Two, Missing>
    ensures { (result ≡ two_of (length answers.old) (lines_of b.now)) × (answers.new ≡ front (two_answers (length answers.old) (lines_of b.now)) answers.old) }
{
    let u = line_fields::line(b);
    if !line_forms::is_numbers(u, b'U', 1) {
        return Err(Missing::NoUnit);
    }
    let a = line_fields::line(line_fields::after(b));
    if !is_answers(a, answers.len()) {
        return Err(Missing::NoAnswers);
    }
    Ok(Two {
        unit: unit(u),
        answers: write_answers(a, answers),
    })
}

// The U and A lines, behind tables that were read: ten numbers for each of up to 1,024 nodes, three for each of up to 1,024 scopes.
fn read_asked(input: &[u8], tables: Tables, answers: &mut [u32]) -> Result<Asked, Unread>
    requires { (tables.nodes ≤ 10240) × (tables.scopes ≤ 3072) }
    ensures { (result ≡ (asked_by (length answers.old) (lines_of input.now) (Ok tables)).answer) × (answers.new ≡ front (asked_by (length answers.old) (lines_of input.now) (Ok tables)).answers answers.old) }
{
    let k = 2 + tables.scopes / SCOPE + tables.nodes / NODE;
    match read_two(line_fields::skip_lines(input, k), answers) {
        Ok(two) => Ok(Asked {
            tables,
            unit: two.unit,
            answers: two.answers,
        }),
        Err(Missing::NoUnit) => Err(at_line(k + 1)),
        Err(Missing::NoAnswers) => Err(at_line(k + 2)),
    }
}

// All that ruleroute reads: rulecheck's lines, the unit and the answers.
#[tactic(auto, using(crate::proofs::RouteLaws::tables_small, crate::proofs::RouteLaws::asked_none))]
pub fn read_route(
    input: &[u8],
    nodes: &mut [u32],
    scopes: &mut [u32],
    source: &mut [u8],
    names: &mut [u8],
    answers: &mut [u32],
) -> Result<Asked, Unread>
    ensures answer { result ≡ (read_route (room_of nodes.old scopes.old source.old names.old) (length answers.old) input.now).answer }
    ensures answers { answers.new ≡ front (read_route (room_of nodes.old scopes.old source.old names.old) (length answers.old) input.now).answers answers.old }
    ensures tables { Given (read_input (room_of nodes.old scopes.old source.old names.old) input.now) nodes.old scopes.old source.old names.old nodes.new scopes.new source.new names.new }
{
    let tables = read(input, nodes, scopes, source, names)?;
    read_asked(input, tables, answers)
}
