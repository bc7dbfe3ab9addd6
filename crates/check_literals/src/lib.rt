// Strings and numbers as they stand in the source: escapes and leading zeros that strict code may not have.
#![tactic(auto)]

ghost use Rattle.std.specs.Prelude.{◌≡◌, ◌+◌, ◌<◌, ◌≤◌, length, get_or, drop};
ghost use Rattle.table_records.specs.Table.{count, span_start_of, span_end_of};
ghost use Rattle.table_records.specs.Facts.{Scoped, Sourced};
ghost use Rattle.check_literals.specs.Escapes.{digit_next, escape_of, bad_escape};
ghost use Rattle.check_literals.specs.Literals.{source_text, leading_zero, error_escape, check_string_literal, check_number_literal};

use check_diagnostics::{Finding, codes, contexts};
use table_records::nodes::Nodes;
use table_records::{NodeId, extras, kinds};

// An escape that strict code may not have, with the offset of its backslash.
#[derive(Clone, Copy)]
pub enum Escape {
    LegacyOctal(usize),
    NonOctalDecimal(usize),
}

// Whether a digit stands at i.
fn digit_at(raw: &[u8], i: usize) -> bool
    ensures { result ≡ digit_next (drop i raw.now) }
{
    i < raw.len() && matches!(raw[i], b'0'..=b'9')
}

// What strict code may not have of the escape whose backslash stands at i.
#[tactic(auto, unfolding(crate::specs::Escapes::escape_of))]
fn escape_at(raw: &[u8], i: usize) -> Option<Escape>
    requires { i + 1 < length raw.now }
    ensures { result ≡ escape_of i (get_or raw.now (i + 1) 0) (drop (i + 2) raw.now) }
{
    match raw[i + 1] {
        b'0' if digit_at(raw, i + 2) => Some(Escape::LegacyOctal(i)),
        b'1'..=b'7' => Some(Escape::LegacyOctal(i)),
        b'8'..=b'9' => Some(Escape::NonOctalDecimal(i)),
        _ => None,
    }
}

// The first bad escape: one scan, in which an escape is passed over as a whole.
#[tactic(auto, using(crate::proofs::EscapeLaws::scan_plain, crate::proofs::EscapeLaws::scan_stop, crate::proofs::EscapeLaws::scan_on, crate::proofs::EscapeLaws::scan_end))]
pub fn first_bad_escape(raw: &[u8]) -> Option<Escape>
    ensures { result ≡ bad_escape 0 raw.now }
{
    let len = raw.len();
    let mut i: usize = 0;
    // Not a range: i goes on by a byte, or by the two of an escape.
    while i + 1 < len {
        if raw[i] != b'\\' {
            i += 1;
            continue;
        }
        let Some(escape) = escape_at(raw, i) else {
            i += 2;
            continue;
        };
        return Some(escape);
    }
    None
}

// The source bytes of a node.
#[tactic(auto, unfolding(crate::specs::Literals::source_text))]
fn source_text<'a>(nodes: &[u32], source: &'a [u8], n: NodeId) -> &'a [u8]
    requires sourced { Sourced nodes.now source.now }
    requires n_bound { n.0 < count nodes.now }
    ensures { result.now ≡ source_text nodes.now source.now n.0 }
{
    let start = table_records::span_start(nodes, n) as usize;
    let end = table_records::span_end(nodes, n) as usize;
    &source[start..end]
}

// A finding at the string n whose second span is the backslash at offset i of its text and the byte after it.
fn error_escape(nodes: &[u32], code: u32, n: NodeId, i: usize) -> Option<Finding>
    requires n_bound { n.0 < count nodes.now }
    requires i_bound { span_start_of nodes.now n.0 + i + 2 ≤ span_end_of nodes.now n.0 }
    ensures { result ≡ error_escape nodes.now code n.0 i }
{
    let start = table_records::span_start(nodes, n);
    let end = table_records::span_end(nodes, n);
    let backslash = start + i as u32;
    Some(Finding {
        code,
        node: n,
        start,
        end,
        start2: backslash,
        end2: backslash + 2,
        context: contexts::NONE,
    })
}

// A string of strict code has no legacy escape.
// > EscapeSequence :: LegacyOctalEscapeSequence
// > It is a Syntax Error if IsStrict(this production) is true.
#[tactic(auto, using(crate::proofs::EscapeLaws::legacy_spanned, crate::proofs::EscapeLaws::decimal_spanned), unfolding(crate::specs::Literals::check_string_literal))]
pub fn check_string_literal(
    nodes: &Nodes,
    scopes: &[u32],
    source: &[u8],
    n: NodeId,
) -> Option<Finding>
    requires scoped { Scoped nodes.now scopes.now }
    requires sourced { Sourced nodes.now source.now }
    requires n_bound { n.0 < count nodes.now }
    ensures { result ≡ check_string_literal nodes.now scopes.now source.now n.0 }
{
    let numbers = nodes.numbers;
    if !table_scoping::strict_mode(numbers, scopes, n) {
        return None;
    }
    if table_ancestry::parent_kind(nodes, n) == kinds::JSX_ATTRIBUTE {
        return None;
    }
    let raw = source_text(numbers, source, n);
    // every escape is longer than what it stands for, and the quotes are two bytes
    if raw.len() == table_records::extra(numbers, n) as usize + 2 {
        return None;
    }
    match first_bad_escape(raw) {
        Some(Escape::LegacyOctal(i)) => error_escape(numbers, codes::LEGACY_OCTAL, n, i),
        Some(Escape::NonOctalDecimal(i)) => error_escape(
            numbers,
            codes::NON_OCTAL_DECIMAL_ESCAPE_SEQUENCE,
            n,
            i,
        ),
        None => None,
    }
}

// Whether a number begins with a 0 and another digit.
fn leading_zero(raw: &[u8]) -> bool
    ensures { result ≡ leading_zero raw.now }
{
    raw.len() >= 2 && raw[0] == b'0' && digit_at(raw, 1)
}

// A number of strict code has no leading zero, be it octal or decimal.
// > NumericLiteral :: LegacyOctalIntegerLiteral
// > It is a Syntax Error if IsStrict(this production) is true.
#[tactic(auto, unfolding(crate::specs::Literals::check_number_literal))]
pub fn check_number_literal(
    nodes: &[u32],
    scopes: &[u32],
    source: &[u8],
    n: NodeId,
) -> Option<Finding>
    requires scoped { Scoped nodes.now scopes.now }
    requires sourced { Sourced nodes.now source.now }
    requires n_bound { n.0 < count nodes.now }
    ensures { result ≡ check_number_literal nodes.now scopes.now source.now n.0 }
{
    if !leading_zero(source_text(nodes, source, n)) {
        return None;
    }
    if !table_scoping::strict_mode(nodes, scopes, n) {
        return None;
    }
    let code = match table_records::extra(nodes, n) {
        extras::OCTAL => codes::LEGACY_OCTAL,
        extras::DECIMAL | extras::FLOAT => codes::LEADING_ZERO_DECIMAL,
        _ => return None,
    };
    check_diagnostics::error_at(nodes, code, n, n, contexts::NONE)
}
