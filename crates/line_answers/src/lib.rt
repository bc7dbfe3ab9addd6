// What a check's answer prints: the findings' lines and the line of their count, or the refusal's line.
#![tactic(auto)]

ghost use Rattle.std.specs.Prelude.{◌≡◌, ◌+◌, ◌*◌, ◌^◌, ◌≤◌, ◌<◌, length, take, drop};
ghost use Rattle.base_common.specs.Wrote.{put};
ghost use Rattle.line_print.specs.Print.{line_of};
ghost use Rattle.line_answers.specs.Answer.{finding_lines, findings_text, refusal_line, refusal_text, answer_text, Counted, findings_room, text_room};

use refusal_verdict::Refused;

// Room for 8,192 findings, and for the text of so many.
pub const FINDINGS_ROOM: usize = 7 * 8192;

pub const TEXT_ROOM: usize = 80 * 8192;

// Writes the line of the finding that starts at `at`, from place w on. Says where it ends.
fn put_finding(findings: &[u32], at: usize, out: &mut [u8], w: usize) -> usize
    requires at_in_bounds { at + 7 ≤ length findings.now }
    requires findings_in_bounds { w + length (line_of 70 (take 7 (drop at findings.now))) ≤ length out.old }
    ensures { (result ≡ w + length (line_of 70 (take 7 (drop at findings.now)))) × (out.new ≡ put out.old w (line_of 70 (take 7 (drop at findings.now)))) }
{
    let end = at + 7;
    line_print::line(b'F', &findings[at..end], out, w)
}

// Writes the lines of `count` findings. Says where they end.
#[tactic(auto, using(crate::proofs::AnswerLaws::lines_start))]
fn put_findings(findings: &[u32], count: usize, out: &mut [u8]) -> usize
    requires count_in_bounds { 7 * count ≤ length findings.now }
    requires findings_in_bounds { length (finding_lines count findings.now) ≤ length out.old }
    ensures { (result ≡ length (finding_lines count findings.now)) × (out.new ≡ put out.old 0 (finding_lines count findings.now)) }
{
    let mut at: usize = 0;
    for i in 0..count {
        at = put_finding(findings, i * 7, out, at);
    }
    at
}

// The same with the line of their count.
#[tactic(auto, using(crate::proofs::AnswerLaws::count_room))]
fn findings_text(findings: &[u32], count: usize, out: &mut [u8]) -> usize
    requires count_in_bounds { (7 * count ≤ length findings.now) × (count < 2 ^ 32) }
    requires findings_in_bounds { length (findings_text count findings.now) ≤ length out.old }
    ensures { (result ≡ length (findings_text count findings.now)) × (out.new ≡ put out.old 0 (findings_text count findings.now)) }
{
    let at = put_findings(findings, count, out);
    let total = count as u32;
    let e = [total];
    line_print::line(b'E', &e, out, at)
}

// Writes the line of a refusal's number and place: up to 24 bytes, with two numbers of up to ten digits. Says where it ends.
#[tactic(auto, using(line_print::proofs::PrintLaws::line_numbers, crate::proofs::AnswerLaws::numbers_two))]
pub fn refusal_line(number: u32, place: u32, out: &mut [u8]) -> usize
    requires { 24 ≤ length out.old }
    ensures { (result ≡ length (refusal_line «number» «place»)) × (out.new ≡ put out.old 0 (refusal_line «number» «place»)) }
{
    let r = [number, place];
    line_print::line(b'R', &r, out, 0)
}

// Writes a refusal's line. Says where it ends.
pub fn refusal_text(refused: Refused, out: &mut [u8]) -> usize
    requires { 24 ≤ length out.old }
    ensures { (result ≡ length (refusal_text refused)) × (out.new ≡ put out.old 0 (refusal_text refused)) }
{
    refusal_line(refused.number(), refused.place(), out)
}

// Writes what an answer of `check` prints, with the findings that it wrote. Says where that ends.
#[tactic(auto, using(crate::proofs::AnswerLaws::length_findings, crate::proofs::AnswerLaws::counted_findings, crate::proofs::AnswerLaws::text_findings, crate::proofs::AnswerLaws::text_refused))]
pub fn answer_text(answer: Result<usize, Refused>, findings: &[u32], out: &mut [u8]) -> usize
    requires counted { Counted answer (length findings.now) }
    requires findings_len_bound { (length findings.now ≤ findings_room) × (text_room ≤ length out.old) }
    ensures { (result ≡ length (answer_text answer findings.now)) × (out.new ≡ put out.old 0 (answer_text answer findings.now)) }
{
    match answer {
        Ok(count) => findings_text(findings, count, out),
        Err(refused) => refusal_text(refused, out),
    }
}
