// The public calls `route_stop`, `route_resume` and `route_resume_stop`: the code call's refusals with 16 before 11 and 17 behind it, 12, or a route that
// begins at its start or at a mark and may be stopped.
#![tactic(auto)]

ghost use Rattle.std.specs.Prelude.{◌≡◌, length};
ghost use Rattle.check_dispatch.specs.Lent.{rule_of};
ghost use Rattle.refusal_state.specs.Targets.{refused_or};
ghost use Rattle.code_flat.specs.Code.{unit as unitCode};
ghost use Rattle.code_tree.specs.Statements.{unit_of};
ghost use Rattle.code_assemble.specs.Assembled.{assembled_slice};
ghost use Rattle.code_assemble.specs.Ready.{Ready};
ghost use Rattle.route_marks.specs.Taken.{CanBegin, Tested, stop_of, gone_on};
ghost use Rattle.route_marks.specs.declared.Begin.TheVariants as begins;
ghost use Rattle.call_routes.specs.Calls.{code_refusal};
ghost use Rattle.call_marks.specs.Marked.{code_of, to_refusal, from_refusal, place_refusal, sixteen_of, seventeen_of, mark_answer, mark_code, mark_slice, marks_left};
ghost use Rattle.call_marks.specs.Made.{shown_or, list_or, marks_or, made_answer, made_slice, made_marks, section_answer, section_code, section_slice, section_marks};

use check_dispatch::Rule;
use refusal_verdict::{Refusal, Refused};
use route_marks::{Begin, MARKS, Marks, Section};
use route_viewer::Route;
use table_records::NodeId;

// 16 of a mark that is to be set.
fn to_refusal(to: u32) -> Result<(), Refused>
    ensures { result ≡ to_refusal to }
{
    if to < MARKS {
        return Ok(());
    }
    Err(Refused::At(Refusal::Mark, to))
}

// 16, of the mark taken up first.
fn mark_refusal(marks: &Marks, section: &Section) -> Result<(), Refused>
    ensures { result ≡ sixteen_of marks.now section.now.begin section.now.to }
{
    match section.begin {
        Begin::Start => to_refusal(section.to),
        Begin::Mark(mark) => {
            if route_marks::is_set(marks, mark) {
                return to_refusal(section.to);
            }
            Err(Refused::At(Refusal::Mark, mark))
        }
    }
}

// 17.
#[tactic(auto, using(route_marks::proofs::MarksLaws::set_facts))]
fn place_refusal(marks: &Marks, begin: Begin, code: &[u32]) -> Result<(), Refused>
    requires { CanBegin marks.now begin }
    ensures { result ≡ seventeen_of marks.now code.now begin }
{
    match begin {
        Begin::Start => Ok(()),
        Begin::Mark(mark) => {
            if route_marks::begins(code, route_marks::place_at(marks, mark)) {
                return Ok(());
            }
            Err(Refused::At(Refusal::MarkPlace, mark))
        }
    }
}

// The section on the unit's code, where 17 does not refuse it.
#[tactic(auto, using(refusal_verdict::proofs::VerdictLaws::handed))]
fn shown(
    marks: &mut Marks,
    section: &Section,
    code: &[u32],
    out: &mut [u32],
) -> Result<Route, Refused>
    requires { Tested marks.old section.now }
    ensures answer { result ≡ shown_or code.now marks.old section.now (length out.old) }
    ensures list { out.new ≡ list_or code.now marks.old section.now out.old }
    ensures marks { marks.new ≡ marks_or code.now marks.old section.now (length out.old) }
{
    place_refusal(marks, section.begin, code)?;
    route_marks::show(marks, section, code, out)
}

// Makes the code of a unit that is not refused, and shows the section, where the code slice has room.
#[tactic(auto, using(crate::proofs::MarkedLaws::made_short, crate::proofs::MarkedLaws::list_short, crate::proofs::MarkedLaws::marks_short, call_routes::proofs::CallsLaws::over_length, call_routes::proofs::CallsLaws::told_code, call_routes::proofs::CallsLaws::told_short, call_routes::proofs::CallsLaws::slice_over, refusal_verdict::proofs::VerdictLaws::handed))]
fn made(
    nodes: &[u32],
    names: &[u8],
    u: NodeId,
    marks: &mut Marks,
    section: &Section,
    code: &mut [u32],
    out: &mut [u32],
) -> Result<Route, Refused>
    requires ready { Ready nodes.now names.now u.0 }
    requires tested { Tested marks.old section.now }
    ensures answer { result ≡ made_answer (unitCode (unit_of nodes.now names.now u.0)) marks.old section.now (length code.old) (length out.old) }
    ensures code { code.new ≡ assembled_slice (unitCode (unit_of nodes.now names.now u.0)) code.old }
    ensures list { out.new ≡ made_slice (unitCode (unit_of nodes.now names.now u.0)) marks.old section.now (length code.old) out.old }
    ensures marks { marks.new ≡ made_marks (unitCode (unit_of nodes.now names.now u.0)) marks.old section.now (length code.old) (length out.old) }
{
    let n = code_assemble::code_unit(nodes, names, u, code)?;
    shown(marks, section, call_routes::front(code, n), out)
}

// The refusals before 11.
#[tactic(auto, using(refusal_verdict::proofs::VerdictLaws::handed))]
fn refusal(rule: &Rule, unit: u32, marks: &Marks, section: &Section) -> Result<(), Refused>
    ensures { result ≡ refused_or (code_refusal (rule_of rule.now) unit) (sixteen_of marks.now section.now.begin section.now.to) }
{
    call_routes::refusal(rule, unit)?;
    mark_refusal(marks, section)
}

// What the three calls have in common: any section of a unit's route.
#[tactic(auto, using(crate::proofs::MarkedLaws::refused_answer, crate::proofs::MarkedLaws::refused_code, crate::proofs::MarkedLaws::refused_slice, crate::proofs::MarkedLaws::refused_marks, crate::proofs::MarkedLaws::unit_ready, crate::proofs::MarkedLaws::section_tested, refusal_verdict::proofs::VerdictLaws::handed))]
fn marked(
    rule: &Rule,
    unit: u32,
    section: &Section,
    marks: &mut Marks,
    code: &mut [u32],
    out: &mut [u32],
) -> Result<Route, Refused>
    ensures answer { result ≡ section_answer (rule_of rule.now) unit marks.old section.now (length code.old) (length out.old) }
    ensures code { code.new ≡ section_code (rule_of rule.now) unit marks.old section.now code.old }
    ensures list { out.new ≡ section_slice (rule_of rule.now) unit marks.old section.now (length code.old) out.old }
    ensures marks { marks.new ≡ section_marks (rule_of rule.now) unit marks.old section.now (length code.old) (length out.old) }
{
    refusal(rule, unit, marks, section)?;
    made(
        rule.nodes,
        rule.names,
        NodeId(unit),
        marks,
        section,
        code,
        out,
    )
}

// From the start, stopped under `mark` behind `stop` answers.
// This call and the next two take one by one what a `Section` holds, as the C interface has it.
pub fn route_stop(
    rule: &Rule,
    unit: u32,
    answers: &[u32],
    mark: u32,
    stop: u64,
    marks: &mut Marks,
    code: &mut [u32],
    out: &mut [u32],
) -> Result<Route, Refused>
    ensures answer { result ≡ mark_answer (rule_of rule.now) unit (to_refusal mark) (seventeen_of marks.old (code_of (rule_of rule.now) unit) begins.Start) (stop_of marks.old (code_of (rule_of rule.now) unit) answers.now begins.Start stop) (length code.old) (length out.old) }
    ensures code { code.new ≡ mark_code (rule_of rule.now) unit (to_refusal mark) code.old }
    ensures list { out.new ≡ mark_slice (rule_of rule.now) unit (to_refusal mark) (seventeen_of marks.old (code_of (rule_of rule.now) unit) begins.Start) (stop_of marks.old (code_of (rule_of rule.now) unit) answers.now begins.Start stop) (length code.old) out.old }
    ensures marks { marks.new ≡ marks_left (rule_of rule.now) unit (to_refusal mark) (seventeen_of marks.old (code_of (rule_of rule.now) unit) begins.Start) (stop_of marks.old (code_of (rule_of rule.now) unit) answers.now begins.Start stop) (length code.old) (length out.old) marks.old mark }
{
    let section = Section {
        begin: Begin::Start,
        answers,
        to: mark,
        stop,
    };
    marked(rule, unit, &section, marks, code, out)
}

// Taken up at `mark`, and not stopped again: more answers than there are never stop it.
#[tactic(auto, using(crate::proofs::MarkedLaws::sixteen_same, crate::proofs::MarkedLaws::never_set, route_marks::proofs::TakenLaws::resumed_is))]
pub fn route_resume(
    rule: &Rule,
    unit: u32,
    mark: u32,
    answers: &[u32],
    marks: &mut Marks,
    code: &mut [u32],
    out: &mut [u32],
) -> Result<Route, Refused>
    ensures answer { result ≡ mark_answer (rule_of rule.now) unit (from_refusal marks.old mark) (place_refusal marks.old (code_of (rule_of rule.now) unit) mark) (gone_on marks.old (code_of (rule_of rule.now) unit) answers.now mark) (length code.old) (length out.old) }
    ensures code { code.new ≡ mark_code (rule_of rule.now) unit (from_refusal marks.old mark) code.old }
    ensures list { out.new ≡ mark_slice (rule_of rule.now) unit (from_refusal marks.old mark) (place_refusal marks.old (code_of (rule_of rule.now) unit) mark) (gone_on marks.old (code_of (rule_of rule.now) unit) answers.now mark) (length code.old) out.old }
    ensures marks { marks.new ≡ marks.old }
{
    let section = Section {
        begin: Begin::Mark(mark),
        answers,
        to: mark,
        stop: answers.len() as u64 + 1,
    };
    marked(rule, unit, &section, marks, code, out)
}

// Taken up at `from`, and stopped again under `to` behind `stop` answers.
pub fn route_resume_stop(
    rule: &Rule,
    unit: u32,
    from: u32,
    answers: &[u32],
    to: u32,
    stop: u64,
    marks: &mut Marks,
    code: &mut [u32],
    out: &mut [u32],
) -> Result<Route, Refused>
    ensures answer { result ≡ mark_answer (rule_of rule.now) unit (refused_or (from_refusal marks.old from) (to_refusal to)) (place_refusal marks.old (code_of (rule_of rule.now) unit) from) (stop_of marks.old (code_of (rule_of rule.now) unit) answers.now (begins.Mark from) stop) (length code.old) (length out.old) }
    ensures code { code.new ≡ mark_code (rule_of rule.now) unit (refused_or (from_refusal marks.old from) (to_refusal to)) code.old }
    ensures list { out.new ≡ mark_slice (rule_of rule.now) unit (refused_or (from_refusal marks.old from) (to_refusal to)) (place_refusal marks.old (code_of (rule_of rule.now) unit) from) (stop_of marks.old (code_of (rule_of rule.now) unit) answers.now (begins.Mark from) stop) (length code.old) out.old }
    ensures marks { marks.new ≡ marks_left (rule_of rule.now) unit (refused_or (from_refusal marks.old from) (to_refusal to)) (place_refusal marks.old (code_of (rule_of rule.now) unit) from) (stop_of marks.old (code_of (rule_of rule.now) unit) answers.now (begins.Mark from) stop) (length code.old) (length out.old) marks.old to }
{
    let section = Section {
        begin: Begin::Mark(from),
        answers,
        to,
        stop,
    };
    marked(rule, unit, &section, marks, code, out)
}
