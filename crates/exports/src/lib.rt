// The calls for programs in C and Rust: numbers and slices in, document 01's numbers out. `velkunshe` gives them C names.
#![tactic(auto)]

ghost use Rattle.std.specs.Prelude.{◌≡◌, length};
ghost use Rattle.check_dispatch.specs.Rule.{rule};
ghost use Rattle.call_check.specs.Check.{check_answer, check_slice};
ghost use Rattle.call_routes.specs.Calls.{code_answer, code_slice, route_answer, route_slice};
ghost use Rattle.call_rename.specs.Rename.{renaming};
ghost use Rattle.call_shared.specs.Shared.{shared_answer};
ghost use Rattle.call_marks.specs.Calls.{stop_answer, stop_code, stop_slice, stop_marks, resume_answer, resume_code, resume_slice, resume_stop_answer, resume_stop_code, resume_stop_slice, resume_stop_marks};
ghost use Rattle.call_walk.specs.Walked.{walk_answer, walk_slice};
ghost use Rattle.call_run.specs.Run.{run_answer, run_slice};
ghost use Rattle.call_shorten.specs.Shorten.{shorten_answer, shorten_slice};
ghost use Rattle.exports.specs.Numbers.{check_numbers, code_numbers, route_numbers, shared_numbers, rename_numbers, run_numbers, shorten_numbers};

use call_run::NoRoute;
use check_dispatch::Rule;
use refusal_verdict::{Refusal, Refused};
use route_marks::Marks;
use route_viewer::Route;

// A check's answer: the refusal's number (0 where there is none) and place, how many findings were written, and after 10 the length needed.
#[repr(C)]
#[derive(Clone, Copy)]
pub struct CheckAnswer {
    pub refusal: u32,
    pub place: u32,
    pub findings: u64,
    pub needed: u64,
}

// The code call's answer: the refusal's number and place, how many numbers of code were written, and after 11 the length needed.
#[repr(C)]
#[derive(Clone, Copy)]
pub struct CodeAnswer {
    pub refusal: u32,
    pub place: u32,
    pub length: u64,
    pub needed: u64,
}

// The route call's answer: the refusal's number and place, how many entries were written, after 11 and 12 the length needed, how many answers were taken, and the end.
#[repr(C)]
#[derive(Clone, Copy)]
pub struct RouteAnswer {
    pub refusal: u32,
    pub place: u32,
    pub entries: u64,
    pub needed: u64,
    pub taken: u64,
    pub end: u32,
}

// The shared call's answer: the refusal's number and place, how many entries the two routes share from their beginning, and after 11 the length needed.
#[repr(C)]
#[derive(Clone, Copy)]
pub struct SharedAnswer {
    pub refusal: u32,
    pub place: u32,
    pub shared: u64,
    pub needed: u64,
}

// The rename call's answer: the refusal's number and place, how many bytes of names were written, and after 20 the names length needed.
#[repr(C)]
#[derive(Clone, Copy)]
pub struct RenameAnswer {
    pub refusal: u32,
    pub place: u32,
    pub names: u64,
    pub needed: u64,
}

// The run call's answer: the refusal's number, the end, 18's place, which may be above 32 bits, how many entries were written, after 12 the length needed, and how many answers were taken.
#[repr(C)]
#[derive(Clone, Copy)]
pub struct RunAnswer {
    pub refusal: u32,
    pub end: u32,
    pub place: u64,
    pub entries: u64,
    pub needed: u64,
    pub taken: u64,
}

// The shorten call's answer: the refusal's number, 18's place, the new length, and the room freed.
#[repr(C)]
#[derive(Clone, Copy)]
pub struct ShortenAnswer {
    pub refusal: u32,
    pub place: u64,
    pub length: u64,
    pub freed: u64,
}

fn check_numbers(answer: Result<usize, Refused>) -> CheckAnswer
    ensures { result ≡ check_numbers answer }
{
    match answer {
        Ok(count) => CheckAnswer {
            refusal: 0,
            place: 0,
            findings: count as u64,
            needed: 0,
        },
        Err(refused) => CheckAnswer {
            refusal: refused.number(),
            place: refused.place(),
            findings: 0,
            needed: refused.needed(),
        },
    }
}

// Checks the tables of a rule.
pub fn velkunshe_check(
    source_type: u32,
    async_bodies: u32,
    nodes: &[u32],
    scopes: &[u32],
    source: &[u8],
    names: &[u8],
    findings: &mut [u32],
) -> CheckAnswer
    ensures value { result ≡ check_numbers (check_answer (rule source_type async_bodies nodes.now scopes.now source.now names.now) (length findings.old)) }
    ensures findings_after { findings.new ≡ check_slice (rule source_type async_bodies nodes.now scopes.now source.now names.now) findings.old }
{
    let rule = Rule {
        source_type,
        async_bodies,
        nodes,
        scopes,
        source,
        names,
    };
    check_numbers(call_check::check(&rule, findings))
}

fn code_numbers(answer: Result<usize, Refused>) -> CodeAnswer
    ensures { result ≡ code_numbers answer }
{
    match answer {
        Ok(length) => CodeAnswer {
            refusal: 0,
            place: 0,
            length: length as u64,
            needed: 0,
        },
        Err(refused) => CodeAnswer {
            refusal: refused.number(),
            place: refused.place(),
            length: 0,
            needed: refused.needed(),
        },
    }
}

// Makes the flat code of a unit.
pub fn velkunshe_code(
    source_type: u32,
    async_bodies: u32,
    nodes: &[u32],
    scopes: &[u32],
    source: &[u8],
    names: &[u8],
    unit: u32,
    code: &mut [u32],
) -> CodeAnswer
    ensures value { result ≡ code_numbers (code_answer (rule source_type async_bodies nodes.now scopes.now source.now names.now) unit (length code.old)) }
    ensures code_after { code.new ≡ code_slice (rule source_type async_bodies nodes.now scopes.now source.now names.now) unit code.old }
{
    let rule = Rule {
        source_type,
        async_bodies,
        nodes,
        scopes,
        source,
        names,
    };
    code_numbers(call_routes::code(&rule, unit, code))
}

fn route_numbers(answer: Result<Route, Refused>) -> RouteAnswer
    ensures { result ≡ route_numbers answer }
{
    match answer {
        Ok(route) => RouteAnswer {
            refusal: 0,
            place: 0,
            entries: route.entries as u64,
            needed: 0,
            taken: route.taken,
            end: route.end,
        },
        Err(refused) => RouteAnswer {
            refusal: refused.number(),
            place: refused.place(),
            entries: 0,
            needed: refused.needed(),
            taken: 0,
            end: 0,
        },
    }
}

// Makes the flat code of a unit, runs it over the answers, and shows the route.
pub fn velkunshe_route(
    source_type: u32,
    async_bodies: u32,
    nodes: &[u32],
    scopes: &[u32],
    source: &[u8],
    names: &[u8],
    unit: u32,
    answers: &[u32],
    code: &mut [u32],
    route: &mut [u32],
) -> RouteAnswer
    ensures value { result ≡ route_numbers (route_answer (rule source_type async_bodies nodes.now scopes.now source.now names.now) unit answers.now (length code.old) (length route.old)) }
    ensures code_after { code.new ≡ code_slice (rule source_type async_bodies nodes.now scopes.now source.now names.now) unit code.old }
    ensures route_after { route.new ≡ route_slice (rule source_type async_bodies nodes.now scopes.now source.now names.now) unit answers.now (length code.old) route.old }
{
    let rule = Rule {
        source_type,
        async_bodies,
        nodes,
        scopes,
        source,
        names,
    };
    route_numbers(call_routes::route(&rule, unit, answers, code, route))
}

fn shared_numbers(answer: Result<u64, Refused>) -> SharedAnswer
    ensures { result ≡ shared_numbers answer }
{
    match answer {
        Ok(shared) => SharedAnswer {
            refusal: 0,
            place: 0,
            shared,
            needed: 0,
        },
        Err(refused) => SharedAnswer {
            refusal: refused.number(),
            place: refused.place(),
            shared: 0,
            needed: refused.needed(),
        },
    }
}

// Makes the flat code of a unit, and tells how much the routes for two lists of answers share.
pub fn velkunshe_shared(
    source_type: u32,
    async_bodies: u32,
    nodes: &[u32],
    scopes: &[u32],
    source: &[u8],
    names: &[u8],
    unit: u32,
    first: &[u32],
    second: &[u32],
    code: &mut [u32],
) -> SharedAnswer
    ensures value { result ≡ shared_numbers (shared_answer (rule source_type async_bodies nodes.now scopes.now source.now names.now) unit first.now second.now (length code.old)) }
    ensures code_after { code.new ≡ code_slice (rule source_type async_bodies nodes.now scopes.now source.now names.now) unit code.old }
{
    let rule = Rule {
        source_type,
        async_bodies,
        nodes,
        scopes,
        source,
        names,
    };
    shared_numbers(call_shared::shared(&rule, unit, first, second, code))
}

// The second engine: walks the statements of a unit over the answers, and shows the route. No code is made.
pub fn velkunshe_walk(
    source_type: u32,
    async_bodies: u32,
    nodes: &[u32],
    scopes: &[u32],
    source: &[u8],
    names: &[u8],
    unit: u32,
    answers: &[u32],
    route: &mut [u32],
) -> RouteAnswer
    ensures value { result ≡ route_numbers (walk_answer (rule source_type async_bodies nodes.now scopes.now source.now names.now) unit answers.now (length route.old)) }
    ensures route_after { route.new ≡ walk_slice (rule source_type async_bodies nodes.now scopes.now source.now names.now) unit answers.now route.old }
{
    let rule = Rule {
        source_type,
        async_bodies,
        nodes,
        scopes,
        source,
        names,
    };
    route_numbers(call_walk::walk(&rule, unit, answers, route))
}

fn rename_numbers(answer: Result<usize, Refused>) -> RenameAnswer
    ensures { result ≡ rename_numbers answer }
{
    match answer {
        Ok(length) => RenameAnswer {
            refusal: 0,
            place: 0,
            names: length as u64,
            needed: 0,
        },
        Err(refused) => RenameAnswer {
            refusal: refused.number(),
            place: refused.place(),
            names: 0,
            needed: refused.needed(),
        },
    }
}

// Writes the tables of a rule with its labels renamed to short names.
pub fn velkunshe_rename(
    source_type: u32,
    nodes: &[u32],
    scopes: &[u32],
    source: &[u8],
    names: &[u8],
    renamed_nodes: &mut [u32],
    renamed_names: &mut [u8],
) -> RenameAnswer
    ensures value { result ≡ rename_numbers (renaming source_type nodes.now scopes.now source.now names.now renamed_nodes.old renamed_names.old).answer }
    ensures renamed_nodes_after { renamed_nodes.new ≡ (renaming source_type nodes.now scopes.now source.now names.now renamed_nodes.old renamed_names.old).nodes }
    ensures renamed_names_after { renamed_names.new ≡ (renaming source_type nodes.now scopes.now source.now names.now renamed_nodes.old renamed_names.old).names }
{
    rename_numbers(call_rename::rename(
        source_type,
        nodes,
        scopes,
        source,
        names,
        renamed_nodes,
        renamed_names,
    ))
}

fn run_numbers(answer: Result<Route, NoRoute>) -> RunAnswer
    ensures { result ≡ run_numbers answer }
{
    match answer {
        Ok(route) => RunAnswer {
            refusal: 0,
            end: route.end,
            place: 0,
            entries: route.entries as u64,
            needed: 0,
            taken: route.taken,
        },
        Err(NoRoute::Invalid(place)) => RunAnswer {
            refusal: Refusal::NoCode.number(),
            end: 0,
            place,
            entries: 0,
            needed: 0,
            taken: 0,
        },
        Err(NoRoute::Refused(refused)) => RunAnswer {
            refusal: refused.number(),
            end: 0,
            place: u64::from(refused.place()),
            entries: 0,
            needed: refused.needed(),
            taken: 0,
        },
    }
}

// Runs a lent code slice over the answers, and shows the route.
pub fn velkunshe_run(code: &[u32], answers: &[u32], route: &mut [u32]) -> RunAnswer
    ensures value { result ≡ run_numbers (run_answer code.now answers.now (length route.old)) }
    ensures route_after { route.new ≡ run_slice code.now answers.now route.old }
{
    run_numbers(call_run::run(code, answers, route))
}

fn shorten_numbers(room: usize, answer: Result<usize, u64>) -> ShortenAnswer
    ensures { result ≡ shorten_numbers room answer }
{
    match answer {
        Ok(length) => ShortenAnswer {
            refusal: 0,
            place: 0,
            length: length as u64,
            // the pass never lengthens code, so nothing is cut off here
            freed: room.saturating_sub(length) as u64,
        },
        Err(place) => ShortenAnswer {
            refusal: Refusal::NoCode.number(),
            place,
            length: 0,
            freed: 0,
        },
    }
}

// Makes the code in a lent slice shorter, where it stands.
pub fn velkunshe_shorten(code: &mut [u32]) -> ShortenAnswer
    ensures value { result ≡ shorten_numbers (length code.old) (shorten_answer code.old) }
    ensures code_after { code.new ≡ shorten_slice code.old }
{
    shorten_numbers(code.len(), call_shorten::shorten(code))
}

// From the start, stopped under `mark` behind `stop` answers.
pub fn velkunshe_route_stop(
    source_type: u32,
    async_bodies: u32,
    nodes: &[u32],
    scopes: &[u32],
    source: &[u8],
    names: &[u8],
    unit: u32,
    answers: &[u32],
    mark: u32,
    stop: u64,
    marks: &mut Marks,
    code: &mut [u32],
    route: &mut [u32],
) -> RouteAnswer
    ensures value { result ≡ route_numbers (stop_answer (rule source_type async_bodies nodes.now scopes.now source.now names.now) unit answers.now mark stop marks.old (length code.old) (length route.old)) }
    ensures code_after { code.new ≡ stop_code (rule source_type async_bodies nodes.now scopes.now source.now names.now) unit mark code.old }
    ensures route_after { route.new ≡ stop_slice (rule source_type async_bodies nodes.now scopes.now source.now names.now) unit answers.now mark stop marks.old (length code.old) route.old }
    ensures marks_after { marks.new ≡ stop_marks (rule source_type async_bodies nodes.now scopes.now source.now names.now) unit answers.now mark stop marks.old (length code.old) (length route.old) }
{
    let rule = Rule {
        source_type,
        async_bodies,
        nodes,
        scopes,
        source,
        names,
    };
    route_numbers(call_marks::route_stop(&rule, unit, answers, mark, stop, marks, code, route))
}

// Taken up at `mark`, and not stopped again.
pub fn velkunshe_route_resume(
    source_type: u32,
    async_bodies: u32,
    nodes: &[u32],
    scopes: &[u32],
    source: &[u8],
    names: &[u8],
    unit: u32,
    mark: u32,
    answers: &[u32],
    marks: &mut Marks,
    code: &mut [u32],
    route: &mut [u32],
) -> RouteAnswer
    ensures value { result ≡ route_numbers (resume_answer (rule source_type async_bodies nodes.now scopes.now source.now names.now) unit mark answers.now marks.old (length code.old) (length route.old)) }
    ensures code_after { code.new ≡ resume_code (rule source_type async_bodies nodes.now scopes.now source.now names.now) unit mark marks.old code.old }
    ensures route_after { route.new ≡ resume_slice (rule source_type async_bodies nodes.now scopes.now source.now names.now) unit mark answers.now marks.old (length code.old) route.old }
    ensures marks_unchanged { marks.new ≡ marks.old }
{
    let rule = Rule {
        source_type,
        async_bodies,
        nodes,
        scopes,
        source,
        names,
    };
    route_numbers(call_marks::route_resume(&rule, unit, mark, answers, marks, code, route))
}

// Taken up at `from`, and stopped again under `to` behind `stop` answers.
pub fn velkunshe_route_resume_stop(
    source_type: u32,
    async_bodies: u32,
    nodes: &[u32],
    scopes: &[u32],
    source: &[u8],
    names: &[u8],
    unit: u32,
    from: u32,
    answers: &[u32],
    to: u32,
    stop: u64,
    marks: &mut Marks,
    code: &mut [u32],
    route: &mut [u32],
) -> RouteAnswer
    ensures value { result ≡ route_numbers (resume_stop_answer (rule source_type async_bodies nodes.now scopes.now source.now names.now) unit from answers.now to stop marks.old (length code.old) (length route.old)) }
    ensures code_after { code.new ≡ resume_stop_code (rule source_type async_bodies nodes.now scopes.now source.now names.now) unit from to marks.old code.old }
    ensures route_after { route.new ≡ resume_stop_slice (rule source_type async_bodies nodes.now scopes.now source.now names.now) unit from answers.now to stop marks.old (length code.old) route.old }
    ensures marks_after { marks.new ≡ resume_stop_marks (rule source_type async_bodies nodes.now scopes.now source.now names.now) unit from answers.now to stop marks.old (length code.old) (length route.old) }
{
    let rule = Rule {
        source_type,
        async_bodies,
        nodes,
        scopes,
        source,
        names,
    };
    route_numbers(call_marks::route_resume_stop(
        &rule, unit, from, answers, to, stop, marks, code, route,
    ))
}
