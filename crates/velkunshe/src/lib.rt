// The calls of `exports` under C names: the archive that programs in C and Rust link. Each has the clauses of the function that it calls.
#![tactic(auto)]

ghost use Rattle.std.specs.Prelude.{◌≡◌, length};
ghost use Rattle.check_dispatch.specs.Rule.{rule};
ghost use Rattle.call_check.specs.Check.{check_answer, check_slice};
ghost use Rattle.call_routes.specs.Calls.{code_answer, code_slice, route_answer, route_slice};
ghost use Rattle.call_rename.specs.Rename.{renaming};
ghost use Rattle.call_shared.specs.Shared.{shared_answer};
ghost use Rattle.call_marks.specs.Calls.{stop_answer, stop_code, stop_slice, stop_marks, resume_answer, resume_code, resume_slice, resume_stop_answer, resume_stop_code, resume_stop_slice, resume_stop_marks};
ghost use Rattle.call_walk.specs.Walked.{walk_answer, walk_slice};
ghost use Rattle.call_run.specs.Run.{run_answer, run_slice};
ghost use Rattle.call_shorten.specs.Shorten.{shorten_answer, shorten_slice};
ghost use Rattle.exports.specs.Numbers.{check_numbers, code_numbers, route_numbers, shared_numbers, rename_numbers, run_numbers, shorten_numbers};

use exports::{
    CheckAnswer, CodeAnswer, RenameAnswer, RouteAnswer, RunAnswer, SharedAnswer, ShortenAnswer,
};
use route_marks::Marks;

// Checks the tables of a rule.
#[unsafe(no_mangle)]
pub extern "C" fn velkunshe_check(
    source_type: u32,
    async_bodies: u32,
    nodes: &[u32],
    scopes: &[u32],
    source: &[u8],
    names: &[u8],
    findings: &mut [u32],
) -> CheckAnswer
    ensures value { result ≡ check_numbers (check_answer (rule source_type async_bodies nodes.now scopes.now source.now names.now) (length findings.old)) }
    ensures findings_after { findings.new ≡ check_slice (rule source_type async_bodies nodes.now scopes.now source.now names.now) findings.old }
{
    exports::velkunshe_check(
        source_type,
        async_bodies,
        nodes,
        scopes,
        source,
        names,
        findings,
    )
}

// Makes the flat code of a unit.
#[unsafe(no_mangle)]
pub extern "C" fn velkunshe_code(
    source_type: u32,
    async_bodies: u32,
    nodes: &[u32],
    scopes: &[u32],
    source: &[u8],
    names: &[u8],
    unit: u32,
    code: &mut [u32],
) -> CodeAnswer
    ensures value { result ≡ code_numbers (code_answer (rule source_type async_bodies nodes.now scopes.now source.now names.now) unit (length code.old)) }
    ensures code_after { code.new ≡ code_slice (rule source_type async_bodies nodes.now scopes.now source.now names.now) unit code.old }
{
    exports::velkunshe_code(
        source_type,
        async_bodies,
        nodes,
        scopes,
        source,
        names,
        unit,
        code,
    )
}

// Makes the flat code of a unit, runs it over the answers, and shows the route.
#[unsafe(no_mangle)]
pub extern "C" fn velkunshe_route(
    source_type: u32,
    async_bodies: u32,
    nodes: &[u32],
    scopes: &[u32],
    source: &[u8],
    names: &[u8],
    unit: u32,
    answers: &[u32],
    code: &mut [u32],
    route: &mut [u32],
) -> RouteAnswer
    ensures value { result ≡ route_numbers (route_answer (rule source_type async_bodies nodes.now scopes.now source.now names.now) unit answers.now (length code.old) (length route.old)) }
    ensures code_after { code.new ≡ code_slice (rule source_type async_bodies nodes.now scopes.now source.now names.now) unit code.old }
    ensures route_after { route.new ≡ route_slice (rule source_type async_bodies nodes.now scopes.now source.now names.now) unit answers.now (length code.old) route.old }
{
    exports::velkunshe_route(
        source_type,
        async_bodies,
        nodes,
        scopes,
        source,
        names,
        unit,
        answers,
        code,
        route,
    )
}

// Makes the flat code of a unit, and tells how much the routes for two lists of answers share.
#[unsafe(no_mangle)]
pub extern "C" fn velkunshe_shared(
    source_type: u32,
    async_bodies: u32,
    nodes: &[u32],
    scopes: &[u32],
    source: &[u8],
    names: &[u8],
    unit: u32,
    first: &[u32],
    second: &[u32],
    code: &mut [u32],
) -> SharedAnswer
    ensures value { result ≡ shared_numbers (shared_answer (rule source_type async_bodies nodes.now scopes.now source.now names.now) unit first.now second.now (length code.old)) }
    ensures code_after { code.new ≡ code_slice (rule source_type async_bodies nodes.now scopes.now source.now names.now) unit code.old }
{
    exports::velkunshe_shared(
        source_type,
        async_bodies,
        nodes,
        scopes,
        source,
        names,
        unit,
        first,
        second,
        code,
    )
}

// The second engine: walks the statements of a unit over the answers, and shows the route. No code is made.
#[unsafe(no_mangle)]
pub extern "C" fn velkunshe_walk(
    source_type: u32,
    async_bodies: u32,
    nodes: &[u32],
    scopes: &[u32],
    source: &[u8],
    names: &[u8],
    unit: u32,
    answers: &[u32],
    route: &mut [u32],
) -> RouteAnswer
    ensures value { result ≡ route_numbers (walk_answer (rule source_type async_bodies nodes.now scopes.now source.now names.now) unit answers.now (length route.old)) }
    ensures route_after { route.new ≡ walk_slice (rule source_type async_bodies nodes.now scopes.now source.now names.now) unit answers.now route.old }
{
    exports::velkunshe_walk(
        source_type,
        async_bodies,
        nodes,
        scopes,
        source,
        names,
        unit,
        answers,
        route,
    )
}

// Writes the tables of a rule with its labels renamed to short names.
#[unsafe(no_mangle)]
pub extern "C" fn velkunshe_rename(
    source_type: u32,
    nodes: &[u32],
    scopes: &[u32],
    source: &[u8],
    names: &[u8],
    renamed_nodes: &mut [u32],
    renamed_names: &mut [u8],
) -> RenameAnswer
    ensures value { result ≡ rename_numbers (renaming source_type nodes.now scopes.now source.now names.now renamed_nodes.old renamed_names.old).answer }
    ensures renamed_nodes_after { renamed_nodes.new ≡ (renaming source_type nodes.now scopes.now source.now names.now renamed_nodes.old renamed_names.old).nodes }
    ensures renamed_names_after { renamed_names.new ≡ (renaming source_type nodes.now scopes.now source.now names.now renamed_nodes.old renamed_names.old).names }
{
    exports::velkunshe_rename(
        source_type,
        nodes,
        scopes,
        source,
        names,
        renamed_nodes,
        renamed_names,
    )
}

// Runs a lent code slice over the answers, and shows the route.
#[unsafe(no_mangle)]
pub extern "C" fn velkunshe_run(code: &[u32], answers: &[u32], route: &mut [u32]) -> RunAnswer
    ensures value { result ≡ run_numbers (run_answer code.now answers.now (length route.old)) }
    ensures route_after { route.new ≡ run_slice code.now answers.now route.old }
{
    exports::velkunshe_run(code, answers, route)
}

// Makes the code in a lent slice shorter, where it stands.
#[unsafe(no_mangle)]
pub extern "C" fn velkunshe_shorten(code: &mut [u32]) -> ShortenAnswer
    ensures value { result ≡ shorten_numbers (length code.old) (shorten_answer code.old) }
    ensures code_after { code.new ≡ shorten_slice code.old }
{
    exports::velkunshe_shorten(code)
}

// From the start, stopped under `mark` behind `stop` answers.
#[unsafe(no_mangle)]
pub extern "C" fn velkunshe_route_stop(
    source_type: u32,
    async_bodies: u32,
    nodes: &[u32],
    scopes: &[u32],
    source: &[u8],
    names: &[u8],
    unit: u32,
    answers: &[u32],
    mark: u32,
    stop: u64,
    marks: &mut Marks,
    code: &mut [u32],
    route: &mut [u32],
) -> RouteAnswer
    ensures value { result ≡ route_numbers (stop_answer (rule source_type async_bodies nodes.now scopes.now source.now names.now) unit answers.now mark stop marks.old (length code.old) (length route.old)) }
    ensures code_after { code.new ≡ stop_code (rule source_type async_bodies nodes.now scopes.now source.now names.now) unit mark code.old }
    ensures route_after { route.new ≡ stop_slice (rule source_type async_bodies nodes.now scopes.now source.now names.now) unit answers.now mark stop marks.old (length code.old) route.old }
    ensures marks_after { marks.new ≡ stop_marks (rule source_type async_bodies nodes.now scopes.now source.now names.now) unit answers.now mark stop marks.old (length code.old) (length route.old) }
{
    exports::velkunshe_route_stop(
        source_type,
        async_bodies,
        nodes,
        scopes,
        source,
        names,
        unit,
        answers,
        mark,
        stop,
        marks,
        code,
        route,
    )
}

// Taken up at `mark`, and not stopped again.
#[unsafe(no_mangle)]
pub extern "C" fn velkunshe_route_resume(
    source_type: u32,
    async_bodies: u32,
    nodes: &[u32],
    scopes: &[u32],
    source: &[u8],
    names: &[u8],
    unit: u32,
    mark: u32,
    answers: &[u32],
    marks: &mut Marks,
    code: &mut [u32],
    route: &mut [u32],
) -> RouteAnswer
    ensures value { result ≡ route_numbers (resume_answer (rule source_type async_bodies nodes.now scopes.now source.now names.now) unit mark answers.now marks.old (length code.old) (length route.old)) }
    ensures code_after { code.new ≡ resume_code (rule source_type async_bodies nodes.now scopes.now source.now names.now) unit mark marks.old code.old }
    ensures route_after { route.new ≡ resume_slice (rule source_type async_bodies nodes.now scopes.now source.now names.now) unit mark answers.now marks.old (length code.old) route.old }
    ensures marks_unchanged { marks.new ≡ marks.old }
{
    exports::velkunshe_route_resume(
        source_type,
        async_bodies,
        nodes,
        scopes,
        source,
        names,
        unit,
        mark,
        answers,
        marks,
        code,
        route,
    )
}

// Taken up at `from`, and stopped again under `to` behind `stop` answers.
#[unsafe(no_mangle)]
pub extern "C" fn velkunshe_route_resume_stop(
    source_type: u32,
    async_bodies: u32,
    nodes: &[u32],
    scopes: &[u32],
    source: &[u8],
    names: &[u8],
    unit: u32,
    from: u32,
    answers: &[u32],
    to: u32,
    stop: u64,
    marks: &mut Marks,
    code: &mut [u32],
    route: &mut [u32],
) -> RouteAnswer
    ensures value { result ≡ route_numbers (resume_stop_answer (rule source_type async_bodies nodes.now scopes.now source.now names.now) unit from answers.now to stop marks.old (length code.old) (length route.old)) }
    ensures code_after { code.new ≡ resume_stop_code (rule source_type async_bodies nodes.now scopes.now source.now names.now) unit from to marks.old code.old }
    ensures route_after { route.new ≡ resume_stop_slice (rule source_type async_bodies nodes.now scopes.now source.now names.now) unit from answers.now to stop marks.old (length code.old) route.old }
    ensures marks_after { marks.new ≡ resume_stop_marks (rule source_type async_bodies nodes.now scopes.now source.now names.now) unit from answers.now to stop marks.old (length code.old) (length route.old) }
{
    exports::velkunshe_route_resume_stop(
        source_type,
        async_bodies,
        nodes,
        scopes,
        source,
        names,
        unit,
        from,
        answers,
        to,
        stop,
        marks,
        code,
        route,
    )
}
