// Shows the route of a code: counts it first, and writes it only where there is room for all of it.
#![tactic(auto)]

ghost use Rattle.std.specs.Prelude.{◌≡◌, length};
ghost use Rattle.code_flat.specs.Machine.{code_route};
ghost use Rattle.route_viewer.specs.Shown.{shown_answer, shown_slice};

use refusal_verdict::{Refusal, Refused};

// A route that is shown: its end, the entries listed and the answers taken.
// A Ran counts the entries of any run; those of a route that is shown fit the lent slice.
#[derive(Clone, Copy)]
pub struct Route {
    pub end: u32,
    pub entries: usize,
    pub taken: u64,
}

// The route of the code over the answers.
pub fn show(code: &[u32], answers: &[u32], out: &mut [u32]) -> Result<Route, Refused>
    ensures value { result ≡ shown_answer (code_route code.now answers.now) (length out.old) }
    ensures out_after { out.new ≡ shown_slice (code_route code.now answers.now) out.old }
{
    let mut none: [u32; 1] = [0; 1];
    let counted = code_machine::run(code, answers, &mut none);
    if (out.len() as u64) < counted.entries {
        return Err(Refused::Short(Refusal::RouteSlice, counted.entries));
    }
    let ran = code_machine::run(code, answers, out);
    let route = Route {
        end: ran.end,
        entries: ran.entries as usize,
        taken: ran.taken,
    };
    Ok(route)
}
