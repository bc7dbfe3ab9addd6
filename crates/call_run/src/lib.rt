// The public call `run`: a lent code slice is run over a list of answers. 18 first, then the run is shown as a route is.
#![tactic(auto)]

ghost use Rattle.std.specs.Prelude.{◌≡◌, length};
ghost use Rattle.call_run.specs.Run.{run_answer, run_slice};

use refusal_verdict::Refused;
use route_viewer::Route;

// Why a code slice shows no route: refusal 18, with its place, which may be above 32 bits; or 12, with the length needed.
#[derive(Clone, Copy)]
pub enum NoRoute {
    Invalid(u64),
    Refused(Refused),
}

// The run of the code over the answers.
#[tactic(auto, using(crate::proofs::RunLaws::invalid_answer, crate::proofs::RunLaws::invalid_slice, crate::proofs::RunLaws::valid_answer, crate::proofs::RunLaws::valid_slice, crate::proofs::RunLaws::shown, refusal_verdict::proofs::VerdictLaws::handed), unfolding(crate::specs::Run::run_answer, crate::specs::Run::run_slice))]
pub fn run(code: &[u32], answers: &[u32], out: &mut [u32]) -> Result<Route, NoRoute>
    ensures value { result ≡ run_answer code.now answers.now (length out.old) }
    ensures out_after { out.new ≡ run_slice code.now answers.now out.old }
{
    code_valid::check(code).map_err(NoRoute::Invalid)?;
    route_viewer::show(code, answers, out).map_err(NoRoute::Refused)
}
