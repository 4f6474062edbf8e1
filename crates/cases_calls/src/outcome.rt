// An outcome, written out: the answer, the report, the request, the state, O, R, A and the kept length.
use engine_call::outcome::Outcome;
use engine_state::state::Log;
use std::io;
use tool_print::print::Cases;
use tool_script::trace::Given;

// The line of a case, and the log that its call leaves.
pub(crate) fn line(on: &Cases<impl Print>, label: &str, outcome: Outcome) -> io::Result<Log> {
    on.line(label, Given(outcome))?;
    Ok(outcome.log)
}
