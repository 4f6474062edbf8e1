// The bench's world, and what is told of an event. The volume, the page buffer and the hold buffer are lent beside it: each function is lent for writing those
// alone that it may change, so they are no struct, and those that run a restart of the list require that SHAPE lets them through.
ghost use Rattle.std.specs.Prelude.{◌≡◌, false, List, ℕ};
ghost use Rattle.std.proofs.Math.Option.{none};
ghost use Rattle.engine_state.specs.Answer.{no_report};
ghost use Rattle.engine_state.specs.Log as setups;
ghost use Rattle.engine_state.specs.Log.{setup_of, log_of};
ghost use Rattle.engine_restart.specs.Restart.{at_rest};
ghost use Rattle.bench_flash.specs.Flash.{operation_of};
ghost use Rattle.bench_flash.specs.Event.{completion_of};
ghost use Rattle.engine_laws.specs.Call.{unless_due};
ghost use Rattle.bench.specs.World as bench;
ghost use Rattle.bench_step.specs.Step.{world_of, ended_of, answer_of, step_of};

use bench_flash::event::Completion;
use bench_flash::operation::{Left, Operation};
use engine_restart::restart;
use engine_state::answer::{Answer, Report, Request};
use engine_state::state::{Clients, Log, Setup, State};
use page::id::EntryID;

// The power and the log are two fields, as in the definition, which keeps the log over a cut.
#[derive(Clone, Copy)]
pub struct World {
    pub power: bool,
    pub log: Log,
    // The operation that is under way.
    pub operation: Option<Operation>,
}

// What an operation that ended has left.
#[derive(Clone, Copy)]
pub enum Ended {
    Wrote(Left),
    Erased(Left),
}

// What is told of an event: what an operation that ended has left; the answer, where a call was delivered; its report and its request. The fields are the
// definition's, which has the slot of a request to erase in place of the request.
#[derive(Clone, Copy)]
pub struct Told {
    pub ended: Option<Ended>,
    pub answer: Option<Answer>,
    pub report: Option<Report>,
    pub request: Option<Request>,
}

// The world after an event, and what is told of it.
#[derive(Clone, Copy)]
pub struct Step {
    pub world: World,
    pub told: Told,
}

// A world, and the setup, which stays the same over a list.
#[derive(Clone, Copy)]
pub struct Bench {
    pub setup: Setup,
    pub world: World,
}

impl World {
    // Where a list begins: the power is off, and the log is any; this one has the setup.
    pub fn begin(setup: Setup) -> World
        ensures { (page hold volume : List ℕ) → world_of result page hold volume
            ≡ bench.before (at_rest (setup_of setup) false false 0 0) volume page hold }
    {
        World {
            power: false,
            log: restart::at_rest(setup, Clients::NONE, EntryID(0), EntryID(0)),
            operation: None,
        }
    }

    // The world after an event with neither report nor request.
    pub(crate) fn told(self, ended: Option<Ended>, answer: Option<Answer>) -> Step
        ensures { (g : setups.Setup) (page hold volume : List ℕ) → step_of g result page hold volume
            ≡ record {
              world = world_of self page hold volume;
              told = record { ended = ended_of ended; answer = answer_of answer; report = no_report; erases = none };
            } }
    {
        Step {
            world: self,
            told: Told {
                ended,
                answer,
                report: None,
                request: None,
            },
        }
    }

    // An event that does nothing.
    pub fn undelivered(self) -> Step
        ensures { (g : setups.Setup) (page hold volume : List ℕ) → step_of g result page hold volume
            ≡ bench.undelivered (world_of self page hold volume) }
    {
        self.told(None, None)
    }

    // Whether a completion is of the operation under way.
    pub fn is_ended_by(self, completion: Completion) -> bool
        ensures { result ≡ bench.ends (completion_of completion) (operation_of self.operation) }
    {
        matches!(
            (completion, self.operation),
            (Completion::Write(_), Some(Operation::Write(_)))
                | (Completion::Erase(_, _), Some(Operation::Erase(_)))
        )
    }

    // Whether STRAY refuses a completion.
    pub(crate) fn is_stray(self, completion: Completion) -> bool
        ensures { result ≡ (unless_due (log_of self.log) (completion_of completion)).test }
    {
        !matches!(
            (completion, self.log.state),
            (Completion::Write(_), State::Append | State::Sync)
                | (Completion::Erase(_, _), State::Erase)
        )
    }
}
