// The trace of a call.
ghost use Rattle.std.specs.Prelude.{Some};
ghost use Rattle.replay.specs.Trace.{shown_text};

use crate::state::Replay;
use bench_step::world::Step;
use engine_call::outcome::Outcome;
use std::{fmt, io};
use tool_script::parse::Name;
use tool_script::trace::{Bytes, Given};

// A call, delivered or not, with the buffers as they are after it.
#[derive(Clone, Copy)]
struct Shown<'a> {
    step: Step,
    page: &'a [u8],
    hold: &'a [u8],
}

impl fmt::Display for Shown<'_> {
    ghost output = { λ shown. Some (shown_text shown) };

    fn fmt<W: fmt::Write>(&self, f: &mut fmt::Formatter<W>) -> fmt::Result {
        let told = self.step.told;
        let Some(answer) = told.answer else {
            return write!(f, "not delivered");
        };
        let given = Given(Outcome {
            log: self.step.world.log,
            answer,
            report: told.report,
            request: told.request,
        });
        write!(f, "{given} {} {}", Bytes(self.page), Bytes(self.hold))
    }
}

impl<P: Print> Replay<'_, P> {
    pub(crate) fn show(&mut self, name: Name, step: Step) -> io::Result<()> {
        let (page, hold) = (self.page.as_slice(), self.hold.as_slice());
        let shown = Shown { step, page, hold };
        self.trace.line(format_args!("{name} {shown}"))
    }

    // A read's trace ends in the client's buffer.
    pub(crate) fn show_read(&mut self, name: Name, step: Step) -> io::Result<()> {
        let (page, hold) = (self.page.as_slice(), self.hold.as_slice());
        let shown = Shown { step, page, hold };
        let client = Bytes(self.client.as_slice());
        self.trace.line(format_args!("{name} {shown} {client}"))
    }

    // A call that needs the power, which is off.
    pub(crate) fn show_not_delivered(&mut self, name: Name) -> io::Result<()> {
        self.trace.line(format_args!("{name} not delivered"))
    }
}
