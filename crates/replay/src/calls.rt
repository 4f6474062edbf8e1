// A line after the first three runs.
use crate::state::Replay;
use crate::stop::Stop;
use bench_flash::event::{Call, Completion};
use bench_flash::operation::Left;
use bench_step::world::Step;
use std::io;
use tool_script::parse;
use tool_script::parse::{Line, Name};
use tool_script::words::Words;

impl<P: Print> Replay<'_, P> {
    // A call that fills the client's buffer.
    fn step_read(&mut self, call: Call) -> Step {
        self.bench.called(
            call,
            self.volume.as_slice(),
            self.page.as_mut_slice(),
            self.hold.as_mut_slice(),
            &[],
            self.client.as_mut_slice(),
        )
    }

    // A call that gets no buffer to fill.
    fn step_other(&mut self, call: Call) -> Step {
        self.bench.called(
            call,
            self.volume.as_slice(),
            self.page.as_mut_slice(),
            self.hold.as_mut_slice(),
            self.client.as_slice(),
            &mut [],
        )
    }

    fn call(&mut self, name: Name, call: Call) -> io::Result<()> {
        if let Call::Read(_) = call {
            let step = self.step_read(call);
            self.bench.world = step.world;
            return self.show_read(name, step);
        }
        let step = self.step_other(call);
        self.bench.world = step.world;
        self.show(name, step)
    }

    // A completion. After a state was put in place of the log's, it is delivered although the bench would not.
    fn step_complete(&mut self, completion: Completion, left: Left) -> Step {
        let volume = self.volume.as_mut_slice();
        let page = self.page.as_mut_slice();
        let hold = self.hold.as_slice();
        if self.hostile && !self.bench.world.is_ended_by(completion) {
            return self.bench.complete(None, completion, volume, page, hold);
        }
        self.bench.completed(completion, left, volume, page, hold)
    }

    fn complete(&mut self, name: Name, completion: Completion, left: Left) -> io::Result<()> {
        let step = self.step_complete(completion, left);
        self.bench.world = step.world;
        self.show(name, step)
    }

    pub(crate) fn called(&mut self, name: Name, words: Words) -> Result<(), Stop> {
        let line = parse::parse_line(name, words, &mut self.client)?;
        match line {
            Line::Other(other) => return self.other(other),
            _ if !self.bench.world.power => self.show_not_delivered(name)?,
            Line::Call(call) => self.call(name, call)?,
            Line::Complete(completion, left) => self.complete(name, completion, left)?,
        }
        Ok(())
    }
}
