// An event: what it does to the world, and what is told of it. What is lent stays parameters, for the reason in world.rt.
ghost use Rattle.std.specs.Prelude.{◌≡◌, true, List, ℕ, length};
ghost use Rattle.engine_state.specs.Log.{setup_of};
ghost use Rattle.engine_state.specs.Check.{shape_fits};
ghost use Rattle.engine_call.specs.Outcome.{done_of, word_of};
ghost use Rattle.bench_flash.specs.Flash.{left_of};
ghost use Rattle.bench_flash.specs.Event as event;
ghost use Rattle.bench_flash.specs.Event.{call_of, completion_of, event_of};
ghost use Rattle.bench.specs.World as bench;
ghost use Rattle.bench_step.specs.Step.{world_of, ended_of, step_of, comes, event_buffer};

use crate::calls;
use crate::world::{Bench, Ended, Step, Told, World};
use bench_flash::event::{Call, Completion, Event};
use bench_flash::operation;
use bench_flash::operation::Left;
use engine_call::outcome::{Driver, Outcome};

impl Bench {
    // A call was delivered: an operation starts where it has a request and the driver's word is OK. The outcome's fields go to two structs, so each is named.
    fn delivered(self, ended: Option<Ended>, given: Outcome, word: Driver) -> Step
        ensures { (page hold volume page' hold' : List ℕ) → let g = setup_of self.setup in step_of g result page' hold' volume
            ≡ bench.delivered g.first (world_of self.world page hold volume) (ended_of ended) (done_of given page' hold') (word_of word) }
    {
        let first_page = self.setup.geometry.first_page;
        Step {
            world: World {
                power: true,
                log: given.log,
                operation: operation::start(self.world.operation, given.request, word, first_page),
            },
            told: Told {
                ended,
                answer: Some(given.answer),
                report: given.report,
                request: given.request,
            },
        }
    }

    // A call, with the bytes of an append and the buffer of a read, `out`.
    pub fn called(
        self,
        call: Call,
        volume: &[u8],
        page: &mut [u8],
        hold: &mut [u8],
        bytes: &[u8],
        out: &mut [u8],
    ) -> Step
        ensures { let g = setup_of self.setup in let x = world_of self.world page.old hold.old volume.now in
            let e = event.call (call_of call bytes.now (length out.old)) in
            (step_of g result page.new hold.new x.volume ≡ bench.step g x e) × (out.new ≡ event_buffer x e out.old) }
    {
        if !self.world.power {
            return self.world.undelivered();
        }
        let given = calls::call(self.world.log, call, volume, page, hold, bytes, out);
        self.delivered(None, given, call.word())
    }

    // A completion is delivered, after the end of its operation, and what that left, or where there is none.
    pub fn complete(
        self,
        ended: Option<Ended>,
        completion: Completion,
        volume: &[u8],
        page: &mut [u8],
        hold: &[u8],
    ) -> Step
        ensures { let g = setup_of self.setup in let x = world_of self.world page.old hold.now volume.now in
            step_of g result page.new x.hold x.volume
            ≡ comes g (record { world = x; told = bench.quiet (ended_of ended) }) (completion_of completion) }
    {
        let given = calls::complete(self.world.log, completion, volume, page, hold);
        self.delivered(ended, given, completion.word())
    }

    // A completion of the operation under way, which ends; any other comes only where STRAY refuses it.
    pub fn completed(
        self,
        completion: Completion,
        left: Left,
        volume: &mut [u8],
        page: &mut [u8],
        hold: &[u8],
    ) -> Step
        ensures { let g = setup_of self.setup in let x = world_of self.world page.old hold.now volume.old in
            step_of g result page.new x.hold volume.new ≡ bench.step g x (event.completion (completion_of completion) (left_of left)) }
    {
        let world = self.world;
        if !world.power {
            return world.undelivered();
        }
        if world.is_ended_by(completion) {
            let over = self.end(left.after(completion.is_good()), volume, page);
            let bench = Bench {
                world: over.world,
                ..self
            };
            return bench.complete(over.told.ended, completion, volume, page, hold);
        }
        if !world.is_stray(completion) {
            return world.undelivered();
        }
        self.complete(None, completion, volume, page, hold)
    }

    // An event, with the bytes of an append or of a restart's buffers, and the buffer of a read, `out`.
    pub fn step(
        self,
        event: Event,
        volume: &mut [u8],
        page: &mut [u8],
        hold: &mut [u8],
        bytes: &[u8],
        out: &mut [u8],
    ) -> Step
        requires { shape_fits (setup_of self.setup) (length volume.old) (length page.old) (length hold.old) ≡ true }
        ensures { let g = setup_of self.setup in let x = world_of self.world page.old hold.old volume.old in
            let e = event_of event bytes.now (length out.old) in
            (step_of g result page.new hold.new volume.new ≡ bench.step g x e)
            × (out.new ≡ event_buffer x e out.old) }
    {
        match event {
            Event::Call(call) => self.called(call, volume, page, hold, bytes, out),
            Event::Complete(completion, left) => {
                self.completed(completion, left, volume, page, hold)
            }
            Event::Cut(left) => self.cut(left, volume, page),
            Event::Restart(restart) => self.restart_with(restart, volume, page, hold, bytes),
        }
    }
}
