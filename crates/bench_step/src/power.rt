// The power: a cut, and a restart. What is lent stays parameters, for the reason in world.rt.
ghost use Rattle.std.specs.Prelude.{◌≡◌, true, List, ℕ, length};
ghost use Rattle.std.proofs.Math.Option.{none, some};
ghost use Rattle.engine_state.specs.Answer.{number, no_report};
ghost use Rattle.engine_state.specs.Log as setups;
ghost use Rattle.engine_state.specs.Log.{setup_of};
ghost use Rattle.engine_state.specs.Check.{shape_fits};
ghost use Rattle.engine_restart.specs.Restart as recovery;
ghost use Rattle.bench_flash.specs.Flash as flash;
ghost use Rattle.bench_flash.specs.Flash.{left_of};
ghost use Rattle.bench_flash.specs.Event as event;
ghost use Rattle.bench_flash.specs.Event.{restart_of};
ghost use Rattle.bench.specs.World as bench;
ghost use Rattle.bench_step.specs.Step.{world_of, ended_of, step_of, end_step, in_place, restarts_after};

use crate::world::{Bench, Ended, Step, World};
use bench_flash::event::Restart;
use bench_flash::operation::{Left, Operation, Slot};
use engine_state::answer::Answer;
use engine_state::state::Clients;

impl World {
    // A restart that is refused leaves the power off.
    fn refused(self, ended: Option<Ended>, answer: Answer) -> Step
        ensures { (g : setups.Setup) (page hold volume : List ℕ) → let x = world_of self page hold volume in step_of g result page hold volume
            ≡ record {
              world = bench.restarted_world x page hold (recovery.refused (number answer));
              told = record { ended = ended_of ended; answer = some (number answer); report = no_report; erases = none };
            } }
    {
        let off = World {
            power: false,
            operation: None,
            ..self
        };
        off.told(ended, Some(answer))
    }
}

impl Bench {
    // The operation under way ends, and its slot holds what it left.
    pub(crate) fn end(self, left: Left, volume: &mut [u8], page: &[u8]) -> Step
        ensures { (hold : List ℕ) → let g = setup_of self.setup in let x = world_of self.world page.now hold volume.old in
            step_of g result x.page hold volume.new ≡ end_step g x (left_of left) }
    {
        let page_size = self.setup.geometry.page_size;
        let over = World {
            operation: None,
            ..self.world
        };
        let Some(operation) = self.world.operation else {
            return over.told(None, None);
        };
        match operation {
            Operation::Write(number) => {
                Slot { number, page_size }.end_write(volume, page, left);
                over.told(Some(Ended::Wrote(left)), None)
            }
            Operation::Erase(number) => {
                Slot { number, page_size }.end_erase(volume, left);
                over.told(Some(Ended::Erased(left)), None)
            }
        }
    }

    // The power goes, unless it is off.
    pub fn cut(self, left: Left, volume: &mut [u8], page: &[u8]) -> Step
        ensures { (hold : List ℕ) → let g = setup_of self.setup in let x = world_of self.world page.now hold volume.old in
            step_of g result x.page hold volume.new ≡ bench.step g x (event.cut (left_of left)) }
    {
        if !self.world.power {
            return self.world.undelivered();
        }
        let world = World {
            power: false,
            ..self.world
        };
        Bench { world, ..self }.end(left, volume, page)
    }

    // A restart with the buffers that are lent, after a cut or with the power off, and what an operation left that the cut has ended.
    pub fn restart(
        self,
        ended: Option<Ended>,
        clients: Clients,
        volume: &[u8],
        page: &mut [u8],
        hold: &[u8],
    ) -> Step
        ensures { (left : flash.Left) → let g = setup_of self.setup in let x = world_of self.world page.old hold.now volume.now in
            step_of g result page.new x.hold x.volume ≡ restarts_after g (record { world = x; told = bench.quiet (ended_of ended) })
            (in_place left clients.read clients.append x) }
    {
        let setup = self.setup;
        match engine_restart::restart::restart(setup, clients, volume, page, hold) {
            Ok(log) => World {
                power: true,
                log,
                operation: None,
            }
            .told(ended, Some(Answer::OK)),
            Err(answer) => self.world.refused(ended, answer),
        }
    }

    // A restart with new buffers, the first `size` bytes and the others; with the power on it is a cut first.
    pub(crate) fn restart_with(
        self,
        restart: Restart,
        volume: &mut [u8],
        page: &mut [u8],
        hold: &mut [u8],
        bytes: &[u8],
    ) -> Step
        requires { shape_fits (setup_of self.setup) (length volume.old) (length page.old) (length hold.old) ≡ true }
        ensures { let g = setup_of self.setup in let x = world_of self.world page.old hold.old volume.old in
            step_of g result page.new hold.new volume.new ≡ bench.step g x (event.restart (restart_of restart bytes.now)) }
    {
        let off = self.cut(restart.left, volume, page);
        let ended = off.told.ended;
        if restart.size != page.len() || bytes.len() != page.len() + hold.len() {
            return off.world.refused(ended, Answer::SHAPE);
        }
        let (front, rest) = bytes.split_at(restart.size);
        page.copy_from_slice(front);
        hold.copy_from_slice(rest);
        let world = off.world;
        Bench { world, ..self }.restart(ended, restart.clients, volume, page, hold)
    }
}
