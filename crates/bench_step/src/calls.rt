// Any call of the log, and any completion. What is lent stays parameters, for the reason in world.rt.
ghost use Rattle.std.specs.Prelude.{◌≡◌};
ghost use Rattle.std.proofs.Math.ListN as lists;
ghost use Rattle.engine_state.specs.Log.{log_of};
ghost use Rattle.engine_call.specs.Outcome.{lend, done_of};
ghost use Rattle.bench_flash.specs.Event.{call_of, completion_of};
ghost use Rattle.engine_laws.specs.Call as engine;
ghost use Rattle.bench_step.specs.Step.{call_buffer};

use bench_flash::event::{Call, Completion};
use engine_call::outcome::Outcome;
use engine_erase::erase::{erase, erase_complete};
use engine_read::deferred::handle_deferred_call;
use engine_read::read::read;
use engine_read::seek::seek;
use engine_state::fits::LentLengths;
use engine_state::state::Log;
use engine_write::append::append;
use engine_write::sync::sync;
use engine_write::write_complete::write_complete;

// A call on the log, with the bytes of an append and the buffer of a read, `out`.
pub fn call(
    log: Log,
    call: Call,
    volume: &[u8],
    page: &mut [u8],
    hold: &mut [u8],
    bytes: &[u8],
    out: &mut [u8],
) -> Outcome
    ensures { let l = log_of log in let x = lend volume.now page.old hold.old in
        let k = call_of call bytes.now (lists.length out.old) in
        (done_of result page.new hold.new ≡ engine.call l x k) × (out.new ≡ call_buffer l x k out.old) }
{
    let lent = LentLengths::of(volume, page, hold);
    match call {
        Call::Append(length, word) => append(log, volume, page, hold, bytes, length, word),
        Call::Sync(word) => sync(log, volume, page, hold, word),
        Call::Read(length) => read(log, volume, page, hold, out, length),
        Call::Seek(id) => seek(log, lent, id),
        Call::Deferred => handle_deferred_call(log, lent),
        Call::Erase(word) => erase(log, lent, word),
    }
}

// A completion on the log.
pub(crate) fn complete(
    log: Log,
    completion: Completion,
    volume: &[u8],
    page: &mut [u8],
    hold: &[u8],
) -> Outcome
    ensures { done_of result page.new hold.now
        ≡ engine.complete (log_of log) (lend volume.now page.old hold.now) (completion_of completion) }
{
    match completion {
        Completion::Write(good) => write_complete(log, volume, page, hold, good),
        Completion::Erase(good, word) => erase_complete(log, volume, page, hold, good, word),
    }
}
