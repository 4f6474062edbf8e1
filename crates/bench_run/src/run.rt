// A list runs, the log restarts once more, and what it holds is read. What is lent stays parameters, as in bench_step's world.
ghost use Rattle.std.specs.Prelude.{◌≡◌, true, List, ℕ, length, IfErr};
ghost use Rattle.engine_state.specs.Log.{setup_of};
ghost use Rattle.engine_state.specs.Check.{shape_fits};
ghost use Rattle.engine_call.specs.Outcome.{lend};
ghost use Rattle.bench_flash.specs.Flash.{left_of};
ghost use Rattle.bench.specs.Book.{Book};
ghost use Rattle.bench_step.specs.Step.{world_of};
ghost use Rattle.bench_run.specs.Run as spec;
ghost use Rattle.bench_run.specs.Run.{listed, after, again, found_log_of, ran_of, Runs};

use crate::decode::HEAD_SIZE;
use crate::entries::Entries;
use crate::{decode, entries};
use bench_flash::operation::Left;
use bench_step::world::{Bench, World};
use engine_state::answer::Answer;
use engine_state::fits;
use engine_state::fits::LentLengths;
use engine_state::state::{Clients, Setup};
use page::id::EntryID;

// What a further restart found: O and A, and the entries that were read.
#[derive(Clone, Copy)]
pub struct FoundLog {
    pub oldest: EntryID,
    pub append: EntryID,
    pub entries: Entries,
}

// A list runs to its last complete event. By `while let`, since each event begins where the one before it ends: an iterator would be a type with clauses
// of its own for this one loop.
#[tactic(auto, using(crate::proofs::Lists::size_found))]
fn run_list(
    setup: Setup,
    list: &[u8],
    volume: &mut [u8],
    page: &mut [u8],
    hold: &mut [u8],
    out: &mut [u8],
) -> World
    requires { shape_fits (setup_of setup) (length volume.old) (length page.old) (length hold.old) ≡ true }
    ensures { let g = setup_of setup in let x = lend volume.old page.old hold.old in
        world_of result page.new hold.new volume.new
        ≡ (after g (listed (length out.old) list.now) x).world }
{
    let mut world = World::begin(setup);
    let mut rest = list;
    while let Some(size) = decode::event_size(rest) {
        let event = decode::event(rest);
        let bytes = &rest[HEAD_SIZE..size];
        let done = Bench { setup, world }.step(event, volume, page, hold, bytes, out);
        world = done.world;
        rest = &rest[size..];
    }
    world
}

// The log restarts once more, with the read client set and the buffers as they are, and what it holds is read.
fn find(
    bench: Bench,
    left: Left,
    append_client: bool,
    volume: &mut [u8],
    page: &mut [u8],
    hold: &[u8],
    out: &mut [u8],
) -> FoundLog
    requires { shape_fits (setup_of bench.setup) (length volume.old) (length page.old) (length hold.now) ≡ true }
    ensures { (book : Book) (begun : List ℕ) → length begun ≡ length out.old → let g = setup_of bench.setup in
        let x = world_of bench.world page.old hold.now volume.old in
        spec.Ran (again g (left_of left) append_client (record { world = x; book = book })) (found_log_of result)
        (lend volume.new page.new hold.now) begun out.new }
{
    let off = bench.cut(left, volume, page);
    let world = off.world;
    let done = Bench { world, ..bench }.restart(
        off.told.ended,
        Clients {
            read: true,
            append: append_client,
        },
        volume,
        page,
        hold,
    );
    let log = done.world.log;
    out.fill(0);
    FoundLog {
        oldest: log.oldest_entry_id,
        append: log.append_entry_id,
        entries: entries::read_out(log, volume, page, hold, out),
    }
}

// Runs a list of events that is lent as bytes, restarts once more with the read client set, and reads to the first FAIL into `out`, each entry with its length
// before it, a word. Reading ends before it where `out` has no room for a length and a page more: then `whole` is false, and `used` + `width` + P is more than
// its length. The list's own reads get `out` as their buffer. Sizes and buffers that don't fit are refused, by SHAPE.
pub fn run(
    setup: Setup,
    list: &[u8],
    left: Left,
    append_client: bool,
    volume: &mut [u8],
    page: &mut [u8],
    hold: &mut [u8],
    out: &mut [u8],
) -> Result<FoundLog, Answer>
    ensures runs { let x = lend volume.old page.old hold.old in
        let x' = lend volume.new page.new hold.new in
        Runs (setup_of setup) (listed (length out.old) list.now) (left_of left) append_client
        x x' out.old out.new (ran_of result) }
    ensures refusal { IfErr result (λ answer. answer ≡ Answer.SHAPE) }
{
    if !fits::shape_fits(setup, LentLengths::of(volume, page, hold)) {
        return Err(Answer::SHAPE);
    }
    let world = run_list(setup, list, volume, page, hold, out);
    let bench = Bench { setup, world };
    Ok(find(bench, left, append_client, volume, page, hold, out))
}
