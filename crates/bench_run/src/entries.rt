// Reading on from a log: each entry goes to a lent buffer, with its length before it, a word. What is lent stays parameters, as in bench_step's world.
ghost use Rattle.std.specs.Prelude.{◌≡◌, length, replicate};
ghost use Rattle.page.specs.Sizes.{Width};
ghost use Rattle.engine_state.specs.Log.{log_of};
ghost use Rattle.engine_call.specs.Outcome.{lend};
ghost use Rattle.bench_run.specs.Entries.{next_of, NextRead, ReadOut};

use engine_read::deferred::handle_deferred_call;
use engine_state::answer::Answer;
use engine_state::fits::LentLengths;
use engine_state::state::Log;
use page::word;
use page::word::WordWidth;

// A read's entry: its length, and the log after it.
#[derive(Clone, Copy)]
struct Entry {
    log: Log,
    size: usize,
}

// Why no entry is read: an answer that isn't OK, or no room for one.
#[derive(Clone, Copy)]
enum Stop {
    Answered(Answer),
    NoRoom,
}

// How many entries were read, how many bytes they take up with their lengths, and whether reading ended by FAIL.
#[derive(Clone, Copy)]
pub struct Entries {
    pub count: usize,
    pub used: usize,
    pub whole: bool,
}

// Reads the next entry to the buffer's front, its length before it, and makes the deferred call.
// The buffer holds zeros; it has room for a length and a page, or nothing is read.
fn read_next<'a>(
    log: Log,
    volume: &'a [u8],
    page: &'a [u8],
    hold: &[u8],
    out: &mut [u8],
) -> Result<Entry, Stop>
    requires { Width log.setup.width × (out.old ≡ replicate (length out.old) 0) }
    ensures { let x = lend volume.now page.now hold.now in NextRead x (log_of log) out.old out.new (next_of result) }
{
    let width = log.setup.width;
    let p = log.setup.geometry.page_size;
    if out.len() < width || out.len() - width < p {
        return Err(Stop::NoRoom);
    }
    let given = engine_read::read::read(log, volume, page, hold, &mut out[width..], p);
    if given.answer != Answer::OK {
        return Err(Stop::Answered(given.answer));
    }
    let size = given.log.length;
    word::write_word(WordWidth { bytes: width }, out, 0, size);
    let after = handle_deferred_call(given.log, LentLengths::of(volume, page, hold));
    Ok(Entry {
        log: after.log,
        size,
    })
}

// Reads to the first answer that isn't OK, or until the buffer has no room for a length and a page more. The buffer holds zeros.
// The loop stays: each read is of the log that the one before left, and why the last one gave none is asked for, which an iterator doesn't say.
pub fn read_out<'a>(
    log: Log,
    volume: &'a [u8],
    page: &'a [u8],
    hold: &[u8],
    out: &mut [u8],
) -> Entries
    requires { Width log.setup.width × (out.old ≡ replicate (length out.old) 0) }
    ensures { let x = lend volume.now page.now hold.now in
        ReadOut x (log_of log) result.count result.used result.whole out.old out.new }
{
    let width = log.setup.width;
    let mut current = log;
    let mut count: usize = 0;
    let mut used: usize = 0;
    loop {
        match read_next(current, volume, page, hold, &mut out[used..]) {
            Ok(entry) => {
                current = entry.log;
                count += 1;
                used += width + entry.size;
            }
            Err(Stop::NoRoom) => {
                let whole = false;
                return Entries { count, used, whole };
            }
            Err(Stop::Answered(answer)) => {
                let whole = answer == Answer::FAIL;
                return Entries { count, used, whole };
            }
        }
    }
}
