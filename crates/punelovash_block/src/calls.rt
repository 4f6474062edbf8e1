// The calls, on a block. What is lent stays parameters, for the reason at engine_call's ReadyLog.
ghost use Rattle.std.specs.Prelude.{◌≡◌};
ghost use Rattle.std.proofs.Math.ListN as lists;
ghost use Rattle.engine_call.specs.Outcome.{Lent, lend};
ghost use Rattle.engine_call.specs.Call as c;
ghost use Rattle.punelovash_block.specs.Block.{is_set, word_from, setup_at};
ghost use Rattle.punelovash_block.specs.Call.{block_done, call_block, complete_block, read_block, AsIfLent, RunsBySizes};

use crate::{block, numbers};
use engine_call::outcome::Outcome;
use engine_erase::erase;
use engine_read::{deferred, read, seek};
use engine_restart::board_word::Word;
use engine_state::fits::LentLengths;
use engine_state::state::Log;
use engine_write::{append, sync, write_complete};
use page::id::EntryID;

// A call that looks at sizes alone, so that nothing but the block is lent: it runs on the log that the block holds, and the block takes what it gave.
// The calls that are lent more have a match each: of a buffer that a closure changes nothing is known afterwards, and passed to it they have three shapes.
#[tactic(auto, using(crate::proofs::Blocks::loaded_size))]
fn by_sizes<W: Word, F: FnOnce(Log, LentLengths) -> Outcome>(block: &mut [u8], call: F) -> u32
    requires { F.IsAlwaysCallable call }
    ensures { RunsBySizes W.WIDTH block.old (F.post call) result block.new }
{
    match block::load::<W>(block) {
        Some(log) => {
            let lent = block::as_if_lent(block::setup_at::<W>(block));
            block::save::<W>(&call(log, lent), block)
        }
        None => numbers::answer_number(block::no_log::<W>(block)),
    }
}

// Appends the first `length` bytes of `data`.
#[tactic(auto, using(crate::proofs::Blocks::loaded_size))]
pub fn append<W: Word>(
    block: &mut [u8],
    volume: &[u8],
    page: &mut [u8],
    hold: &mut [u8],
    data: &[u8],
    length: usize,
    word: u8,
) -> u32
    ensures { block_done result block.new page.new hold.new
        ≡ call_block W.WIDTH block.old (lend volume.now page.old hold.old)
        (c.append «data».now length (word_from word)) }
{
    match block::load_lent::<W>(block, LentLengths::of(volume, page, hold)) {
        Ok(log) => {
            let said = numbers::word_from(word);
            let given = append::append(log, volume, page, hold, data, length, said);
            block::save::<W>(&given, block)
        }
        Err(why) => block::refuse::<W>(why, block),
    }
}

// Reads the next entry, of at most `length` bytes, into `buffer`. Of the hold buffer a read looks at the length alone, which has to be the page buffer's:
// the page buffer stands in for it.
#[tactic(auto, using(crate::proofs::Blocks::loaded_size))]
pub fn read<'a, W: Word>(
    block: &mut [u8],
    volume: &'a [u8],
    page: &'a [u8],
    buffer: &mut [u8],
    length: usize,
) -> u32
    ensures { let x = lend volume.now page.now page.now in
        (block_done result block.new x.page x.hold ≡ call_block W.WIDTH block.old x (c.read (lists.length buffer.old) length))
        × (buffer.new ≡ read_block W.WIDTH block.old x buffer.old length) }
{
    match block::load_lent::<W>(block, LentLengths::of(volume, page, page)) {
        Ok(log) => {
            let given = read::read(log, volume, page, page, buffer, length);
            block::save::<W>(&given, block)
        }
        Err(why) => block::refuse::<W>(why, block),
    }
}

// The next entry to read is the one at `entry_id`.
pub fn seek<W: Word>(block: &mut [u8], entry_id: usize) -> u32
    ensures { (x : Lent) → AsIfLent (setup_at W.WIDTH block.old) x
        → block_done result block.new x.page x.hold ≡ call_block W.WIDTH block.old x (c.seek entry_id) }
{
    by_sizes::<W, _>(block, |log, lent| seek::seek(log, lent, EntryID(entry_id)))
}

// Writes the page buffer to flash.
#[tactic(auto, using(crate::proofs::Blocks::loaded_size))]
pub fn sync<W: Word>(block: &mut [u8], volume: &[u8], page: &mut [u8], hold: &[u8], word: u8) -> u32
    ensures { block_done result block.new page.new hold.now
        ≡ call_block W.WIDTH block.old (lend volume.now page.old hold.now) (c.sync (word_from word)) }
{
    match block::load_lent::<W>(block, LentLengths::of(volume, page, hold)) {
        Ok(log) => {
            let given = sync::sync(log, volume, page, hold, numbers::word_from(word));
            block::save::<W>(&given, block)
        }
        Err(why) => block::refuse::<W>(why, block),
    }
}

// Erases the log.
pub fn erase<W: Word>(block: &mut [u8], word: u8) -> u32
    ensures { (x : Lent) → AsIfLent (setup_at W.WIDTH block.old) x
        → block_done result block.new x.page x.hold ≡ call_block W.WIDTH block.old x (c.erase (word_from word)) }
{
    by_sizes::<W, _>(
        block,
        |log, lent| erase::erase(log, lent, numbers::word_from(word)),
    )
}

// The flash has completed a write; `good` is 0 where it failed.
#[tactic(auto, using(crate::proofs::Blocks::loaded_size))]
pub fn write_complete<W: Word>(
    block: &mut [u8],
    volume: &[u8],
    page: &mut [u8],
    hold: &[u8],
    good: u8,
) -> u32
    ensures { block_done result block.new page.new hold.now
        ≡ complete_block W.WIDTH block.old (lend volume.now page.old hold.now) (c.write_ended (is_set good)) }
{
    match block::load_lent::<W>(block, LentLengths::of(volume, page, hold)) {
        Ok(log) => {
            let given = write_complete::write_complete(log, volume, page, hold, good != 0);
            block::save::<W>(&given, block)
        }
        Err(why) => block::refuse::<W>(why, block),
    }
}

// The flash has completed an erase; `good` is 0 where it failed.
#[tactic(auto, using(crate::proofs::Blocks::loaded_size))]
pub fn erase_complete<W: Word>(
    block: &mut [u8],
    volume: &[u8],
    page: &mut [u8],
    hold: &[u8],
    good: u8,
    word: u8,
) -> u32
    ensures { block_done result block.new page.new hold.now
        ≡ complete_block W.WIDTH block.old (lend volume.now page.old hold.now)
        (c.erase_ended (is_set good) (word_from word)) }
{
    match block::load_lent::<W>(block, LentLengths::of(volume, page, hold)) {
        Ok(log) => {
            let said = numbers::word_from(word);
            let given = erase::erase_complete(log, volume, page, hold, good != 0, said);
            block::save::<W>(&given, block)
        }
        Err(why) => block::refuse::<W>(why, block),
    }
}

// The deferred call, which reports a read or a seek.
pub fn deferred_call<W: Word>(block: &mut [u8]) -> u32
    ensures { (x : Lent) → AsIfLent (setup_at W.WIDTH block.old) x
        → block_done result block.new x.page x.hold ≡ call_block W.WIDTH block.old x c.deferred }
{
    by_sizes::<W, _>(block, |log, lent| deferred::handle_deferred_call(log, lent))
}
