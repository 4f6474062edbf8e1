// The searches among the marks and the reader, on a block. Of the hold buffer only the length would be looked at, which has to be the page buffer's: the
// page buffer stands in for it.
ghost use Rattle.std.specs.Prelude.{◌≡◌};
ghost use Rattle.engine_call.specs.Outcome.{lend};
ghost use Rattle.engine_marks.specs.Searched.{refused, refusal_of};
ghost use Rattle.punelovash_block.specs.Call.{no_log};
ghost use Rattle.punelovash_block.specs.Search.{nearest_block, between_block, next_block, value_done, value_of, next_numbers, next_done, step_done};

use crate::{block, numbers};
use engine_marks::between::Stamps;
use engine_marks::refusal::Refusal;
use engine_marks::{between, nearest, reader};
use engine_restart::board_word::Word;
use engine_state::answer::Answer;
use engine_state::fits::LentLengths;
use page::id::EntryID;

// The answer to a block that holds no log.
fn no_log<W: Word>(block: &[u8], volume: &[u8], page: &[u8]) -> u32
    ensures { result ≡ no_log W.WIDTH block.now (lend volume.now page.now page.now) }
{
    let lent = LentLengths::of(volume, page, page);
    numbers::answer_number(block::no_log_lent::<W>(block, lent))
}

// A search's refusal: one at an entry gives its ID.
fn refuse(refusal: Refusal, value: &mut usize) -> u32
    ensures { value_done result value.new ≡ value_of value.old (refused (refusal_of refusal)) }
{
    if let Refusal::NoMark(id) = refusal {
        *value = id.0;
    }
    u32::from(u8::from(refusal))
}

// The mark that is nearest to a stamp: its ID goes to `entry_id`.
pub fn nearest<'a, W: Word>(
    block: &[u8],
    volume: &'a [u8],
    page: &'a [u8],
    stamp: u32,
    entry_id: &mut usize,
) -> u32
    ensures { value_done result entry_id.new ≡ value_of entry_id.old (nearest_block W.WIDTH block.now volume.now page.now stamp) }
{
    let Some(log) = block::load::<W>(block) else {
        return no_log::<W>(block, volume, page);
    };
    match nearest::nearest(log, volume, page, stamp) {
        Ok(id) => {
            *entry_id = id.0;
            numbers::answer_number(Answer::OK)
        }
        Err(refusal) => refuse(refusal, entry_id),
    }
}

// The marks whose stamps lie between two, both included: their IDs go to `ids`, and their count to `value`, or the ID of an entry that is no mark.
pub fn between<'a, W: Word>(
    block: &[u8],
    volume: &'a [u8],
    page: &'a [u8],
    first: u32,
    last: u32,
    ids: &mut [u64],
    value: &mut usize,
) -> u32
    ensures { let d = between_block W.WIDTH block.now volume.now page.now (record { first = first; last = last }) ids.old in
        (value_done result value.new ≡ value_of value.old d.answer) × (ids.new ≡ d.ids) }
{
    let Some(log) = block::load::<W>(block) else {
        return no_log::<W>(block, volume, page);
    };
    match between::between(log, volume, page, Stamps { first, last }, ids) {
        Ok(count) => {
            *value = count;
            numbers::answer_number(Answer::OK)
        }
        Err(refusal) => refuse(refusal, value),
    }
}

// The first entry at an ID or past it: its ID, its length and the ID after it. FAIL at the end.
pub fn next_entry<'a, W: Word>(
    block: &[u8],
    volume: &'a [u8],
    page: &'a [u8],
    at: usize,
    entry_id: &mut usize,
    length: &mut usize,
    end: &mut usize,
) -> u32
    ensures { next_done result entry_id.new length.new end.new
        ≡ step_done (next_numbers entry_id.old length.old end.old) (next_block W.WIDTH block.now volume.now page.now at) }
{
    let Some(log) = block::load::<W>(block) else {
        return no_log::<W>(block, volume, page);
    };
    match reader::next_entry(log, volume, page, EntryID(at)) {
        Ok(Some(entry)) => {
            *entry_id = entry.entry_id.0;
            *length = entry.length;
            *end = entry.end.0;
            numbers::answer_number(Answer::OK)
        }
        Ok(None) => numbers::answer_number(Answer::FAIL),
        Err(answer) => numbers::answer_number(answer),
    }
}
