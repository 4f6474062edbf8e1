// Calls on a log: document 01's cases and their neighbours.
use crate::lent::{Lent, from_start};
use crate::outcome::line;
use engine_call::outcome::Driver::{BUSY, FAIL, OK};
use engine_state::state::Log;
use page::id::EntryID;
use std::io;
use tool_print::print::Cases;

// Appends with a page buffer or a hold buffer of another length.
fn buffers(on: &Cases<impl Print>) -> io::Result<()> {
    let lent = Lent::new(on.board);
    let p = on.board.page_size();
    let fresh = from_start(on.board, on.board.words(1));
    let page = |page_len| Lent { page_len, ..lent }.append_four(fresh);
    let hold = |hold_len| Lent { hold_len, ..lent }.append_four(fresh);
    line(on, "buffers of P", lent.append_four(fresh))?;
    line(on, "page buffer of P - 1", page(p - 1))?;
    line(on, "page buffer of P + 1", page(p + 1))?;
    line(on, "no page buffer", page(0))?;
    line(on, "hold buffer of P - 1", hold(p - 1))?;
    line(on, "hold buffer of P + 1", hold(p + 1))?;
    line(on, "no hold buffer", hold(0))?;
    Ok(())
}

// Appends that fill page 0, and what becomes of the one that waits for its write.
fn fill(on: &Cases<impl Print>) -> io::Result<()> {
    let lent = Lent::new(on.board);
    let p = on.board.page_size();
    let most = on.board.words(6);
    let fresh = from_start(on.board, on.board.words(1));
    line(on, "append P - 2w", lent.append(fresh, most, OK))?;
    line(on, "append P - 2w + 1", lent.append(fresh, most + 1, OK))?;
    line(on, "append 0", lent.append(fresh, 0, OK))?;
    line(on, "append P + 1 of P", lent.append(fresh, p + 1, OK))?;
    let five = line(on, "append 5", lent.append(fresh, 5, OK))?;
    let rest = on.board.words(5) - 5;
    let full = line(on, "then to the end", lent.append(five, rest, OK))?;
    let waits = line(on, "then 1", lent.append(full, 1, OK))?;
    line(on, "append while one waits", lent.append(waits, 1, OK))?;
    line(on, "the write completes", lent.write_complete(waits, true))?;
    line(on, "the write fails", lent.write_complete(waits, false))?;
    line(on, "the driver is busy", lent.append(full, 1, BUSY))?;
    line(on, "the driver fails", lent.append(full, 1, FAIL))?;
    Ok(())
}

// Syncs of pages, fresh, nearly full and full.
fn syncs(on: &Cases<impl Print>) -> io::Result<()> {
    let lent = Lent::new(on.board);
    let from = |append| from_start(on.board, append);
    let fresh = from(on.board.words(1));
    let five = on.board.words(5);
    let nearly = line(on, "append P - 3w", lent.append(fresh, five, OK))?;
    let waits = line(on, "P - 3w, then 1", lent.append(nearly, 1, OK))?;
    let done = lent.write_complete(waits, true);
    line(on, "P - 3w, then 1, written", done)?;
    line(on, "fresh sync", lent.sync(fresh, OK))?;
    let syncing = line(on, "sync at P - w", lent.sync(nearly, OK))?;
    line(on, "sync while syncing", lent.sync(syncing, OK))?;
    line(on, "sync written", lent.write_complete(syncing, true))?;
    line(on, "sync failed", lent.write_complete(syncing, false))?;
    line(on, "sync refused", lent.sync(nearly, FAIL))?;
    let later = from(on.board.count(4, 4, 1));
    line(on, "flush of page 4", lent.sync(later, OK))?;
    let full = from(on.board.page_size());
    let whole = line(on, "sync of a full page", lent.sync(full, OK))?;
    line(on, "full page written", lent.write_complete(whole, true))?;
    let stray = lent.write_complete(nearly, true);
    line(on, "stray write completion", stray)?;
    Ok(())
}

// Seeks and the deferred call after them.
fn seeks(on: &Cases<impl Print>) -> io::Result<()> {
    let lent = Lent::new(on.board);
    let append = on.board.count(1, 2, 3);
    let first = on.board.words(1);
    let log = from_start(on.board, append);
    let sought = line(on, "seek to A", lent.seek(log, append))?;
    line(on, "seek done", lent.deferred(sought))?;
    line(on, "seek to A + 1", lent.seek(log, append + 1))?;
    line(on, "seek to O - 1", lent.seek(log, first - 1))?;
    line(on, "seek while seeking", lent.seek(sought, first))?;
    line(on, "deferred call in idle", lent.deferred(log))?;
    Ok(())
}

// Reads over two pages to the end, and those that are refused.
fn reads(on: &Cases<impl Print>) -> io::Result<()> {
    let lent = Lent::new(on.board);
    let append = on.board.count(1, 2, 3);
    let most = on.board.words(6);
    let least = on.board.words(5) - 1;
    let log = from_start(on.board, append);
    let one = line(on, "read", lent.read(log, most))?;
    let idle = line(on, "read done", lent.deferred(one))?;
    let two = line(on, "read past the padding", lent.read(idle, most))?;
    let last = line(on, "read done", lent.deferred(two))?;
    line(on, "read at the end", lent.read(last, most))?;
    line(on, "read into too little", lent.read(log, least))?;
    line(on, "read more than the buffer", lent.read(log, most + 1))?;
    let at = |id| Log {
        read_entry_id: EntryID(id),
        ..log
    };
    line(on, "R beyond A", lent.read(at(append + 1), most))?;
    let middle = at(on.board.count(0, 2, 1));
    line(on, "R in the middle of an entry", lent.read(middle, most))?;
    Ok(())
}

// Erases of the two pages below A, in each way that one can end.
fn erases(on: &Cases<impl Print>) -> io::Result<()> {
    let lent = Lent::new(on.board);
    let log = from_start(on.board, on.board.count(1, 2, 3));
    let starts = line(on, "erase", lent.erase(log, OK))?;
    let done = |log, word| lent.erase_complete(log, true, word);
    let next = line(on, "page 0 erased", done(starts, OK))?;
    line(on, "page 1 erased", done(next, OK))?;
    let failed = lent.erase_complete(starts, false, OK);
    line(on, "erase failed", failed)?;
    line(on, "erase refused in the middle, BUSY", done(starts, BUSY))?;
    line(on, "erase refused in the middle, FAIL", done(starts, FAIL))?;
    line(on, "erase refused, BUSY", lent.erase(log, BUSY))?;
    let refused = line(on, "erase refused, FAIL", lent.erase(log, FAIL))?;
    line(on, "erase after a refusal", lent.erase(refused, OK))?;
    line(on, "stray erase completion", done(log, OK))?;
    Ok(())
}

// All of these.
pub(crate) fn cases(on: &Cases<impl Print>) -> io::Result<()> {
    buffers(on)?;
    fill(on)?;
    syncs(on)?;
    seeks(on)?;
    reads(on)?;
    erases(on)
}
