// States and arguments at their limits and past them.
use crate::lent::{Lent, from_start};
use crate::outcome::line;
use engine_call::outcome::Driver::OK;
use engine_state::state::{Clients, Geometry, Log, Setup, State};
use page::id::EntryID;
use std::io;
use tool_print::print::Cases;

// An append of one byte.
fn append(on: &Cases<impl Print>, label: &str, log: Log) -> io::Result<()> {
    line(on, label, Lent::new(on.board).append(log, 1, OK))?;
    Ok(())
}

// Other append IDs.
fn append_ids(on: &Cases<impl Print>) -> io::Result<()> {
    let board = on.board;
    let p = board.page_size();
    let w = board.words(1);
    let c = board.ceiling();
    let at = |append| from_start(board, append);
    let last = EntryID(c - p + w);
    let limit = Log {
        oldest_entry_id: last,
        read_entry_id: last,
        ..at(c)
    };
    append(on, "A = 0", at(0))?;
    append(on, "A at offset 0", at(p))?;
    append(on, "A at offset 1", at(p + 1))?;
    append(on, "A at offset w - 1", at(p + w - 1))?;
    append(on, "A at offset w", at(p + w))?;
    append(on, "A at the ceiling", limit)?;
    append(on, "A above the ceiling", at(c + 1))?;
    append(on, "A above the ceiling, at offset w", at(c + w))?;
    append(on, "A the largest number", at(usize::MAX))
}

// Other oldest IDs, and other IDs to read.
fn other_ids(on: &Cases<impl Print>) -> io::Result<()> {
    let board = on.board;
    let p = board.page_size();
    let w = board.words(1);
    let c = board.ceiling();
    let log = from_start(board, p + w);
    let oldest = |id| Log {
        oldest_entry_id: EntryID(id),
        ..log
    };
    let read = |id| Log {
        read_entry_id: EntryID(id),
        ..log
    };
    let both = |id| Log {
        read_entry_id: EntryID(id),
        ..oldest(id)
    };
    append(on, "O = 0", oldest(0))?;
    append(on, "O at offset w - 1", oldest(w - 1))?;
    append(on, "O at offset w + 1", both(w + 1))?;
    append(on, "O = A", both(p + w))?;
    append(on, "O above A", oldest(2 * p + w))?;
    append(on, "O above the ceiling", oldest(c + w))?;
    append(on, "O the largest number", oldest(usize::MAX))?;
    append(on, "R = 0", read(0))?;
    append(on, "R at the ceiling", read(c))?;
    append(on, "R above the ceiling", read(c + 1))?;
    append(on, "R the largest number", read(usize::MAX))
}

// Logs of other sizes.
fn geometry(on: &Cases<impl Print>) -> io::Result<()> {
    let board = on.board;
    let p = board.page_size();
    let log = from_start(board, board.words(1));
    let with = |geometry| Log {
        setup: Setup {
            geometry,
            ..log.setup
        },
        ..log
    };
    let sized = |page_size, page_count| {
        with(Geometry {
            page_size,
            page_count,
            ..log.setup.geometry
        })
    };
    let from = |first_page| {
        with(Geometry {
            first_page,
            ..log.setup.geometry
        })
    };
    append(on, "P = 0", sized(0, 4))?;
    append(on, "P of 4 words", sized(board.words(4), 8))?;
    append(on, "P of 16 words", sized(board.words(16), 2))?;
    append(on, "P the largest number", sized(usize::MAX, 4))?;
    append(on, "N = 0", sized(p, 0))?;
    append(on, "N = 3", sized(p, 3))?;
    append(on, "N = 5", sized(p, 5))?;
    append(on, "N the largest number", sized(p, usize::MAX))?;
    append(on, "first page 0", from(0))?;
    append(on, "first page 16777215", from(16777215))?;
    append(on, "first page 16777216", from(16777216))?;
    append(on, "first page the largest number", from(usize::MAX))
}

// States and kept lengths.
fn states(on: &Cases<impl Print>) -> io::Result<()> {
    let board = on.board;
    let lent = Lent::new(board);
    let most = board.words(6);
    let log = from_start(board, board.count(1, 1, 0));
    let kept = |state, length| Log {
        state,
        length,
        ..log
    };
    let over = most + 1;
    let largest = usize::MAX;
    append(on, "P - 2w kept", kept(State::Idle, most))?;
    append(on, "P - 2w + 1 kept", kept(State::Idle, over))?;
    append(on, "the largest number kept", kept(State::Idle, largest))?;
    append(on, "append, 0 kept", kept(State::Append, 0))?;
    append(on, "append, 1 kept", kept(State::Append, 1))?;
    append(on, "append, P - 2w kept", kept(State::Append, most))?;
    append(on, "append, P - 2w + 1 kept", kept(State::Append, over))?;
    append(on, "append in Read", kept(State::Read, 0))?;
    append(on, "append in Seek", kept(State::Seek, 0))?;
    append(on, "append in Sync", kept(State::Sync, 0))?;
    append(on, "append in Erase", kept(State::Erase, 0))?;
    let deferred = |state, length| lent.deferred(kept(state, length));
    line(on, "deferred call in Append", deferred(State::Append, 1))?;
    line(on, "deferred call in Sync", deferred(State::Sync, 0))?;
    line(on, "deferred call in Erase", deferred(State::Erase, 0))?;
    Ok(())
}

// Calls that want a client which is not set.
fn clients(on: &Cases<impl Print>) -> io::Result<()> {
    let lent = Lent::new(on.board);
    let a = on.board.count(1, 2, 3);
    let log = from_start(on.board, a);
    let no_append = Log {
        clients: Clients {
            append: false,
            ..log.clients
        },
        ..log
    };
    let no_read = Log {
        clients: Clients {
            read: false,
            ..log.clients
        },
        ..log
    };
    append(on, "append, no append client", no_append)?;
    line(on, "seek, no append client", lent.seek(no_append, a))?;
    append(on, "append, no read client", no_read)?;
    line(on, "seek, no read client", lent.seek(no_read, a))?;
    let read = lent.read(no_read, on.board.words(6));
    line(on, "read, no read client", read)?;
    Ok(())
}

// Other lengths, and other IDs to seek.
fn lengths(on: &Cases<impl Print>) -> io::Result<()> {
    let lent = Lent::new(on.board);
    let log = from_start(on.board, on.board.count(1, 2, 3));
    let longest = on.board.largest_word() - on.board.words(1);
    let append = |n| lent.append(log, n, OK);
    let read = |n| lent.read(log, n);
    let seek = |id| lent.seek(log, id);
    line(on, "append the largest word less w", append(longest))?;
    line(on, "append one byte more", append(longest + 1))?;
    line(on, "append 4294967296", append(4294967296))?;
    line(on, "append the largest number", append(usize::MAX))?;
    line(on, "read 0", read(0))?;
    line(on, "read the largest word less w", read(longest))?;
    line(on, "read the largest number", read(usize::MAX))?;
    line(on, "seek to 0", seek(0))?;
    line(on, "seek to the largest number", seek(usize::MAX))?;
    Ok(())
}

// Appends to a plain log, by its A and their length.
fn plain(on: &Cases<impl Print>) -> io::Result<()> {
    let board = on.board;
    let lent = Lent::new(board);
    let most = board.words(6);
    let p = board.page_size();
    let at = |a, n| {
        let log = from_start(board, a);
        let setup = Setup {
            circular: false,
            ..log.setup
        };
        lent.append(Log { setup, ..log }, n, OK)
    };
    let third = board.count(3, 1, 0);
    line(on, "plain log at L", at(4 * p, 1))?;
    line(on, "plain log at 3P + w, P - 2w", at(third, most))?;
    line(on, "plain log at 3P + w, P - 2w - 1", at(third, most - 1))?;
    line(on, "plain log at 3P, 1", at(3 * p, 1))?;
    line(on, "plain log at the ceiling", at(board.ceiling(), 1))?;
    Ok(())
}

// All of these.
pub(crate) fn cases(on: &Cases<impl Print>) -> io::Result<()> {
    append_ids(on)?;
    other_ids(on)?;
    geometry(on)?;
    states(on)?;
    clients(on)?;
    lengths(on)?;
    plain(on)
}
