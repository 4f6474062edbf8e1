// The calls, on a log and on what they are lent.
use engine_call::outcome::{Driver, Outcome};
use engine_restart::restart;
use engine_state::fits::LentLengths;
use engine_state::state::{Clients, Geometry, Log, Setup};
use page::id::EntryID;
use tool_print::board::{Board, PAGES};

// A circular log at rest that starts with page 0, with this A.
pub(crate) fn from_start(board: Board, append: usize) -> Log {
    let setup = Setup {
        width: board.width.bytes,
        geometry: Geometry {
            page_size: board.page_size(),
            page_count: PAGES,
            first_page: 100,
        },
        circular: true,
    };
    let first = EntryID(board.words(1));
    restart::at_rest(setup, Clients::BOTH, first, EntryID(append))
}

// What the calls are lent: an erased volume, and a page buffer and a hold buffer of zeros, of these lengths up to 65.
#[derive(Clone, Copy)]
pub(crate) struct Lent {
    pub board: Board,
    pub page_len: usize,
    pub hold_len: usize,
}

impl Lent {
    // Buffers of P.
    pub(crate) fn new(board: Board) -> Self {
        Lent {
            board,
            page_len: board.page_size(),
            hold_len: board.page_size(),
        }
    }

    // A call on the volume, the page buffer and the hold buffer.
    fn call<F: FnOnce(&[u8], &mut [u8], &mut [u8]) -> Outcome>(self, call: F) -> Outcome
        requires { F.IsAlwaysCallable call }
    {
        let volume = [255; 256];
        let mut page = [0; 65];
        let mut hold = [0; 65];
        call(
            &volume[..self.board.volume_size()],
            &mut page[..self.page_len.min(65)],
            &mut hold[..self.hold_len.min(65)],
        )
    }

    // An append of the first n bytes of a client's buffer.
    fn append_from(self, log: Log, data: &[u8], n: usize, word: Driver) -> Outcome {
        self.call(|volume, page, hold| {
            engine_write::append::append(log, volume, page, hold, data, n, word)
        })
    }

    // An append of the first n bytes of P.
    pub(crate) fn append(self, log: Log, n: usize, word: Driver) -> Outcome {
        let data = [7; 64];
        self.append_from(log, &data[..self.board.page_size()], n, word)
    }

    // An append of all bytes of a client's buffer of 4.
    pub(crate) fn append_four(self, log: Log) -> Outcome {
        self.append_from(log, &[7; 4], 4, Driver::OK)
    }

    // A sync.
    pub(crate) fn sync(self, log: Log, word: Driver) -> Outcome {
        self.call(|volume, page, hold| engine_write::sync::sync(log, volume, page, hold, word))
    }

    // The completion of a write, good or not.
    pub(crate) fn write_complete(self, log: Log, good: bool) -> Outcome {
        self.call(|volume, page, hold| {
            engine_write::write_complete::write_complete(log, volume, page, hold, good)
        })
    }

    // The lengths of what is lent, for the calls that are told them alone.
    fn lengths(self) -> LentLengths {
        LentLengths {
            volume: self.board.volume_size(),
            page: self.page_len,
            hold: self.hold_len,
        }
    }

    // An erase, which looks at no bytes, as a seek and a deferred call don't.
    pub(crate) fn erase(self, log: Log, word: Driver) -> Outcome {
        engine_erase::erase::erase(log, self.lengths(), word)
    }

    // The completion of an erase, good or not.
    pub(crate) fn erase_complete(self, log: Log, good: bool, word: Driver) -> Outcome {
        self.call(|volume, page, hold| {
            engine_erase::erase::erase_complete(log, volume, page, hold, good, word)
        })
    }

    // A seek to an ID.
    pub(crate) fn seek(self, log: Log, id: usize) -> Outcome {
        engine_read::seek::seek(log, self.lengths(), EntryID(id))
    }

    // A deferred call.
    pub(crate) fn deferred(self, log: Log) -> Outcome {
        engine_read::deferred::handle_deferred_call(log, self.lengths())
    }

    // A read with page 0 with an entry of P - 3w on flash, page 1 with one of 3 in the buffer, and a client's buffer of P - 2w.
    pub(crate) fn read(self, log: Log, n: usize) -> Outcome {
        let board = self.board;
        let mut buffer = [0; 48];
        let buffer = &mut buffer[..board.words(6)];
        self.call(|_, page, hold| {
            let mut volume = [255; 256];
            board.page(&mut volume, 0, board.words(5));
            board.page(page, board.page_size(), 3);
            let volume = &volume[..board.volume_size()];
            engine_read::read::read(log, volume, page, hold, buffer, n)
        })
    }
}
