// Restarts.
use crate::volume;
use engine_restart::restart::restart;
use engine_state::answer::Answer;
use engine_state::state::{Clients, Geometry, Log, Setup};
use std::io;
use tool_print::board::{Board, PAGES};
use tool_print::print::Cases;

// The sizes of so many pages.
pub(crate) fn of_pages(board: Board, page_count: usize) -> Geometry {
    Geometry {
        page_size: board.page_size(),
        page_count,
        first_page: 0,
    }
}

// A restart with buffers of P.
pub(crate) fn restarted(
    board: Board,
    geometry: Geometry,
    circular: bool,
    clients: Clients,
    volume: &[u8],
    page: &mut [u8; 64],
) -> Result<Log, Answer> {
    let p = board.page_size();
    let setup = Setup {
        width: board.width.bytes,
        geometry,
        circular,
    };
    restart(setup, clients, volume, &mut page[..p], &[2; 64][..p])
}

// A restart with both clients set: its answer, O, R and A, and the page buffer.
fn sized(
    on: &Cases<impl Print>,
    label: &str,
    geometry: Geometry,
    circular: bool,
    volume: &[u8],
) -> io::Result<()> {
    let mut page = [1; 64];
    match restarted(
        on.board,
        geometry,
        circular,
        Clients::BOTH,
        volume,
        &mut page,
    ) {
        Ok(log) => {
            let oldest = log.oldest_entry_id.0;
            let read = log.read_entry_id.0;
            let append = log.append_entry_id.0;
            let ok = u8::from(Answer::OK);
            on.line(label, format_args!("{ok} {oldest} {read} {append}"))?;
        }
        Err(answer) => on.line(label, u8::from(answer))?,
    }
    on.bytes("  page buffer", &page[..on.board.page_size()])
}

// The same on a volume of four pages.
fn four(on: &Cases<impl Print>, label: &str, circular: bool, volume: &[u8; 256]) -> io::Result<()> {
    let board = on.board;
    let geometry = of_pages(board, PAGES);
    sized(
        on,
        label,
        geometry,
        circular,
        &volume[..board.volume_size()],
    )
}

// A volume with one page, empty, nearly full and full.
fn fill(on: &Cases<impl Print>) -> io::Result<()> {
    let board = on.board;
    let full = volume::one(board, board.words(6));
    let one = of_pages(board, 1);
    let page = &full[..board.page_size()];
    four(on, "restart on an erased volume", true, &[255; 256])?;
    four(on, "restart on zeros", true, &[0; 256])?;
    let nearly = volume::one(board, board.words(5));
    four(on, "restart, page 0 with P - 3w", true, &nearly)?;
    four(on, "restart, page 0 full", true, &full)?;
    four(on, "restart, plain, page 0 full", false, &full)?;
    sized(on, "restart, N = 1, plain, page 0 full", one, false, page)?;
    sized(on, "restart, N = 1, page 0 full", one, true, page)
}

// Restarts on volumes of four pages, each with one entry.
fn laps(on: &Cases<impl Print>) -> io::Result<()> {
    let board = on.board;
    let p = board.page_size();
    let ceiling = board.ceiling();
    let none = board.largest_word();
    let ten = |ids| volume::pages(board, ids, 10);
    let full = |ids| volume::pages(board, ids, board.words(6));
    let wrapped = [4 * p, 5 * p, 2 * p, 3 * p];
    let first = [0, p, 2 * p, 3 * p];
    let apart = [0, p, 10 * p, 3 * p];
    let below = [none, none, none, ceiling - p];
    let above = [ceiling, p, none, none];
    let whole = "restart on a wrapped and full volume";
    four(on, "restart on a wrapped volume", true, &ten(wrapped))?;
    four(on, whole, true, &full(wrapped))?;
    four(on, "restart, plain and full", false, &full(first))?;
    four(on, "restart on pages two laps apart", true, &ten(apart))?;
    let last = "restart, header just below C, full";
    four(on, last, true, &full(below))?;
    four(on, "restart, header just below C", true, &ten(below))?;
    four(on, "restart, header at C", true, &ten(above))
}

// Page 0 with an entry of 3 bytes and then a length word.
fn then(on: &Cases<impl Print>, label: &str, word: usize) -> io::Result<()> {
    let board = on.board;
    let mut volume = volume::one(board, 3);
    board.word(&mut volume, board.count(0, 2, 3), word);
    four(on, label, true, &volume)
}

// A page that ends in a length word.
fn broken(on: &Cases<impl Print>) -> io::Result<()> {
    let left = on.board.words(5);
    let largest = on.board.largest_word();
    then(on, "restart, then a zero", 0)?;
    then(on, "restart, then one byte too long", left - 2)?;
    then(on, "restart, then to the end", left - 3)?;
    then(on, "restart, then a length that would wrap", largest - 11)?;
    then(on, "restart, then a length of 256", 256)
}

// Other sizes, on an erased volume of L bytes.
fn erased(on: &Cases<impl Print>, label: &str, geometry: Geometry) -> io::Result<()> {
    let size = on.board.volume_size();
    sized(on, label, geometry, true, &[255; 256][..size])
}

// Sizes that do not fit, and the greatest first page that does.
fn refused(on: &Cases<impl Print>) -> io::Result<()> {
    let board = on.board;
    let pages = |words, page_count| Geometry {
        page_size: board.words(words),
        page_count,
        first_page: 0,
    };
    let from = |first_page| Geometry {
        first_page,
        ..of_pages(board, PAGES)
    };
    erased(on, "restart, P of 6 words", pages(6, 4))?;
    erased(on, "restart, P of 2 words", pages(2, 16))?;
    erased(on, "restart, N = 0", pages(8, 0))?;
    erased(on, "restart, N = 3 on 4 pages", pages(8, 3))?;
    erased(on, "restart, twice P and a page buffer of P", pages(16, 2))?;
    erased(on, "restart, first flash page 16777215", from(16777215))?;
    erased(on, "restart, first flash page 16777216", from(16777216))
}

// All of these.
pub(crate) fn cases(on: &Cases<impl Print>) -> io::Result<()> {
    fill(on)?;
    laps(on)?;
    broken(on)?;
    refused(on)
}
