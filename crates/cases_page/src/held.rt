// The bytes at a position, the next entry and its length, with the append ID in page 1.
ghost use Rattle.std.specs.Prelude.{◌≡◌, ◌*◌, ◌<◌, ◌≤◌};

use page::id::EntryID;
use page_lookup::held::{Pages, entry_length};
use std::io;
use tool_print::board::Board;
use tool_print::print::Cases;

// Page 0 on flash and page 1 in the buffer, each at the front of some bytes, with an append ID.
fn pages<'a>(board: Board, volume: &'a [u8; 256], buffer: &'a [u8; 64], append: usize) -> Pages<'a>
    requires { 0 < append }
    ensures { (result.append_entry_id.0 ≡ append) × (result.width ≡ board.width) × (result.page_size ≡ 8 * board.width.bytes) }
{
    Pages {
        width: board.width,
        volume: &volume[..board.volume_size()],
        pagebuffer: &buffer[..board.page_size()],
        page_size: board.page_size(),
        append_entry_id: EntryID(append),
    }
}

// A line with the byte at a position.
fn byte(on: &Cases<impl Print>, pages: Pages<'_>, position: usize) -> io::Result<()> {
    let append = pages.append_entry_id.0;
    let value = format_args!("{append} {position} {}", pages.get_byte(EntryID(position)));
    on.line("append ID, position, byte", value)
}

// A line with the place of the next entry and its length.
#[tactic(auto, using(page::proofs::Kit::wide))]
fn next(on: &Cases<impl Print>, pages: Pages<'_>, read: usize) -> io::Result<()>
    requires { (read ≤ 20000) × (2 * pages.width.bytes ≤ pages.page_size) }
{
    let append = pages.append_entry_id.0;
    let label = "append ID, read ID, place, length";
    let Some(id) = pages.get_next_entry(EntryID(read)) else {
        return on.line(label, format_args!("{append} {read} end"));
    };
    match entry_length(pages.get_entry(id)) {
        Some(n) => on.line(label, format_args!("{append} {read} {} {n}", id.0)),
        None => on.line(label, format_args!("{append} {read} {} bad", id.0)),
    }
}

// Page 0 has an entry of P - 3w, page 1 one of 3 and one to its end.
pub(crate) fn cases(on: &Cases<impl Print>) -> io::Result<()> {
    let board = on.board;
    let mut volume = [255; 256];
    board.page(&mut volume, 0, board.words(5));
    let mut buffer = [0; 64];
    board.page(&mut buffer, board.page_size(), 3);
    board.sevens(&mut buffer, board.count(0, 2, 3), board.words(5) - 3);
    let middle = pages(board, &volume, &buffer, board.count(1, 2, 3));
    let two = pages(board, &volume, &buffer, board.count(2, 0, 0));
    let one = pages(board, &volume, &buffer, board.page_size());
    let first = board.words(1);
    let second = board.count(1, 1, 0);
    byte(on, middle, first)?;
    byte(on, middle, second)?;
    byte(on, two, second)?;
    byte(on, one, first)?;
    next(on, middle, 0)?;
    next(on, middle, first)?;
    next(on, middle, board.words(7))?;
    next(on, middle, middle.append_entry_id.0)?;
    next(on, two, middle.append_entry_id.0)?;
    next(on, two, two.append_entry_id.0)?;
    next(on, two, board.words(2))?;
    next(on, two, two.append_entry_id.0 - 2)
}
