// Walks of a page: where each stops, how many length words it read, and how many entries it passed over.
use page::walk::PageWalk;
use std::io;
use tool_print::board::Board;
use tool_print::print::Cases;

// The walk of the page at the front of some bytes.
fn walk(board: Board, bytes: &[u8; 64]) -> PageWalk {
    page::walk::walk(board.width, &bytes[..board.page_size()])
}

// A page with one entry, and a second one where its length fits.
fn entries(board: Board, n: usize, m: usize) -> PageWalk {
    let mut page = [0; 64];
    let at = board.sevens(&mut page, board.words(1), n);
    board.sevens(&mut page, at, m);
    walk(board, &page)
}

// A page with one entry and its tail padded.
fn padded(board: Board, n: usize) -> [u8; 64] {
    let mut page = [0; 64];
    let at = board.sevens(&mut page, board.words(1), n);
    page::layout::pad(&mut page, at);
    page
}

// An entry of 3 bytes, then a length word.
fn then(board: Board, word: usize) -> PageWalk {
    let mut page = [255; 64];
    let at = board.sevens(&mut page, board.words(1), 3);
    board.word(&mut page, at, word);
    walk(board, &page)
}

// An entry that ends 2 bytes before the page's end.
fn near_the_end(board: Board) -> PageWalk {
    let mut page = [1; 64];
    board.word(&mut page, board.words(1), board.words(6) - 2);
    walk(board, &page)
}

fn show(on: &Cases<impl Print>, label: &str, walk: PageWalk) -> io::Result<()> {
    let value = format_args!("{} {} {}", walk.length, walk.words, walk.entries);
    on.line(label, value)
}

// Pages of entries alone, full and padded, and pages without one.
fn whole(on: &Cases<impl Print>) -> io::Result<()> {
    let board = on.board;
    let left = board.words(5);
    show(on, "walk of P - 2w", entries(board, board.words(6), 0))?;
    show(
        on,
        "walk of 5, then to the end",
        entries(board, 5, left - 5),
    )?;
    let page = padded(board, left);
    show(on, "walk of P - 3w, padded by w", walk(board, &page))?;
    on.bytes("that page", &page[..board.page_size()])?;
    show(on, "walk of zeros", walk(board, &[0; 64]))?;
    show(on, "walk of an erased page", walk(board, &[255; 64]))
}

// All of these, length words of every kind after an entry, and slices that are no page.
pub(crate) fn cases(on: &Cases<impl Print>) -> io::Result<()> {
    whole(on)?;
    let board = on.board;
    let (left, largest) = (board.words(5), board.largest_word());
    show(on, "walk of 3, then padding", then(board, largest))?;
    show(on, "walk of 3, then a zero", then(board, 0))?;
    show(
        on,
        "walk of 3, then one byte too long",
        then(board, left - 2),
    )?;
    show(on, "walk of 3, then to the end", then(board, left - 3))?;
    let wraps = "walk of 3, then a length that would wrap";
    show(on, wraps, then(board, largest - 11))?;
    show(on, "walk of 3, then a length of 256", then(board, 256))?;
    show(on, "walk to where no length word fits", near_the_end(board))?;
    let of = |bytes: &[u8]| page::walk::walk(board.width, bytes);
    show(on, "walk of no byte", of(&[]))?;
    show(on, "walk of 3 bytes", of(&[1, 1, 1]))?;
    show(on, "walk of 5 bytes", of(&[1, 1, 1, 1, 1]))
}
