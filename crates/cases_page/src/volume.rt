// Volumes of four pages, and of one.
use tool_print::board::Board;

// An erased volume with one page, with an entry of n bytes.
pub(crate) fn one(board: Board, n: usize) -> [u8; 256] {
    let mut volume = [255; 256];
    board.page(&mut volume, 0, n);
    volume
}

// A volume with these headers, in the slots' order, and no entries.
pub(crate) fn headers(board: Board, ids: [usize; 4]) -> [u8; 256] {
    let mut volume = [255; 256];
    for (page, id) in volume.chunks_exact_mut(board.page_size()).zip(ids) {
        board.word(page, 0, id);
    }
    volume
}

// The same with an entry of n bytes in each page.
pub(crate) fn pages(board: Board, ids: [usize; 4], n: usize) -> [u8; 256] {
    let mut volume = headers(board, ids);
    for page in volume.chunks_exact_mut(board.page_size()) {
        board.sevens(page, board.words(1), n);
    }
    volume
}
