// Headers of a volume.
ghost use Rattle.std.specs.Prelude.{◌≡◌, ◌<◌};

use crate::volume;
use page::header::Volume;
use std::io;
use tool_print::board::{Board, PAGES};
use tool_print::print::Cases;

// A volume of four pages.
fn four(board: Board, bytes: &[u8; 256]) -> Volume<'_>
    ensures { result.page_count ≡ 4 }
{
    Volume {
        width: board.width,
        page_size: board.page_size(),
        page_count: PAGES,
        bytes: &bytes[..board.volume_size()],
    }
}

// A header word, put into a slot of an erased volume and read back.
fn header(on: &Cases<impl Print>, label: &str, slot: u8, id: usize) -> io::Result<()>
    requires { slot < 4 }
{
    let board = on.board;
    let mut volume = [255; 256];
    board.word(&mut volume, board.count(slot, 0, 0), id);
    match four(board, &volume).page_header(usize::from(slot)) {
        Some(id) => on.line(label, id.0),
        None => on.line(label, "not valid"),
    }
}

// The least and the greatest valid ID of a volume.
fn span(on: &Cases<impl Print>, label: &str, volume: &[u8; 256]) -> io::Result<()> {
    match four(on.board, volume).page_span() {
        Some(span) => on.line(label, format_args!("{} {}", span.oldest.0, span.newest.0)),
        None => on.line(label, "none"),
    }
}

// Headers that are valid and not, and volumes of them.
pub(crate) fn cases(on: &Cases<impl Print>) -> io::Result<()> {
    let board = on.board;
    let p = board.page_size();
    let ceiling = board.ceiling();
    // What an erased page has in place of its header.
    let none = board.largest_word();
    header(on, "header 0 in slot 0", 0, 0)?;
    header(on, "header 0 in slot 1", 1, 0)?;
    header(on, "header 7P in slot 3", 3, 7 * p)?;
    header(on, "header 7P in slot 2", 2, 7 * p)?;
    header(on, "header 7P + 1 in slot 3", 3, 7 * p + 1)?;
    header(on, "header C - P in slot 3", 3, ceiling - p)?;
    header(on, "header C in slot 0", 0, ceiling)?;
    header(on, "header of ones in slot 3", 3, none)?;
    span(on, "least and greatest of an erased volume", &[255; 256])?;
    span(on, "least and greatest of a volume of zeros", &[0; 256])?;
    let three = volume::headers(board, [4 * p, p, none, 3 * p]);
    let all = volume::headers(board, [4 * p, p, 7 * p, 3 * p]);
    span(on, "least and greatest of headers 4P, P, none, 3P", &three)?;
    span(on, "least and greatest of headers 4P, P, 7P, 3P", &all)
}
