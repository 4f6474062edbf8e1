// Surveys of a volume, and the capacity.
ghost use Rattle.std.specs.Prelude.{◌≤◌};

use crate::restart::{of_pages, restarted};
use crate::volume;
use engine_restart::board_word::Word;
use engine_restart::survey;
use engine_state::answer::Answer;
use engine_state::get::get_size;
use engine_state::state::{Clients, Geometry};
use std::fmt::Display;
use std::io;
use tool_print::board::{Board, PAGES};
use tool_print::print::{Cases, Row};

// A survey into a slice of so many words: its answer, the count, and the slice.
fn survey(
    on: &Cases<impl Print>,
    label: &str,
    page_count: usize,
    volume: &[u8],
    words: usize,
) -> io::Result<()>
    requires { words ≤ 4 }
{
    let geometry = of_pages(on.board, page_count);
    if on.board.width.bytes == 8 {
        return into(on, label, geometry, volume, &mut [7u64; 4][..words]);
    }
    into(on, label, geometry, volume, &mut [7u32; 4][..words])
}

fn into<W: Word + Display>(
    on: &Cases<impl Print>,
    label: &str,
    geometry: Geometry,
    volume: &[u8],
    ids: &mut [W],
) -> io::Result<()> {
    match survey::survey(geometry, volume, ids) {
        Ok(n) => on.line(
            label,
            format_args!("{} {n}{}", u8::from(Answer::OK), Row(ids)),
        ),
        Err(answer) => on.line(label, format_args!("{}{}", u8::from(answer), Row(ids))),
    }
}

// A survey of four pages with these headers, in the slots' order, and a slice of 4, of 2 and of none.
fn headers(on: &Cases<impl Print>, label: &str, ids: [usize; 4]) -> io::Result<()> {
    let volume = volume::headers(on.board, ids);
    let volume = &volume[..on.board.volume_size()];
    survey(on, label, PAGES, volume, 4)?;
    survey(on, "  into two", PAGES, volume, 2)?;
    survey(on, "  into none", PAGES, volume, 0)
}

// The capacity of a log on an erased volume.
fn capacity(board: Board) -> Result<usize, Answer> {
    let volume = &[255; 256][..board.volume_size()];
    let four = of_pages(board, PAGES);
    get_size(restarted(board, four, true, Clients::NONE, volume, &mut [0; 64])?)
}

// Surveys of four pages, of three, and of too few bytes, and the capacity.
pub(crate) fn cases(on: &Cases<impl Print>) -> io::Result<()> {
    let board = on.board;
    let p = board.page_size();
    let c = board.ceiling();
    let none = board.largest_word();
    for (label, ids) in [
        ("survey of an erased volume", [none; 4]),
        ("survey of headers 4P, P, none, 3P", [4 * p, p, none, 3 * p]),
        ("survey of headers 0, P, 2P, 3P", [0, p, 2 * p, 3 * p]),
        ("survey of headers C, 0, 0, C - P", [c, 0, 0, c - p]),
        (
            "survey of headers 4P, 5P, 2P, 3P",
            [4 * p, 5 * p, 2 * p, 3 * p],
        ),
        (
            "survey of headers 12P, 9P, 6P, 3P",
            [12 * p, 9 * p, 6 * p, 3 * p],
        ),
        ("survey of headers 0, 4P, 2P, 3P", [0, 4 * p, 2 * p, 3 * p]),
    ] {
        headers(on, label, ids)?;
    }
    let label = "survey of headers 9P, 4P, 2P in three pages";
    let three = volume::headers(board, [9 * p, 4 * p, 2 * p, none]);
    survey(on, label, 3, &three[..3 * p], 4)?;
    let short = &[0; 256][..4 * p - 1];
    survey(on, "survey of L - 1 bytes", PAGES, short, 4)?;
    match capacity(board) {
        Ok(n) => on.line("get_size", n),
        Err(answer) => on.line("get_size", u8::from(answer)),
    }
}
