// Pages, offsets, slots, rounding up, and the overwritten page.
ghost use Rattle.std.specs.Prelude.{◌+◌, ◌*◌, ◌≤◌};
ghost use Rattle.page.specs.Sizes.{ceiling};

use page::id::{EntryID, page_number, page_offset, page_slot, round_up};
use std::io;
use tool_print::board::PAGES;
use tool_print::print::Cases;

// What an ID says.
fn id(on: &Cases<impl Print>, id: usize) -> io::Result<()>
    requires { id ≤ 8070450532247928832 }
{
    let page_size = on.board.page_size();
    let page = page_number(EntryID(id), page_size);
    let offset = page_offset(EntryID(id), page_size);
    let slot = page_slot(page, PAGES);
    let up = round_up(EntryID(id), page_size);
    let value = format_args!("{id} {} {offset} {slot} {}", page.0, up.0);
    on.line("id, page, offset, slot, rounded up", value)
}

// A page, by its own first ID, and the one that it overwrites.
fn overwritten(on: &Cases<impl Print>, first: usize) -> io::Result<()>
    requires { first + 8 * on.now.board.width.bytes ≤ ceiling on.now.board.width.bytes }
{
    let board = on.board;
    let page_size = board.page_size();
    let page = page_number(EntryID(first), page_size);
    let over = page::overwritten::overwritten_page(
        board.width,
        page,
        page_size,
        board.volume_size(),
    );
    on.line(
        "page, overwritten page",
        format_args!("{} {}", page.0, over.0),
    )
}

// IDs at the ends of pages, and pages in the first laps and the last.
pub(crate) fn cases(on: &Cases<impl Print>) -> io::Result<()> {
    let board = on.board;
    let page_size = board.page_size();
    let ceiling = board.ceiling();
    id(on, 0)?;
    id(on, board.count(0, 1, 0))?;
    id(on, page_size - 1)?;
    id(on, page_size)?;
    id(on, page_size + 1)?;
    id(on, board.count(4, 4, 1))?;
    id(on, ceiling - page_size)?;
    id(on, ceiling)?;
    overwritten(on, 0)?;
    overwritten(on, 3 * page_size)?;
    overwritten(on, 4 * page_size)?;
    overwritten(on, 5 * page_size)?;
    overwritten(on, ceiling - page_size)
}
