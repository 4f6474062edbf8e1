// Document 01's cases of the calls and their neighbours, run at both widths and written out: a line each, held to the file stdout.
// P is 8 words and N is 4. In the labels w is the width of a word and L the volume's length.
#![tactic(auto)]

mod calls;
mod lent;
mod limits;
mod outcome;

use page::word::WordWidth;
use std::io;
use tool_print::board::Board;
use tool_print::print::Cases;

fn main(rt: HostRuntime) -> io::Result<()> {
    for width in [WordWidth::FOUR, WordWidth::EIGHT] {
        let on = Cases {
            rt: &rt,
            board: Board { width },
        };
        on.line("w", width.bytes)?;
        calls::cases(&on)?;
        limits::cases(&on)?;
    }
    Ok(())
}
