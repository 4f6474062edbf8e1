// Document 01's cases of the page layer, restart and survey, and their neighbours, run at both widths and written out: a line each, held to the file stdout.
// P is 8 words and N is 4. In the labels w is the width of a word and L the volume's length.
#![tactic(auto)]

mod header;
mod held;
mod id;
mod restart;
mod survey;
mod volume;
mod walk;

use page::word::WordWidth;
use std::io;
use tool_print::board::Board;
use tool_print::print::Cases;

fn main(rt: HostRuntime) -> io::Result<()> {
    for width in [WordWidth::FOUR, WordWidth::EIGHT] {
        let on = Cases {
            rt: &rt,
            board: Board { width },
        };
        on.line("w", width.bytes)?;
        id::cases(&on)?;
        walk::cases(&on)?;
        header::cases(&on)?;
        held::cases(&on)?;
        restart::cases(&on)?;
        survey::cases(&on)?;
    }
    Ok(())
}
