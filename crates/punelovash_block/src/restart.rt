// Restart, on a block. What is lent stays parameters, for the reason at engine_call's ReadyLog.
ghost use Rattle.std.specs.Prelude.{◌≡◌};
ghost use Rattle.engine_call.specs.Outcome.{lend};
ghost use Rattle.punelovash_block.specs.Block.{is_set, setup_from};
ghost use Rattle.punelovash_block.specs.Call.{block_done, restart_block};

use crate::{block, numbers};
use engine_call::outcome;
use engine_restart::board_word::Word;
use engine_restart::restart;
use engine_state::answer::Answer;
use engine_state::state::{Clients, Geometry, Setup};

// Restarts the log on a volume. Flags are 0 or not. The numbers and flags are C's parameters, as it passes them.
pub fn restart<W: Word>(
    block: &mut [u8],
    page_size: u32,
    page_count: u32,
    first_page: u32,
    circular: u8,
    read_client: u8,
    append_client: u8,
    volume: &[u8],
    page: &mut [u8],
    hold: &[u8],
) -> u32
    ensures { block_done result block.new page.new hold.now
        ≡ restart_block W.WIDTH block.old (setup_from W.WIDTH page_size page_count first_page (is_set circular))
        (is_set read_client) (is_set append_client) (lend volume.now page.old hold.now) }
{
    if block.len() != block::block_size::<W>() {
        return numbers::answer_number(Answer::STATE);
    }
    let setup = Setup {
        width: W::WIDTH,
        geometry: Geometry {
            page_size: page_size as usize,
            page_count: page_count as usize,
            first_page: first_page as usize,
        },
        circular: circular != 0,
    };
    let clients = Clients {
        read: read_client != 0,
        append: append_client != 0,
    };
    match restart::restart(setup, clients, volume, page, hold) {
        Ok(log) => {
            block::save_setup(&log, block);
            block::save::<W>(&outcome::still(log, Answer::OK), block)
        }
        Err(answer) => numbers::answer_number(answer),
    }
}
