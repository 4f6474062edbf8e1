// Restart on a block of the board with 8-byte words, exported to C.
ghost use Rattle.std.specs.Prelude.{◌≡◌};
ghost use Rattle.engine_call.specs.Outcome.{lend};
ghost use Rattle.punelovash_block.specs.Block.{is_set, setup_from};
ghost use Rattle.punelovash_block.specs.Call.{block_done, restart_block};

use punelovash_block::restart;

// Restarts the log on a volume. Flags are 0 or not.
#[unsafe(no_mangle)]
pub extern "C" fn punelovash8_restart(
    block: &mut [u8],
    page_size: u32,
    page_count: u32,
    first_page: u32,
    circular: u8,
    read_client: u8,
    append_client: u8,
    volume: &[u8],
    page: &mut [u8],
    hold: &[u8],
) -> u32
    ensures { block_done result block.new page.new hold.now
        ≡ restart_block 8 block.old (setup_from 8 page_size page_count first_page (is_set circular))
        (is_set read_client) (is_set append_client) (lend volume.now page.old hold.now) }
{
    restart::restart::<u64>(
        block,
        page_size,
        page_count,
        first_page,
        circular,
        read_client,
        append_client,
        volume,
        page,
        hold,
    )
}
