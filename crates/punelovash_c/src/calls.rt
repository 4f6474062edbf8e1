// The calls on a block of the board with 4-byte words, exported to C.
ghost use Rattle.std.specs.Prelude.{◌≡◌};
ghost use Rattle.std.proofs.Math.ListN as lists;
ghost use Rattle.engine_call.specs.Outcome.{Lent, lend};
ghost use Rattle.engine_call.specs.Call as c;
ghost use Rattle.punelovash_block.specs.Block.{is_set, word_from, setup_at};
ghost use Rattle.punelovash_block.specs.Call.{block_done, call_block, complete_block, read_block, AsIfLent};

use punelovash_block::calls;

// Appends the first `length` bytes of `data`.
#[unsafe(no_mangle)]
pub extern "C" fn punelovash_append(
    block: &mut [u8],
    volume: &[u8],
    page: &mut [u8],
    hold: &mut [u8],
    data: &[u8],
    length: usize,
    word: u8,
) -> u32
    ensures { block_done result block.new page.new hold.new
        ≡ call_block 4 block.old (lend volume.now page.old hold.old)
        (c.append «data».now length (word_from word)) }
{
    calls::append::<u32>(block, volume, page, hold, data, length, word)
}

// Reads the next entry, of at most `length` bytes, into `buffer`. Of the hold buffer a read looks at the length alone, which has to be the page buffer's:
// the page buffer stands in for it.
#[unsafe(no_mangle)]
pub extern "C" fn punelovash_read<'a>(
    block: &mut [u8],
    volume: &'a [u8],
    page: &'a [u8],
    buffer: &mut [u8],
    length: usize,
) -> u32
    ensures { let x = lend volume.now page.now page.now in
        (block_done result block.new x.page x.hold ≡ call_block 4 block.old x (c.read (lists.length buffer.old) length))
        × (buffer.new ≡ read_block 4 block.old x buffer.old length) }
{
    calls::read::<u32>(block, volume, page, buffer, length)
}

// The next entry to read is the one at `entry_id`. Only sizes are looked at, so that nothing but the block is lent.
#[unsafe(no_mangle)]
pub extern "C" fn punelovash_seek(block: &mut [u8], entry_id: usize) -> u32
    ensures { (x : Lent) → AsIfLent (setup_at 4 block.old) x
        → block_done result block.new x.page x.hold ≡ call_block 4 block.old x (c.seek entry_id) }
{
    calls::seek::<u32>(block, entry_id)
}

// Writes the page buffer to flash.
#[unsafe(no_mangle)]
pub extern "C" fn punelovash_sync(
    block: &mut [u8],
    volume: &[u8],
    page: &mut [u8],
    hold: &[u8],
    word: u8,
) -> u32
    ensures { block_done result block.new page.new hold.now
        ≡ call_block 4 block.old (lend volume.now page.old hold.now) (c.sync (word_from word)) }
{
    calls::sync::<u32>(block, volume, page, hold, word)
}

// Erases the log. Only sizes are looked at, so that nothing but the block is lent.
#[unsafe(no_mangle)]
pub extern "C" fn punelovash_erase(block: &mut [u8], word: u8) -> u32
    ensures { (x : Lent) → AsIfLent (setup_at 4 block.old) x
        → block_done result block.new x.page x.hold ≡ call_block 4 block.old x (c.erase (word_from word)) }
{
    calls::erase::<u32>(block, word)
}

// The flash has completed a write; `good` is 0 where it failed.
#[unsafe(no_mangle)]
pub extern "C" fn punelovash_write_complete(
    block: &mut [u8],
    volume: &[u8],
    page: &mut [u8],
    hold: &[u8],
    good: u8,
) -> u32
    ensures { block_done result block.new page.new hold.now
        ≡ complete_block 4 block.old (lend volume.now page.old hold.now) (c.write_ended (is_set good)) }
{
    calls::write_complete::<u32>(block, volume, page, hold, good)
}

// The flash has completed an erase; `good` is 0 where it failed.
#[unsafe(no_mangle)]
pub extern "C" fn punelovash_erase_complete(
    block: &mut [u8],
    volume: &[u8],
    page: &mut [u8],
    hold: &[u8],
    good: u8,
    word: u8,
) -> u32
    ensures { block_done result block.new page.new hold.now
        ≡ complete_block 4 block.old (lend volume.now page.old hold.now)
        (c.erase_ended (is_set good) (word_from word)) }
{
    calls::erase_complete::<u32>(block, volume, page, hold, good, word)
}

// The deferred call, which reports a read or a seek. Only sizes are looked at, so that nothing but the block is lent.
#[unsafe(no_mangle)]
pub extern "C" fn punelovash_deferred_call(block: &mut [u8]) -> u32
    ensures { (x : Lent) → AsIfLent (setup_at 4 block.old) x
        → block_done result block.new x.page x.hold ≡ call_block 4 block.old x c.deferred }
{
    calls::deferred_call::<u32>(block)
}
