// The searches among the marks and the reader on a block of the board with 8-byte words, exported to C.
ghost use Rattle.std.specs.Prelude.{◌≡◌};
ghost use Rattle.punelovash_block.specs.Search.{nearest_block, between_block, next_block, value_done, value_of, next_numbers, next_done, step_done};

use punelovash_block::search;

// The mark that is nearest to a stamp: its ID goes to `entry_id`.
#[unsafe(no_mangle)]
pub extern "C" fn punelovash8_nearest<'a>(
    block: &[u8],
    volume: &'a [u8],
    page: &'a [u8],
    stamp: u32,
    entry_id: &mut usize,
) -> u32
    ensures { value_done result entry_id.new ≡ value_of entry_id.old (nearest_block 8 block.now volume.now page.now stamp) }
{
    search::nearest::<u64>(block, volume, page, stamp, entry_id)
}

// The marks whose stamps lie between two, both included: their IDs go to `ids`, and their count to `value`, or the ID of an entry that is no mark.
#[unsafe(no_mangle)]
pub extern "C" fn punelovash8_between<'a>(
    block: &[u8],
    volume: &'a [u8],
    page: &'a [u8],
    first: u32,
    last: u32,
    ids: &mut [u64],
    value: &mut usize,
) -> u32
    ensures { let d = between_block 8 block.now volume.now page.now (record { first = first; last = last }) ids.old in
        (value_done result value.new ≡ value_of value.old d.answer) × (ids.new ≡ d.ids) }
{
    search::between::<u64>(block, volume, page, first, last, ids, value)
}

// The first entry at an ID or past it: its ID, its length and the ID after it. FAIL at the end.
#[unsafe(no_mangle)]
pub extern "C" fn punelovash8_next_entry<'a>(
    block: &[u8],
    volume: &'a [u8],
    page: &'a [u8],
    at: usize,
    entry_id: &mut usize,
    length: &mut usize,
    end: &mut usize,
) -> u32
    ensures { next_done result entry_id.new length.new end.new
        ≡ step_done (next_numbers entry_id.old length.old end.old) (next_block 8 block.now volume.now page.now at) }
{
    search::next_entry::<u64>(block, volume, page, at, entry_id, length, end)
}
