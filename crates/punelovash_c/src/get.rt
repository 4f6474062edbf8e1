// The getters on a block of the board with 4-byte words, exported to C.
ghost use Rattle.std.specs.Prelude.{◌≡◌};
ghost use Rattle.punelovash_block.specs.Get.{oldest_of, append_of, read_of, size_of};

use punelovash_block::get;

// The ID of the oldest entry.
#[unsafe(no_mangle)]
pub extern "C" fn punelovash_log_start(block: &[u8]) -> usize
    ensures { result ≡ oldest_of 4 block.now }
{
    get::log_start::<u32>(block)
}

// The append ID: that of the next entry, where it fits in the page.
#[unsafe(no_mangle)]
pub extern "C" fn punelovash_log_end(block: &[u8]) -> usize
    ensures { result ≡ append_of 4 block.now }
{
    get::log_end::<u32>(block)
}

// The ID of the next entry to read.
#[unsafe(no_mangle)]
pub extern "C" fn punelovash_next_read_entry_id(block: &[u8]) -> usize
    ensures { result ≡ read_of 4 block.now }
{
    get::next_read_entry_id::<u32>(block)
}

// The bytes of the volume without its page headers; 0 for sizes that SHAPE refuses.
#[unsafe(no_mangle)]
pub extern "C" fn punelovash_get_size(block: &[u8]) -> usize
    ensures { result ≡ size_of 4 block.now }
{
    get::get_size::<u32>(block)
}
