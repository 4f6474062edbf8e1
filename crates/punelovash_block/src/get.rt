// The getters, on a block. A block that holds no log has 0 for each.
ghost use Rattle.std.specs.Prelude.{◌≡◌};
ghost use Rattle.punelovash_block.specs.Get.{oldest_of, append_of, read_of, size_of};

use crate::block;
use engine_restart::board_word::Word;
use engine_state::get;

// The ID of the oldest entry.
pub fn log_start<W: Word>(block: &[u8]) -> usize
    ensures { result ≡ oldest_of W.WIDTH block.now }
{
    block::load::<W>(block).map_or(0, |log| get::log_start(log).0)
}

// The append ID: that of the next entry, where it fits in the page.
pub fn log_end<W: Word>(block: &[u8]) -> usize
    ensures { result ≡ append_of W.WIDTH block.now }
{
    block::load::<W>(block).map_or(0, |log| get::log_end(log).0)
}

// The ID of the next entry to read.
pub fn next_read_entry_id<W: Word>(block: &[u8]) -> usize
    ensures { result ≡ read_of W.WIDTH block.now }
{
    block::load::<W>(block).map_or(0, |log| get::next_read_entry_id(log).0)
}

// The bytes of the volume without its page headers; 0 for sizes that SHAPE refuses.
pub fn get_size<W: Word>(block: &[u8]) -> usize
    ensures { result ≡ size_of W.WIDTH block.now }
{
    block::load::<W>(block).map_or(0, |log| get::get_size(log).unwrap_or(0))
}
