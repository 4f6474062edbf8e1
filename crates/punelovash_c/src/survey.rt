// The survey of a volume with 4-byte words, exported to C.
ghost use Rattle.std.specs.Prelude.{◌≡◌, Bool};
ghost use Rattle.punelovash_block.specs.Block.{setup_from};
ghost use Rattle.punelovash_block.specs.Call.{volume_surveyed, survey_volume};

use punelovash_block::survey;

// Writes the valid page IDs in rising order to `ids`, and their count to `count`.
#[unsafe(no_mangle)]
pub extern "C" fn punelovash_survey(
    page_size: u32,
    page_count: u32,
    first_page: u32,
    volume: &[u8],
    ids: &mut [u32],
    count: &mut usize,
) -> u32
    ensures { (circular : Bool) → volume_surveyed result count.new ids.new
        ≡ survey_volume (setup_from 4 page_size page_count first_page circular) volume.now ids.old count.old }
{
    survey::survey::<u32>(page_size, page_count, first_page, volume, ids, count)
}
