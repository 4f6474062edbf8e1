// The survey of a volume.
ghost use Rattle.std.specs.Prelude.{◌≡◌, Bool, map};
ghost use Rattle.punelovash_block.specs.Block.{setup_from};
ghost use Rattle.punelovash_block.specs.Call.{volume_surveyed, survey_volume};

use crate::numbers;
use engine_restart::board_word::Word;
use engine_restart::survey;
use engine_state::answer::Answer;
use engine_state::state::Geometry;

// Writes the valid page IDs in rising order to `ids`, and their count to `count`. The numbers are C's parameters, as it passes them.
pub fn survey<W: Word>(
    page_size: u32,
    page_count: u32,
    first_page: u32,
    volume: &[u8],
    ids: &mut [W],
    count: &mut usize,
) -> u32
    ensures { (circular : Bool) → volume_surveyed result count.new (map W.value ids.new)
        ≡ survey_volume (setup_from W.WIDTH page_size page_count first_page circular) volume.now (map W.value ids.old) count.old }
{
    let geometry = Geometry {
        page_size: page_size as usize,
        page_count: page_count as usize,
        first_page: first_page as usize,
    };
    match survey::survey(geometry, volume, ids) {
        Ok(found) => {
            *count = found;
            numbers::answer_number(Answer::OK)
        }
        Err(answer) => numbers::answer_number(answer),
    }
}
