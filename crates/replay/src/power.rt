// The power: `cut`, and what is left of an operation under way.
use crate::state::Replay;
use crate::stop::Stop;
use bench_flash::operation::{Left, Operation};
use tool_script::fault::Fault;
use tool_script::words::Word;

// What an operation leaves; an erase leaves no new page.
fn leaves(operation: Option<Operation>, left: Left) -> Result<Left, Fault> {
    match (operation, left) {
        (Some(Operation::Erase(_)), Left::New) => Err(Fault::Word),
        _ => Ok(left),
    }
}

// LEFT of a restart, which may be lacking where nothing is under way.
pub(crate) fn left_by(operation: Option<Operation>, word: Option<&[u8]>) -> Result<Left, Fault> {
    match (operation, word) {
        (_, Some(word)) => leaves(operation, Left::from_word(word).ok_or(Fault::Word)?),
        (None, None) => Ok(Left::Old),
        (Some(_), None) => Err(Fault::Word),
    }
}

impl<P: Print> Replay<'_, P> {
    // The power goes, where it is on.
    pub(crate) fn cut_off(&mut self, left: Left) {
        let volume = self.volume.as_mut_slice();
        let page = self.page.as_slice();
        self.bench.world = self.bench.cut(left, volume, page).world;
    }

    // `cut LEFT`
    pub(crate) fn cut(&mut self, left: Left) -> Result<(), Stop> {
        let left = leaves(self.bench.world.operation, left)?;
        self.trace.line("cut")?;
        self.cut_off(left);
        Ok(())
    }
}
