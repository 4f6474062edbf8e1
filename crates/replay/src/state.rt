// What a replay holds between two lines.
use bench_step::world::{Bench, World};
use engine_state::state::{Geometry, Setup};
use tool_script::buffer::Buffer;
use tool_script::trace::Trace;

// The line that is due.
#[derive(Clone, Copy)]
pub(crate) enum Stage {
    Sizes,
    Volume,
    Restart,
    Calls,
}

// The bench's world with its buffers, and the trace.
#[derive(Drop)]
pub(crate) struct Replay<'a, P: Print> {
    pub trace: Trace<'a, P>,
    pub stage: Stage,
    pub bench: Bench,
    // A state was put in place of the log's: every completion is delivered.
    pub hostile: bool,
    pub volume: Buffer<65536>,
    pub page: Buffer<8192>,
    pub hold: Buffer<8192>,
    pub client: Buffer<8192>,
}

impl<'a, P: Print> Replay<'a, P> {
    // Before the first line: sizes that SHAPE refuses, until the script says its own. An Option would have to be taken apart at each line, and such sizes
    // mean the same.
    pub(crate) fn new(rt: &'a P) -> Self {
        let setup = Setup {
            width: 4,
            geometry: Geometry {
                page_size: 0,
                page_count: 0,
                first_page: 0,
            },
            circular: false,
        };
        Replay {
            trace: Trace::new(rt),
            stage: Stage::Sizes,
            bench: Bench {
                setup,
                world: World::begin(setup),
            },
            hostile: false,
            volume: Buffer::new(),
            page: Buffer::new(),
            hold: Buffer::new(),
            client: Buffer::new(),
        }
    }
}
