// The first three lines: sizes, volume and restart.
ghost use Rattle.replay.specs.Spelled.{mode_word, flag_word};

use crate::power;
use crate::state::{Replay, Stage};
use crate::stop::Stop;
use bench_step::world::{Bench, World};
use engine_state::answer::Answer;
use engine_state::fits;
use engine_state::state::{Clients, Geometry, Setup};
use std::io;
use tool_script::buffer::Buffer;
use tool_script::fault::Fault;
use tool_script::text;
use tool_script::trace::{Bytes, Fields};
use tool_script::words::{Word, Words};

// The largest of the sizes: below 2^32.
const LARGEST: usize = 4294967295;

// The buffers' length before the first restart: P where SHAPE admits P, else they are empty. No Option, which would have to be taken apart at each line:
// with other sizes SHAPE refuses a buffer of any length, one of no byte too.
fn buffer_size(setup: Setup) -> usize {
    let one_page = Geometry {
        page_count: 1,
        first_page: 0,
        ..setup.geometry
    };
    if fits::sizes_fit(Setup {
        geometry: one_page,
        ..setup
    }) {
        return one_page.page_size;
    }
    0
}

#[derive(Clone, Copy, PartialEq, Eq)]
enum Mode {
    Circular,
    Plain,
}

impl Word for Mode {
    ghost spelled = { mode_word };

    fn from_word(word: &[u8]) -> Option<Self> {
        match word {
            b"circular" => Some(Mode::Circular),
            b"plain" => Some(Mode::Plain),
            _ => None,
        }
    }
}

// Whether a client is set.
#[derive(Clone, Copy)]
struct Flag(bool);

impl Word for Flag {
    ghost spelled = { flag_word };

    fn from_word(word: &[u8]) -> Option<Self> {
        match word {
            b"0" => Some(Flag(false)),
            b"1" => Some(Flag(true)),
            _ => None,
        }
    }
}

// WIDTH, which is 4 where the line ends before it.
fn width_of(word: Option<&[u8]>) -> Option<usize> {
    match word.map_or(Some(4), text::number) {
        Some(4) => Some(4),
        Some(8) => Some(8),
        _ => None,
    }
}

// The sizes of a volume.
fn geometry_of(words: &mut Words) -> Result<Geometry, Fault> {
    Ok(Geometry {
        page_size: words.number_up_to(LARGEST)?,
        page_count: words.number_up_to(LARGEST)?,
        first_page: words.number_up_to(LARGEST)?,
    })
}

// A buffer that is lent to a restart: BYTES, or `=` for the buffer as it is.
fn lend(word: Option<&[u8]>, buffer: &mut Buffer<8192>) -> Result<(), Fault> {
    match word {
        None => Err(Fault::Bytes),
        Some(b"=") => Ok(()),
        Some(word) => buffer.read(word).ok_or(Fault::Bytes),
    }
}

impl<P: Print> Replay<'_, P> {
    // `sizes P N FIRST MODE WIDTH`
    pub(crate) fn sizes(&mut self, words: Words) -> Result<(), Fault> {
        let mut words = words.at_most(5)?;
        let geometry = geometry_of(&mut words)?;
        let circular = words.word::<Mode>()? == Mode::Circular;
        let width = width_of(words.next()).ok_or(Fault::Word)?;
        let setup = Setup {
            width,
            geometry,
            circular,
        };
        self.bench = Bench {
            setup,
            world: World::begin(setup),
        };
        let size = buffer_size(setup);
        self.page.fill(0, size).ok_or(Fault::Bytes)?;
        self.hold.fill(0, size).ok_or(Fault::Bytes)?;
        self.stage = Stage::Volume;
        Ok(())
    }

    // `volume all B`
    fn volume_all(&mut self, words: Words) -> Result<(), Fault> {
        let mut words = words.at_most(1)?;
        let byte = words.number_up_to(255)?;
        let geometry = self.bench.setup.geometry;
        geometry
            .page_size
            .checked_mul(geometry.page_count)
            .and_then(|size| self.volume.fill(byte as u8, size))
            .ok_or(Fault::Volume)
    }

    // `volume BYTES` or `volume all B`
    pub(crate) fn volume(&mut self, words: Words) -> Result<(), Fault> {
        let mut rest = words;
        match rest.next() {
            Some(b"all") => self.volume_all(rest)?,
            _ => words.at_most(1)?.bytes(&mut self.volume)?,
        }
        self.stage = Stage::Restart;
        Ok(())
    }

    // The trace of a restart, which was refused where the power is off.
    fn show_restart(&mut self) -> io::Result<()> {
        let page = Bytes(self.page.as_slice());
        let hold = Bytes(self.hold.as_slice());
        if !self.bench.world.power {
            let shape = u8::from(Answer::SHAPE);
            let line = format_args!("restart {shape} - - off 0 0 0 0 {page} {hold}");
            return self.trace.line(line);
        }
        let fields = Fields(self.bench.world.log);
        let ok = u8::from(Answer::OK);
        let line = format_args!("restart {ok} - - {fields} {page} {hold}");
        self.trace.line(line)
    }

    // The log restarts with the buffers that are lent.
    fn restarted(&mut self, clients: Clients) -> io::Result<()> {
        let step = self.bench.restart(
            None,
            clients,
            self.volume.as_slice(),
            self.page.as_mut_slice(),
            self.hold.as_slice(),
        );
        self.bench.world = step.world;
        self.hostile = false;
        self.stage = Stage::Calls;
        self.show_restart()
    }

    // `restart R A PAGE HOLD LEFT`. An operation under way is cut before the buffers that are lent take the place of its page.
    pub(crate) fn restart(&mut self, words: Words) -> Result<(), Stop> {
        let mut words = words.at_most(5)?;
        let Flag(read) = words.word()?;
        let Flag(append) = words.word()?;
        let page = words.next();
        let hold = words.next();
        let left = power::left_by(self.bench.world.operation, words.next())?;
        self.cut_off(left);
        lend(page, &mut self.page)?;
        lend(hold, &mut self.hold)?;
        self.restarted(Clients { read, append })?;
        Ok(())
    }
}
