// The lines that are no call of the engine: the getters, a survey, the volume's bytes, another state, and the walk of a page given alone.
use crate::state::Replay;
use crate::stop::Stop;
use bench_step::world::World;
use engine_restart::board_word::Word;
use engine_restart::survey;
use engine_state::answer::Answer;
use engine_state::get;
use engine_state::state::Log;
use page::word::WordWidth;
use std::fmt::Display;
use std::io;
use tool_print::print::Row;
use tool_script::fault::Fault;
use tool_script::parse::{Name, Other, Put};
use tool_script::text;
use tool_script::trace::Bytes;

impl<P: Print> Replay<'_, P> {
    // A survey's answer, its count and all words of the slice.
    fn survey_into<W: Word + Display>(&mut self, ids: &mut [W]) -> io::Result<()> {
        let geometry = self.bench.setup.geometry;
        let (answer, count) = match survey::survey(geometry, self.volume.as_slice(), ids) {
            Ok(count) => (Answer::OK, count),
            Err(refusal) => (refusal, 0),
        };
        let answer = u8::from(answer);
        let line = format_args!("survey {answer} {count}{}", Row(ids));
        self.trace.line(line)
    }

    fn survey(&mut self, count: usize) -> io::Result<()> {
        if self.bench.setup.width == 4 {
            return self.survey_into(text::front(&mut [u32::MAX; 4096], count));
        }
        self.survey_into(text::front(&mut [u64::MAX; 4096], count))
    }

    fn getters(&mut self) -> io::Result<()> {
        let World { power, log, .. } = self.bench.world;
        if !power {
            return self.show_not_delivered(Name::Get);
        }
        let start = get::log_start(log).0;
        let end = get::log_end(log).0;
        let next = get::next_read_entry_id(log).0;
        let size = get::get_size(log).unwrap_or(0);
        let line = format_args!("get {start} {end} {next} {size}");
        self.trace.line(line)
    }

    fn show_volume(&mut self) -> io::Result<()> {
        let volume = Bytes(self.volume.as_slice());
        self.trace.line(format_args!("volume {volume}"))
    }

    // Another state in place of the log's.
    fn put(&mut self, put: Put) -> Result<(), Fault> {
        if !self.bench.world.power {
            return Err(Fault::Place);
        }
        self.bench.world = World {
            power: true,
            log: Log {
                state: put.state,
                oldest_entry_id: put.oldest,
                read_entry_id: put.read,
                append_entry_id: put.append,
                length: put.length,
                ..self.bench.world.log
            },
            operation: None,
        };
        self.hostile = true;
        Ok(())
    }

    // The walk of the page that stands in the client's buffer, at the script's width.
    fn walk(&mut self) -> io::Result<()> {
        let width = if self.bench.setup.width == 4 {
            WordWidth::FOUR
        } else {
            WordWidth::EIGHT
        };
        let walk = page::walk::walk(width, self.client.as_slice());
        let (length, words) = (walk.length, walk.words);
        self.trace.line(format_args!("walk {length} {words}"))
    }

    pub(crate) fn other(&mut self, line: Other) -> Result<(), Stop> {
        match line {
            Other::Cut(left) => self.cut(left)?,
            Other::Get => self.getters()?,
            Other::Survey(count) => self.survey(count)?,
            Other::Volume => self.show_volume()?,
            Other::Put(state) => self.put(state)?,
            Other::Walk => self.walk()?,
            Other::Nearest(stamp) => self.nearest(stamp)?,
            Other::Between(listing) => self.between(listing)?,
        }
        Ok(())
    }
}
