// The searches among the marks of the log: of its state now, of the volume and of the page buffer, as the calls left them.
ghost use Rattle.std.specs.Prelude.{Some};
ghost use Rattle.engine_marks.specs.Searched.{found_count};
ghost use Rattle.replay.specs.Trace.{searched_text};

use crate::state::Replay;
use bench_step::world::World;
use engine_marks::between::Stamps;
use engine_marks::refusal::Refusal;
use engine_marks::{between, nearest};
use engine_state::answer::Answer;
use std::{fmt, io};
use tool_print::print::Row;
use tool_script::parse::{Listing, Name};
use tool_script::text;

// What a search answers, and the number that goes with it: that of what it found, or the ID of the entry at which it was refused, or `-`.
#[derive(Clone, Copy)]
struct Searched(Result<usize, Refusal>);

impl fmt::Display for Searched {
    ghost output = { λ searched. Some (searched_text (found_count searched.0)) };

    fn fmt<W: fmt::Write>(&self, f: &mut fmt::Formatter<W>) -> fmt::Result {
        match self.0 {
            Ok(found) => write!(f, "{} {found}", u8::from(Answer::OK)),
            Err(refusal) => {
                let answer = u8::from(refusal);
                match refusal {
                    Refusal::NoMark(id) => write!(f, "{answer} {}", id.0),
                    Refusal::Answer(_) | Refusal::NoEntry | Refusal::Range => {
                        write!(f, "{answer} -")
                    }
                }
            }
        }
    }
}

impl<P: Print> Replay<'_, P> {
    // The mark that is nearest to a stamp.
    pub(crate) fn nearest(&mut self, stamp: u32) -> io::Result<()> {
        let World { power, log, .. } = self.bench.world;
        if !power {
            return self.show_not_delivered(Name::Nearest);
        }
        let (volume, page) = (self.volume.as_slice(), self.page.as_slice());
        let found = nearest::nearest(log, volume, page, stamp).map(|id| id.0);
        self.trace.line(format_args!("nearest {}", Searched(found)))
    }

    // The marks whose stamps lie between two, and all words of the slice.
    pub(crate) fn between(&mut self, listing: Listing) -> io::Result<()> {
        let World { power, log, .. } = self.bench.world;
        if !power {
            return self.show_not_delivered(Name::Between);
        }
        let stamps = Stamps {
            first: listing.first,
            last: listing.last,
        };
        let mut words = [u64::MAX; 4096];
        let ids = text::front(&mut words, listing.count);
        let (volume, page) = (self.volume.as_slice(), self.page.as_slice());
        let found = between::between(log, volume, page, stamps, ids);
        let line = format_args!("between {}{}", Searched(found), Row(ids));
        self.trace.line(line)
    }
}
