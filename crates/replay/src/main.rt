// Replays a script of calls, read from standard input, and writes the trace.
#![tactic(auto)]

mod calls;
mod other;
mod power;
mod search;
mod show;
mod start;
mod state;
mod stop;

ghost use Rattle.std.specs.Prelude.{◌≡◌, length};

use state::{Replay, Stage};
use std::io;
use stop::Stop;
use tool_script::fault::Fault;
use tool_script::input;
use tool_script::parse::Name;
use tool_script::trace::Trace;
use tool_script::words::{Word, Words};

// The bytes of the longest script.
const SCRIPT_SIZE: usize = 4194304;

impl<P: Print> Replay<'_, P> {
    // A line of the script, by what is due: a restart may come anywhere after the first.
    fn staged(&mut self, line: &[u8]) -> Result<(), Stop> {
        let mut words = Words::new(line);
        let name = words.next().and_then(Name::from_word);
        match (self.stage, name) {
            (Stage::Sizes, Some(Name::Sizes)) => self.sizes(words)?,
            (Stage::Volume, Some(Name::Volume)) => self.volume(words)?,
            (Stage::Restart | Stage::Calls, Some(Name::Restart)) => self.restart(words)?,
            (Stage::Sizes | Stage::Volume | Stage::Restart, _) => return Err(Fault::Place.into()),
            (Stage::Calls, Some(name)) => self.called(name, words)?,
            (Stage::Calls, None) => return Err(Fault::Unknown.into()),
        }
        Ok(())
    }

    // An empty line, and one that begins with `#`, is passed over.
    fn line(&mut self, line: &[u8]) -> Result<(), Stop> {
        match line {
            [] | [b'#', ..] => Ok(()),
            _ => self.staged(line),
        }
    }
}

// Says in words what is wrong with the line that has this number.
fn complain(trace: &mut Trace<impl Print>, number: usize, fault: Fault) -> io::Result<()> {
    trace.line(format_args!("line {number}: {fault}"))
}

fn is_line_feed(byte: &u8) -> bool {
    *byte == b'\n'
}

// Runs the lines of a script to its end or its first wrong line. One that goes past 4 MiB, which is the last of a longer script, is wrong.
fn replay(rt: &impl Print, script: &[u8]) -> io::Result<()> {
    let mut replay = Replay::new(rt);
    let mut lines = script.split_inclusive(is_line_feed);
    let past = if SCRIPT_SIZE < script.len() {
        lines.next_back()
    } else {
        None
    };
    for (number, line) in (1usize..).zip(lines) {
        match replay.line(line.strip_suffix(b"\n").unwrap_or(line)) {
            Ok(()) => {}
            Err(Stop::Fault(fault)) => return complain(&mut replay.trace, number, fault),
            Err(Stop::Output(error)) => return Err(error),
        }
    }
    match past {
        None => Ok(()),
        Some(_) => {
            let number = script.split_inclusive(is_line_feed).count();
            complain(&mut replay.trace, number, Fault::Long)
        }
    }
}

// Room for the longest script and one byte more.
fn script_buffer() -> [u8; 4194305]
    ensures { 4194305 ≡ length result }
{
    [0; 4194305]
}

fn main(rt: HostRuntime) -> io::Result<()> {
    let mut script = script_buffer();
    let n = input::read_full(&mut rt.stdin(), &mut script)?;
    replay(&rt, &script[..n])
}
