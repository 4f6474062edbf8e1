// The trace: its lines, and what they say as it is printed.
ghost use Rattle.std.specs.Prelude.{◌≡◌, ◌<◌, ◌≤◌, ◌*◌, ◌++◌, ◌∷◌, [], ℕ, List, Some, length, take, IfOk};
ghost use Rattle.std.specs.List.{flat_map};
ghost use Rattle.engine_state.specs.Answer.{report_of, request_of};
ghost use Rattle.engine_state.specs.Log.{log_of};
ghost use Rattle.engine_call.specs.Outcome.{outcome_of};
ghost use Rattle.tool_script.specs.Spelled.{state_word};
ghost use Rattle.tool_script.specs.Trace.{report_text, request_text, log_text, outcome_text};
ghost use Rattle.tool_script.specs.Words.{hex_digit, hex_digits, bytes_word};

use arrayvec::ArrayString;
use engine_call::outcome::Outcome;
use engine_state::answer::{Answer, Report, Request};
use engine_state::state::{Log, State};
use std::fmt::{Display, Write};
use std::{fmt, io, str};

// The trace, written a line at a time. The longest line is that of a volume of 65,536 bytes.
#[derive(Drop)]
pub struct Trace<'a, P: Print> {
    rt: &'a P,
    line: ArrayString<131328>,
}

impl<'a, P: Print> Trace<'a, P> {
    pub fn new(rt: &'a P) -> Self
        ensures { (result.rt ≡ rt.entry) × (result.line.bytes ≡ []) }
    {
        Trace {
            rt,
            line: ArrayString::new(),
        }
    }

    // A line. `println!` would write it in pieces of 1,024 bytes, which takes nearly twice as long through a pipe where pages have 4,096.
    pub fn line<D: Display + Drop>(&mut self, line: D) -> io::Result<()>
        ensures { IfOk result (λ done. (text : List ℕ) → D.output line ≡ Some text
            → self.new.line.bytes ≡ text ++ 10 ∷ []) }
    {
        self.line.clear();
        writeln!(self.line, "{line}")?;
        self.rt.write_all(self.line.as_str().as_bytes())
    }
}

// BYTES: two hexadecimal digits for each byte, or `-` for no bytes.
#[derive(Clone, Copy)]
pub struct Bytes<'a>(pub &'a [u8]);

// How many bytes are printed at a time.
const BLOCK: usize = 64;

// The digit of a number below 16.
fn hex_digit(n: u8) -> u8
    requires { n < 16 }
    ensures { result ≡ hex_digit n }
{
    if n < 10 { b'0' + n } else { b'a' - 10 + n }
}

// The digits of bytes, two for each. By index: tried with `chunks_exact_mut` and `zip`, after which a proof knows nothing of the elements.
// The library's `hex::encode_to_slice` takes twice as long: tried on 100,000 pages of 4,096 bytes, 0.34 s in place of 0.16 s.
fn put_digits(bytes: &[u8], out: &mut [u8])
    requires { 2 * length bytes.now ≤ length out.old }
    ensures { take (2 * length bytes.now) out.new ≡ flat_map hex_digits bytes.now }
{
    for at in 0..bytes.len() {
        out[2 * at] = hex_digit(bytes[at] / 16);
        out[2 * at + 1] = hex_digit(bytes[at] % 16);
    }
}

impl fmt::Display for Bytes<'_> {
    ghost output = { λ bytes. Some (bytes_word bytes.0.now) };

    // A block at a time: with `{:02x}` for each byte a long line takes three times as long.
    fn fmt<W: fmt::Write>(&self, f: &mut fmt::Formatter<W>) -> fmt::Result {
        if self.0.is_empty() {
            return f.write_str("-");
        }
        for bytes in self.0.chunks(BLOCK) {
            let mut digits = [0; 2 * BLOCK];
            put_digits(bytes, &mut digits);
            let text = &digits[..2 * bytes.len()];
            f.write_str(str::from_utf8(text).map_err(|_| fmt::Error)?)?;
        }
        Ok(())
    }
}

// A report, or `-`.
#[derive(Clone, Copy)]
pub struct Reported(pub Option<Report>);

impl fmt::Display for Reported {
    ghost output = { λ reported. Some (report_text (report_of reported.0)) };

    fn fmt<W: fmt::Write>(&self, f: &mut fmt::Formatter<W>) -> fmt::Result {
        match self.0 {
            None => write!(f, "-"),
            Some(Report::AppendDone(length, lost, result)) => {
                let result = u8::from(result);
                write!(f, "append_done {length} {} {result}", u8::from(lost))
            }
            Some(Report::SyncDone(result)) => write!(f, "sync_done {}", u8::from(result)),
            Some(Report::EraseDone(result)) => write!(f, "erase_done {}", u8::from(result)),
            Some(Report::ReadDone(length)) => {
                write!(f, "read_done {length} {}", u8::from(Answer::OK))
            }
            Some(Report::SeekDone) => write!(f, "seek_done {}", u8::from(Answer::OK)),
        }
    }
}

// A request, or `-`.
#[derive(Clone, Copy)]
pub struct Requested(pub Option<Request>);

impl fmt::Display for Requested {
    ghost output = { λ requested. Some (request_text (request_of requested.0)) };

    fn fmt<W: fmt::Write>(&self, f: &mut fmt::Formatter<W>) -> fmt::Result {
        match self.0 {
            None => write!(f, "-"),
            Some(Request::Write(page)) => write!(f, "write {}", page.0),
            Some(Request::Erase(page)) => write!(f, "erase {}", page.0),
        }
    }
}

// A state's name. A function and no Display: a state is read by it too.
#[inline(always)]
pub(crate) fn state_name(state: State) -> &'static str
    ensures { result.now ≡ state_word state }
{
    match state {
        State::Idle => "idle",
        State::Read => "read",
        State::Seek => "seek",
        State::Append => "append",
        State::Sync => "sync",
        State::Erase => "erase",
    }
}

// The state, its IDs and the kept length.
#[derive(Clone, Copy)]
pub struct Fields(pub Log);

impl fmt::Display for Fields {
    ghost output = { λ fields. Some (log_text (log_of fields.0)) };

    fn fmt<W: fmt::Write>(&self, f: &mut fmt::Formatter<W>) -> fmt::Result {
        let log = self.0;
        let state = state_name(log.state);
        let (oldest, read, append) = (
            log.oldest_entry_id.0,
            log.read_entry_id.0,
            log.append_entry_id.0,
        );
        write!(f, "{state} {oldest} {read} {append} {}", log.length)
    }
}

// All of an outcome, after the call's name.
#[derive(Clone, Copy)]
pub struct Given(pub Outcome);

impl fmt::Display for Given {
    ghost output = { λ given. Some (outcome_text (outcome_of given.0)) };

    fn fmt<W: fmt::Write>(&self, f: &mut fmt::Formatter<W>) -> fmt::Result {
        let given = self.0;
        let answer = u8::from(given.answer);
        let (report, request) = (Reported(given.report), Requested(given.request));
        write!(f, "{answer} {report} {request} {}", Fields(given.log))
    }
}
