// Answers, flags, reports, requests and the driver's word as numbers.
ghost use Rattle.std.specs.Prelude.{◌≡◌};
ghost use Rattle.engine_state.specs.Answer.{number};
ghost use Rattle.engine_state.specs.Log.{log_of};
ghost use Rattle.engine_call.specs.Outcome.{word_of};
ghost use Rattle.punelovash_block.specs.Block.{flags, word_from};

use engine_call::outcome::{Driver, Outcome};
use engine_state::answer::{Answer, Report, Request};
use engine_state::state::Log;

// An answer's number, as C is given it.
pub(crate) fn answer_number(answer: Answer) -> u32
    ensures { result ≡ number answer }
{
    u32::from(u8::from(answer))
}

// A log's byte of flags.
pub(crate) fn flags(log: &Log) -> u8
    ensures { let l = log_of log.now in result ≡ flags l.setup.circular l.read_client l.append_client }
{
    u8::from(log.setup.circular) + 2 * u8::from(log.clients.read) + 4 * u8::from(log.clients.append)
}

// A report in the numbers that C reads in a block: its kind, whether entries were lost, its result and its length.
#[derive(Clone, Copy)]
pub(crate) struct ReportNumbers {
    pub kind: u8,
    pub lost: bool,
    pub result: Answer,
    pub length: usize,
}

impl From<&Outcome> for ReportNumbers {
    ghost use Rattle.std.specs.Prelude.{◌≡◌};
    ghost use Rattle.engine_state.specs.Answer.{report_of};
    ghost use Rattle.punelovash_block.specs.Block.{numbers_of, report_numbers};

    ghost from_gives = { λ given numbers. numbers_of numbers ≡ report_numbers (report_of given.now.report) };

    fn from(given: &Outcome) -> ReportNumbers {
        let nothing = ReportNumbers {
            kind: 0,
            lost: false,
            result: Answer::OK,
            length: 0,
        };
        match given.report {
            None => nothing,
            Some(Report::AppendDone(length, lost, result)) => ReportNumbers {
                kind: 1,
                lost,
                result,
                length,
            },
            Some(Report::SyncDone(result)) => ReportNumbers {
                kind: 2,
                result,
                ..nothing
            },
            Some(Report::EraseDone(result)) => ReportNumbers {
                kind: 3,
                result,
                ..nothing
            },
            Some(Report::ReadDone(length)) => ReportNumbers {
                kind: 4,
                length,
                ..nothing
            },
            Some(Report::SeekDone) => ReportNumbers { kind: 5, ..nothing },
        }
    }
}

// A request in the numbers that C reads in a block: its kind and its flash page.
#[derive(Clone, Copy)]
pub(crate) struct RequestNumbers {
    pub kind: u8,
    pub page: usize,
}

impl From<&Outcome> for RequestNumbers {
    ghost use Rattle.std.specs.Prelude.{◌≡◌};
    ghost use Rattle.engine_state.specs.Answer.{request_of};
    ghost use Rattle.punelovash_block.specs.Block.{request_kind, request_page};

    ghost from_gives = { λ given numbers. let q = request_of given.now.request in (numbers.kind ≡ request_kind q) × (numbers.page ≡ request_page q) };

    fn from(given: &Outcome) -> RequestNumbers {
        match given.request {
            None => RequestNumbers { kind: 0, page: 0 },
            Some(Request::Write(page)) => RequestNumbers {
                kind: 1,
                page: page.0,
            },
            Some(Request::Erase(page)) => RequestNumbers {
                kind: 2,
                page: page.0,
            },
        }
    }
}

// The driver's word: 0 is OK, 2 is BUSY, and any other number is FAIL. A function, since `From<u8> for Driver` can stand only beside `Driver`,
// and a type around the number, to carry a From, would be no plainer.
pub(crate) fn word_from(number: u8) -> Driver
    ensures { word_of result ≡ word_from number }
{
    match number {
        0 => Driver::OK,
        2 => Driver::BUSY,
        _ => Driver::FAIL,
    }
}
