// A list of events as bytes: fourteen bytes for each event's head, and then its own bytes.
ghost use Rattle.std.specs.Prelude.{◌≡◌, List, ℕ, ◌≤◌, length, get_or, Some, None};
ghost use Rattle.page.specs.Pick.{pick};
ghost use Rattle.page.specs.Word.{word_at};
ghost use Rattle.bench_flash.specs.Event.{event_of};
ghost use Rattle.bench_run.specs.Encoded.{good_from, read_client_from, append_client_from, event_from, event_size, holds_event};

use bench_flash::event::{Call, Completion, Event, Restart};
use bench_flash::operation::Left;
use engine_call::outcome::Driver;
use engine_state::state::Clients;
use page::id::EntryID;
use page::word;
use page::word::WordWidth;

// The bytes of an event's head.
pub const HEAD_SIZE: usize = 14;

// The options of an event, a byte of its head.
#[derive(Clone, Copy)]
struct Options(u8);

impl From<Options> for Driver {
    ghost use Rattle.std.specs.Prelude.{◌≡◌};
    ghost use Rattle.engine_call.specs.Outcome.{word_of};
    ghost use Rattle.bench_run.specs.Encoded.{driver_from};

    ghost from_gives = { λ options word. word_of word ≡ driver_from options.0 };

    fn from(options: Options) -> Driver {
        match options.0 % 4 {
            0 => Driver::OK,
            1 => Driver::BUSY,
            _ => Driver::FAIL,
        }
    }
}

impl From<Options> for Left {
    ghost use Rattle.std.specs.Prelude.{◌≡◌};
    ghost use Rattle.bench_flash.specs.Flash.{left_of};
    ghost use Rattle.bench_run.specs.Encoded.{left_from};

    ghost from_gives = { λ options left. left_of left ≡ left_from options.0 };

    fn from(options: Options) -> Left {
        match options.0 / 8 % 4 {
            0 => Left::Old,
            1 => Left::Blank,
            _ => Left::New,
        }
    }
}

impl Options {
    fn is_good(self) -> bool
        ensures { result ≡ good_from self.0 }
    {
        self.0 / 4 % 2 == 1
    }

    fn clients(self) -> Clients
        ensures { (result.read ≡ read_client_from self.0) × (result.append ≡ append_client_from self.0) }
    {
        Clients {
            read: self.0 / 32 % 2 == 1,
            append: self.0 / 64 % 2 == 1,
        }
    }
}

// The event at the front of bytes; its own bytes stand beside it. Its kind is matched as a number: each number is one, so that there is nothing to refuse.
#[tactic(auto, unfolding(crate::specs::Encoded::event_from))]
pub fn event(list: &[u8]) -> Event
    requires { HEAD_SIZE ≤ length list.now }
    ensures { (bytes : List ℕ) (room : ℕ) → let s = list.now in
        event_of result bytes room ≡ event_from (get_or s 0 0) (get_or s 1 0) (word_at 8 s 2) bytes room }
{
    let options = Options(list[1]);
    let number = word::read_word(WordWidth::EIGHT, list, 2);
    let word = Driver::from(options);
    let left = Left::from(options);
    let good = options.is_good();
    match list[0] {
        0 => Event::Call(Call::Append(number, word)),
        1 => Event::Call(Call::Read(number)),
        2 => Event::Call(Call::Seek(EntryID(number))),
        3 => Event::Call(Call::Sync(word)),
        4 => Event::Call(Call::Erase(word)),
        5 => Event::Call(Call::Deferred),
        6 => Event::Complete(Completion::Write(good), left),
        7 => Event::Complete(Completion::Erase(good, word), left),
        8 => Event::Cut(left),
        _ => Event::Restart(Restart {
            left,
            clients: options.clients(),
            size: number,
        }),
    }
}

// How many bytes the event at the front takes up, where they are all there.
#[tactic(auto, unfolding(crate::specs::Encoded::event_size, crate::specs::Encoded::holds_event))]
pub fn event_size(list: &[u8]) -> Option<usize>
    ensures { result ≡ pick (holds_event list.now) (Some (event_size list.now)) None }
{
    if list.len() < HEAD_SIZE {
        return None;
    }
    let size = HEAD_SIZE + word::read_four(list, 10) as usize;
    if list.len() < size { None } else { Some(size) }
}
