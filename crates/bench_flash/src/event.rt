// The events of a list. The bytes of an append, of a read's buffer and of a restart's buffers stand beside them.
ghost use Rattle.std.specs.Prelude.{◌≡◌, List, ℕ};
ghost use Rattle.engine_call.specs.Outcome.{word_of};
ghost use Rattle.engine_call.specs.Call.{call_word, ends_well, completion_word};
ghost use Rattle.bench_flash.specs.Event.{call_of, completion_of};

use crate::operation::Left;
use engine_call::outcome::Driver;
use engine_state::state::Clients;
use page::id::EntryID;

// An append and a read have their length.
#[derive(Clone, Copy)]
pub enum Call {
    Append(usize, Driver),
    Sync(Driver),
    Read(usize),
    Seek(EntryID),
    Deferred,
    Erase(Driver),
}

impl Call {
    // The driver's word to the request that it may make.
    pub fn word(self) -> Driver
        ensures { (bytes : List ℕ) (room : ℕ) → word_of result ≡ call_word (call_of self bytes room) }
    {
        match self {
            Call::Append(_, word) | Call::Sync(word) | Call::Erase(word) => word,
            Call::Read(_) | Call::Seek(_) | Call::Deferred => Driver::OK,
        }
    }
}

// A completion is good or not; an erase's has the driver's word to the next request.
#[derive(Clone, Copy)]
pub enum Completion {
    Write(bool),
    Erase(bool, Driver),
}

impl Completion {
    pub fn is_good(self) -> bool
        ensures { result ≡ ends_well (completion_of self) }
    {
        match self {
            Completion::Write(good) | Completion::Erase(good, _) => good,
        }
    }

    // The driver's word to the request that it may make.
    pub fn word(self) -> Driver
        ensures { word_of result ≡ completion_word (completion_of self) }
    {
        match self {
            Completion::Write(_) => Driver::OK,
            Completion::Erase(_, word) => word,
        }
    }
}

// What a restart brings: what it leaves of an operation under way, its client flags and the length of its page buffer.
#[derive(Clone, Copy)]
pub struct Restart {
    pub left: Left,
    pub clients: Clients,
    pub size: usize,
}

// A completion and a cut say what the operation left that was under way.
#[derive(Clone, Copy)]
pub enum Event {
    Call(Call),
    Complete(Completion, Left),
    Cut(Left),
    Restart(Restart),
}
