// A line of the script, read as a call.
ghost use Rattle.std.specs.Prelude.{◌≡◌, ◌≤◌, ◌↔◌, ℕ, List, ◌∷◌, length, take, codes, IsTrue, IfOk};
ghost use Rattle.tool_script.specs.Words.{words_left};
ghost use Rattle.tool_script.specs.Lines.{Spells};
ghost use Rattle.tool_script.specs.Spelled.{name_word, driver_word, left_word, state_word, end_word};

use crate::buffer::Buffer;
use crate::fault::Fault;
use crate::trace;
use crate::words::{Word, Words};
use bench_flash::event::{Call, Completion};
use bench_flash::operation::Left;
use engine_call::outcome::Driver;
use engine_state::state::State;
use page::id::EntryID;
use std::fmt;

// A line's first word.
#[derive(Clone, Copy, PartialEq, Eq)]
pub enum Name {
    Sizes,
    Volume,
    Restart,
    Append,
    Read,
    Seek,
    Sync,
    Erase,
    Deferred,
    WriteComplete,
    EraseComplete,
    Cut,
    Get,
    Survey,
    State,
    Walk,
    Nearest,
    Between,
}

impl Name {
    // The word, as it is read and printed: a function, since both go by it.
    #[inline(always)]
    fn word(self) -> &'static str
        ensures { result.now ≡ name_word self }
    {
        match self {
            Name::Sizes => "sizes",
            Name::Volume => "volume",
            Name::Restart => "restart",
            Name::Append => "append",
            Name::Read => "read",
            Name::Seek => "seek",
            Name::Sync => "sync",
            Name::Erase => "erase",
            Name::Deferred => "deferred",
            Name::WriteComplete => "write_complete",
            Name::EraseComplete => "erase_complete",
            Name::Cut => "cut",
            Name::Get => "get",
            Name::Survey => "survey",
            Name::State => "state",
            Name::Walk => "walk",
            Name::Nearest => "nearest",
            Name::Between => "between",
        }
    }

    #[inline(always)]
    fn is(self, word: &[u8]) -> bool
        ensures { IsTrue result ↔ (word.now ≡ name_word self) }
    {
        word == self.word().as_bytes()
    }
}

impl Word for Name {
    ghost spelled = { name_word };

    // A match with guards and no array that is searched: that each value is read is seen in the arms. Tried with an array and `find`: the check
    // then does not prove the clause `none` by itself.
    fn from_word(word: &[u8]) -> Option<Self> {
        match word {
            _ if Name::Sizes.is(word) => Some(Name::Sizes),
            _ if Name::Volume.is(word) => Some(Name::Volume),
            _ if Name::Restart.is(word) => Some(Name::Restart),
            _ if Name::Append.is(word) => Some(Name::Append),
            _ if Name::Read.is(word) => Some(Name::Read),
            _ if Name::Seek.is(word) => Some(Name::Seek),
            _ if Name::Sync.is(word) => Some(Name::Sync),
            _ if Name::Erase.is(word) => Some(Name::Erase),
            _ if Name::Deferred.is(word) => Some(Name::Deferred),
            _ if Name::WriteComplete.is(word) => Some(Name::WriteComplete),
            _ if Name::EraseComplete.is(word) => Some(Name::EraseComplete),
            _ if Name::Cut.is(word) => Some(Name::Cut),
            _ if Name::Get.is(word) => Some(Name::Get),
            _ if Name::Survey.is(word) => Some(Name::Survey),
            _ if Name::State.is(word) => Some(Name::State),
            _ if Name::Walk.is(word) => Some(Name::Walk),
            _ if Name::Nearest.is(word) => Some(Name::Nearest),
            _ if Name::Between.is(word) => Some(Name::Between),
            _ => None,
        }
    }
}

impl fmt::Display for Name {
    ghost use Rattle.std.specs.Prelude.{Some};

    ghost output = { λ name. Some (name_word name) };

    fn fmt<W: fmt::Write>(&self, f: &mut fmt::Formatter<W>) -> fmt::Result {
        f.write_str(self.word())
    }
}

impl Word for Driver {
    ghost spelled = { driver_word };

    fn from_word(word: &[u8]) -> Option<Self> {
        match word {
            b"ok" => Some(Driver::OK),
            b"busy" => Some(Driver::BUSY),
            b"fail" => Some(Driver::FAIL),
            _ => None,
        }
    }
}

impl Word for Left {
    ghost spelled = { left_word };

    fn from_word(word: &[u8]) -> Option<Self> {
        match word {
            b"old" => Some(Left::Old),
            b"blank" => Some(Left::Blank),
            b"new" => Some(Left::New),
            _ => None,
        }
    }
}

#[inline(always)]
fn is_state(word: &[u8], state: State) -> bool
    ensures { IsTrue result ↔ (word.now ≡ state_word state) }
{
    word == trace::state_name(state).as_bytes()
}

impl Word for State {
    ghost spelled = { state_word };

    // A match with guards, as for `Name`.
    fn from_word(word: &[u8]) -> Option<Self> {
        match word {
            _ if is_state(word, State::Idle) => Some(State::Idle),
            _ if is_state(word, State::Read) => Some(State::Read),
            _ if is_state(word, State::Seek) => Some(State::Seek),
            _ if is_state(word, State::Append) => Some(State::Append),
            _ if is_state(word, State::Sync) => Some(State::Sync),
            _ if is_state(word, State::Erase) => Some(State::Erase),
            _ => None,
        }
    }
}

// How an operation ended.
#[derive(Clone, Copy)]
enum End {
    Well,
    Badly,
}

impl Word for End {
    ghost spelled = { end_word };

    fn from_word(word: &[u8]) -> Option<Self> {
        match word {
            b"ok" => Some(End::Well),
            b"fail" => Some(End::Badly),
            _ => None,
        }
    }
}

// A state in place of the log's: its name, the IDs O, R and A, and the kept length.
#[derive(Clone, Copy)]
pub struct Put {
    pub state: State,
    pub oldest: EntryID,
    pub read: EntryID,
    pub append: EntryID,
    pub length: usize,
}

// Which marks are to be listed, and where: the first stamp and the last, and how many words the slice has.
#[derive(Clone, Copy)]
pub struct Listing {
    pub first: u32,
    pub last: u32,
    pub count: usize,
}

// The lines that are no call of the log's engine.
#[derive(Clone, Copy)]
pub enum Other {
    Cut(Left),
    Get,
    Survey(usize),
    Volume,
    Put(Put),
    Walk,
    Nearest(u32),
    Between(Listing),
}

// A line after the first three. The client's buffer stands beside a call, and beside a walk, whose page it is.
#[derive(Clone, Copy)]
pub enum Line {
    Call(Call),
    Complete(Completion, Left),
    Other(Other),
}

fn append<const SIZE: usize>(mut words: Words, client: &mut Buffer<SIZE>) -> Result<Line, Fault>
    ensures { length (words_left words.entry.rest) ≤ 3
        → IfOk result (λ line. Spells (codes "append" ∷ words_left words.entry.rest) line (take client.new.len client.new.bytes)) }
{
    let length = words.number()?;
    words.bytes(client)?;
    Ok(Line::Call(Call::Append(length, words.word()?)))
}

fn read<const SIZE: usize>(mut words: Words, client: &mut Buffer<SIZE>) -> Result<Line, Fault>
    ensures { length (words_left words.entry.rest) ≤ 2
        → IfOk result (λ line. Spells (codes "read" ∷ words_left words.entry.rest) line (take client.new.len client.new.bytes)) }
{
    let length = words.number()?;
    words.bytes(client)?;
    Ok(Line::Call(Call::Read(length)))
}

// After `ok` a write leaves the new page; after `fail` one of three.
fn write_complete(mut words: Words) -> Result<Line, Fault>
    ensures { (client : List ℕ) → length (words_left words.entry.rest) ≤ 2
        → IfOk result (λ line. Spells (codes "write_complete" ∷ words_left words.entry.rest) line client) }
{
    match (words.word()?, words.word()?) {
        (End::Well, Left::New) => Ok(Line::Complete(Completion::Write(true), Left::New)),
        (End::Well, _) => Err(Fault::Word),
        (End::Badly, left) => Ok(Line::Complete(Completion::Write(false), left)),
    }
}

// After `ok` an erase leaves 0xFF everywhere; after `fail` one of two.
fn erase_complete(mut words: Words) -> Result<Line, Fault>
    ensures { (client : List ℕ) → length (words_left words.entry.rest) ≤ 3
        → IfOk result (λ line. Spells (codes "erase_complete" ∷ words_left words.entry.rest) line client) }
{
    let (end, left, word) = (words.word()?, words.word()?, words.word()?);
    match (end, left) {
        (End::Well, Left::Blank) => Ok(Line::Complete(Completion::Erase(true, word), left)),
        (End::Badly, Left::Old | Left::Blank) => {
            Ok(Line::Complete(Completion::Erase(false, word), left))
        }
        (End::Well, Left::Old | Left::New) | (End::Badly, Left::New) => Err(Fault::Word),
    }
}

fn state_put(mut words: Words) -> Result<Line, Fault>
    ensures { (client : List ℕ) → length (words_left words.entry.rest) ≤ 5
        → IfOk result (λ line. Spells (codes "state" ∷ words_left words.entry.rest) line client) }
{
    Ok(Line::Other(Other::Put(Put {
        state: words.word()?,
        oldest: EntryID(words.number()?),
        read: EntryID(words.number()?),
        append: EntryID(words.number()?),
        length: words.number()?,
    })))
}

// A page of at most 4,096 bytes.
fn walk<const SIZE: usize>(mut words: Words, page: &mut Buffer<SIZE>) -> Result<Line, Fault>
    ensures { length (words_left words.entry.rest) ≤ 1
        → IfOk result (λ line. Spells (codes "walk" ∷ words_left words.entry.rest) line (take page.new.len page.new.bytes)) }
{
    words.bytes(page)?;
    if 4096 < page.as_slice().len() {
        return Err(Fault::Bytes);
    }
    Ok(Line::Other(Other::Walk))
}

// A slice of at most 4,096 words.
fn between(mut words: Words) -> Result<Line, Fault>
    ensures { (client : List ℕ) → length (words_left words.entry.rest) ≤ 3
        → IfOk result (λ line. Spells (codes "between" ∷ words_left words.entry.rest) line client) }
{
    Ok(Line::Other(Other::Between(Listing {
        first: words.stamp()?,
        last: words.stamp()?,
        count: words.number_up_to(4096)?,
    })))
}

// A line after the first three, of which the words after its name are given. BYTES go to the client's buffer.
pub fn parse_line<const SIZE: usize>(
    name: Name,
    words: Words,
    client: &mut Buffer<SIZE>,
) -> Result<Line, Fault>
    ensures { IfOk result (λ line. Spells (name_word name ∷ words_left words.entry.rest) line (take client.new.len client.new.bytes)) }
{
    client.clear();
    match name {
        Name::Sizes | Name::Restart => Err(Fault::Place),
        Name::Append => append(words.at_most(3)?, client),
        Name::Read => read(words.at_most(2)?, client),
        Name::Seek => Ok(Line::Call(Call::Seek(EntryID(words.at_most(1)?.number()?)))),
        Name::Sync => Ok(Line::Call(Call::Sync(words.at_most(1)?.word()?))),
        Name::Erase => Ok(Line::Call(Call::Erase(words.at_most(1)?.word()?))),
        Name::Deferred => words.at_most(0).map(|_| Line::Call(Call::Deferred)),
        Name::WriteComplete => write_complete(words.at_most(2)?),
        Name::EraseComplete => erase_complete(words.at_most(3)?),
        Name::Cut => Ok(Line::Other(Other::Cut(words.at_most(1)?.word()?))),
        Name::Get => words.at_most(0).map(|_| Line::Other(Other::Get)),
        Name::Survey => Ok(Line::Other(Other::Survey(words.at_most(1)?.number_up_to(4096)?))),
        Name::Volume => words.at_most(0).map(|_| Line::Other(Other::Volume)),
        Name::State => state_put(words.at_most(5)?),
        Name::Walk => walk(words.at_most(1)?, client),
        Name::Nearest => Ok(Line::Other(Other::Nearest(words.at_most(1)?.stamp()?))),
        Name::Between => between(words.at_most(3)?),
    }
}
