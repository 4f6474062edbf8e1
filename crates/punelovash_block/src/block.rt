// The block that a caller lends: 32 + 3 × width bytes with the log and what the last call gave. `W` is the board's word.
ghost use Rattle.std.specs.Prelude.{◌≡◌, true, List, [], ◌∷◌, ℕ, ◌+◌, ◌*◌, ◌≤◌, ◌<◌, length, get_or};
ghost use Rattle.page.specs.Word.{word_at, word_bytes};
ghost use Rattle.page.specs.Bytes.{overwrite};
ghost use Rattle.engine_state.specs.Answer.{number};
ghost use Rattle.engine_state.specs.Log.{setup_of, log_of, state_of};
ghost use Rattle.engine_call.specs.Outcome.{Lent, Lengths, done_of};
ghost use Rattle.punelovash_block.specs.Block.{block_size, flags_at, state_at, state_from, setup_at, log_at, Words, loaded_of, loaded, sized};
ghost use Rattle.punelovash_block.specs.Call.{block_done, misfit, no_log, ran, shape_refused, LoadsLent, AsIfLent};

use crate::numbers;
use crate::numbers::{ReportNumbers, RequestNumbers};
use engine_call::outcome;
use engine_call::outcome::Outcome;
use engine_restart::board_word::Word;
use engine_state::answer::Answer;
use engine_state::fits;
use engine_state::fits::LentLengths;
use engine_state::state::{Clients, Geometry, Log, Setup, State};
use page::id::EntryID;
use page::word;
use page::word::WordWidth;

// The places before the IDs, of which the oldest is the first.
const PAGE_SIZE_AT: usize = 0;

const PAGE_COUNT_AT: usize = 4;

const FIRST_PAGE_AT: usize = 8;

const FLAGS_AT: usize = 12;

const STATE_AT: usize = 15;

const OLDEST_AT: usize = 16;

// The places after the IDs, without the IDs' bytes.
const KEPT_AT: usize = 16;

const REPORT_AT: usize = 20;

const LOST_AT: usize = 21;

const RESULT_AT: usize = 22;

const REQUEST_AT: usize = 23;

const LENGTH_AT: usize = 24;

const PAGE_AT: usize = 28;

const BLOCK_REST: usize = 32;

// The bytes of the three IDs.
fn ids_size<W: Word>() -> usize
    ensures { (result ≡ 3 * W.WIDTH) × (result ≤ 24) }
{
    3 * W::WIDTH
}

// The bytes of a block.
pub(crate) fn block_size<W: Word>() -> usize
    ensures { result ≡ block_size W.WIDTH }
{
    BLOCK_REST + ids_size::<W>()
}

// A byte goes to its place.
fn put_byte(block: &mut [u8], at: usize, byte: u8)
    requires { at + 1 ≤ length block.old }
    ensures { block.new ≡ overwrite block.old at (byte ∷ []) }
{
    block[at] = byte;
}

// The ID at a place.
fn id_at<W: Word>(block: &[u8], at: usize) -> EntryID
    requires { at + W.WIDTH ≤ length block.now }
    ensures { result.0 ≡ word_at W.WIDTH block.now at }
{
    EntryID(word::read_word(WordWidth { bytes: W::WIDTH }, block, at))
}

// An ID goes to its place.
fn put_id<W: Word>(block: &mut [u8], at: usize, id: EntryID)
    requires { at + W.WIDTH ≤ length block.old }
    ensures { block.new ≡ overwrite block.old at (word_bytes W.WIDTH id.0) }
{
    word::write_word(WordWidth { bytes: W::WIDTH }, block, at, id.0);
}

// The sizes and the mode in a block.
pub(crate) fn setup_at<W: Word>(block: &[u8]) -> Setup
    requires { flags_at < length block.now }
    ensures { (setup_of result ≡ setup_at W.WIDTH block.now) × Words result.geometry }
{
    let geometry = Geometry {
        page_size: word::read_four(block, PAGE_SIZE_AT) as usize,
        page_count: word::read_four(block, PAGE_COUNT_AT) as usize,
        first_page: word::read_four(block, FIRST_PAGE_AT) as usize,
    };
    Setup {
        width: W::WIDTH,
        geometry,
        circular: block[FLAGS_AT] % 2 == 1,
    }
}

// The log of a block whose bytes were tested, with the state that they say.
fn log_at<W: Word>(state: State, block: &[u8]) -> Log
    requires { (length block.now ≡ block_size W.WIDTH) × (get_or block.now flags_at 0 ≤ 7)
        × (state_of state ≡ state_from (get_or block.now state_at 0)) }
    ensures { log_of result ≡ log_at W.WIDTH block.now }
{
    let width = W::WIDTH;
    let flags = block[FLAGS_AT];
    Log {
        setup: setup_at::<W>(block),
        clients: Clients {
            read: flags / 2 % 2 == 1,
            append: 4 <= flags,
        },
        state,
        oldest_entry_id: id_at::<W>(block, OLDEST_AT),
        read_entry_id: id_at::<W>(block, OLDEST_AT + width),
        append_entry_id: id_at::<W>(block, OLDEST_AT + 2 * width),
        length: word::read_four(block, KEPT_AT + ids_size::<W>()) as usize,
    }
}

// The log in a block. What is no log is told from one: another length, flags above 7, a state above 5.
#[tactic(auto, using(crate::proofs::Blocks::block_tests), unfolding(crate::specs::Block::loaded))]
pub(crate) fn load<W: Word>(block: &[u8]) -> Option<Log>
    ensures { loaded_of result ≡ loaded W.WIDTH block.now }
{
    if block.len() != block_size::<W>() {
        return None;
    }
    if 7 < block[FLAGS_AT] {
        return None;
    }
    let state = State::try_from(block[STATE_AT]).ok()?;
    Some(log_at::<W>(state, block))
}

// Why a block that is lent with a volume and two buffers gives no log: SHAPE refuses its sizes or what is lent, or it holds none.
#[derive(Clone, Copy)]
pub(crate) enum NotLoaded {
    Misfit,
    NoLog,
}

// The log in a block that is lent with a volume and two buffers: SHAPE comes first. The page size is compared with the buffer's length first, and then
// taken from there: so the compiler finds that a call's own look at SHAPE is this one.
#[tactic(auto, using(crate::proofs::Misfits::lent_tests), unfolding(crate::specs::Block::loaded, crate::specs::Call::misfit_by))]
pub(crate) fn load_lent<W: Word>(block: &[u8], lent: LentLengths) -> Result<Log, NotLoaded>
    ensures { LoadsLent W.WIDTH block.now lent.volume lent.page lent.hold result }
{
    if block.len() != block_size::<W>() {
        return Err(NotLoaded::NoLog);
    }
    let setup = setup_at::<W>(block);
    if lent.page != setup.geometry.page_size {
        return Err(NotLoaded::Misfit);
    }
    let geometry = Geometry {
        page_size: lent.page,
        ..setup.geometry
    };
    if !fits::shape_fits(Setup { geometry, ..setup }, lent) {
        return Err(NotLoaded::Misfit);
    }
    load::<W>(block).ok_or(NotLoaded::NoLog)
}

// The answer to a block that holds no log, of a call that is lent nothing but the block: SHAPE where its sizes don't fit.
#[tactic(auto, using(crate::proofs::Misfits::unlent_tests), unfolding(crate::specs::Call::no_log, crate::specs::Call::misfit_by))]
pub(crate) fn no_log<W: Word>(block: &[u8]) -> Answer
    ensures { (x : Lent) → AsIfLent (setup_at W.WIDTH block.now) x → number result ≡ no_log W.WIDTH block.now x }
{
    if block.len() != block_size::<W>() {
        return Answer::STATE;
    }
    if fits::sizes_fit(setup_at::<W>(block)) {
        return Answer::STATE;
    }
    Answer::SHAPE
}

// The same of a call that is lent a volume and two buffers.
#[tactic(auto, using(crate::proofs::Misfits::unlent_tests), unfolding(crate::specs::Call::no_log, crate::specs::Call::misfit_by))]
pub(crate) fn no_log_lent<W: Word>(block: &[u8], lent: LentLengths) -> Answer
    ensures { (x : Lent) → Lengths x lent.volume lent.page lent.hold → number result ≡ no_log W.WIDTH block.now x }
{
    if block.len() != block_size::<W>() {
        return Answer::STATE;
    }
    if fits::shape_fits(setup_at::<W>(block), lent) {
        return Answer::STATE;
    }
    Answer::SHAPE
}

// The lengths of what is not lent, by a log's own sizes.
pub(crate) fn as_if_lent(setup: Setup) -> LentLengths
    requires { Words setup.geometry }
    ensures { (x : Lent) → AsIfLent (setup_of setup) x → Lengths x result.volume result.page result.hold }
{
    let page = setup.geometry.page_size;
    LentLengths {
        volume: setup.geometry.page_count * page,
        page,
        hold: page,
    }
}

// The block takes what a call gave: the log, the report and the request; the answer's number. By reference: what is copied of a report the compiler keeps in
// memory, and each library is a tenth larger.
#[tactic(auto, unfolding(crate::specs::Block::saved))]
pub(crate) fn save<W: Word>(given: &Outcome, block: &mut [u8]) -> u32
    requires { length block.old ≡ block_size W.WIDTH }
    ensures { (page hold : List ℕ) → block_done result block.new page hold ≡ ran W.WIDTH block.old (done_of given.now page hold) }
{
    let width = W::WIDTH;
    let ids = ids_size::<W>();
    let log = given.log;
    put_byte(block, STATE_AT, u8::from(log.state));
    put_id::<W>(block, OLDEST_AT, log.oldest_entry_id);
    put_id::<W>(block, OLDEST_AT + width, log.read_entry_id);
    put_id::<W>(block, OLDEST_AT + 2 * width, log.append_entry_id);
    word::write_word(WordWidth::FOUR, block, KEPT_AT + ids, log.length);
    let report = ReportNumbers::from(given);
    put_byte(block, REPORT_AT + ids, report.kind);
    put_byte(block, LOST_AT + ids, u8::from(report.lost));
    put_byte(block, RESULT_AT + ids, u8::from(report.result));
    word::write_word(WordWidth::FOUR, block, LENGTH_AT + ids, report.length);
    let request = RequestNumbers::from(given);
    put_byte(block, REQUEST_AT + ids, request.kind);
    word::write_word(WordWidth::FOUR, block, PAGE_AT + ids, request.page);
    numbers::answer_number(given.answer)
}

// SHAPE: a block that holds a log says no report and no request, any other stays as it is.
#[tactic(auto, using(crate::proofs::Blocks::loaded_size), unfolding(crate::specs::Call::no_log))]
fn refuse_shape<W: Word>(block: &mut [u8]) -> u32
    ensures { (x : Lent) → misfit W.WIDTH block.old x ≡ true
        → block_done result block.new x.page x.hold ≡ shape_refused W.WIDTH block.old x }
{
    match load::<W>(block) {
        Some(log) => save::<W>(&outcome::still(log, Answer::SHAPE), block),
        None => numbers::answer_number(Answer::SHAPE),
    }
}

// A block that is lent gives no log: SHAPE, or else STATE, which leaves it as it is.
#[tactic(auto, unfolding(crate::specs::Call::no_log))]
pub(crate) fn refuse<W: Word>(why: NotLoaded, block: &mut [u8]) -> u32
    ensures { (x : Lent) → LoadsLent W.WIDTH block.old (length x.volume) (length x.page) (length x.hold) (Err why)
        → block_done result block.new x.page x.hold ≡ shape_refused W.WIDTH block.old x }
{
    match why {
        NotLoaded::Misfit => refuse_shape::<W>(block),
        NotLoaded::NoLog => numbers::answer_number(Answer::STATE),
    }
}

// The block takes a log's sizes and its byte of flags, which only a restart sets.
#[tactic(auto, unfolding(crate::specs::Block::sized))]
pub(crate) fn save_setup(log: &Log, block: &mut [u8])
    requires { flags_at < length block.old }
    ensures { let l = log_of log.now in block.new ≡ sized l.setup l.read_client l.append_client block.old }
{
    let geometry = log.setup.geometry;
    word::write_word(WordWidth::FOUR, block, PAGE_SIZE_AT, geometry.page_size);
    word::write_word(WordWidth::FOUR, block, PAGE_COUNT_AT, geometry.page_count);
    word::write_word(WordWidth::FOUR, block, FIRST_PAGE_AT, geometry.first_page);
    put_byte(block, FLAGS_AT, numbers::flags(log));
}
