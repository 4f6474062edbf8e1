// The bench flash: an operation that the driver accepted is under way until it ends, and then its slot holds what it left.
ghost use Rattle.std.specs.Prelude.{◌≡◌, Some};
ghost use Rattle.engine_state.specs.Answer.{request_of};
ghost use Rattle.engine_call.specs.Outcome.{word_of};
ghost use Rattle.bench_flash.specs.Flash.{operation_of, no_operation, requested, under_way, slot_fits, in_slot, blank_page};
ghost use Rattle.bench_flash.specs.Flash.{left_of, left_after, leave};

use engine_call::outcome::Driver;
use engine_state::answer::Request;
use page::PAD_BYTE;

// An operation that is under way, and its slot.
#[derive(Clone, Copy)]
pub enum Operation {
    Write(usize),
    Erase(usize),
}

impl Operation {
    // The operation that a request asks for: its slot is the flash page less the first.
    fn requested(request: Request, first_page: usize) -> Operation
        ensures { operation_of (Some result) ≡ requested no_operation (request_of (Some request)) first_page }
    {
        match request {
            Request::Write(page) => Operation::Write(page.0.saturating_sub(first_page)),
            Request::Erase(page) => Operation::Erase(page.0.saturating_sub(first_page)),
        }
    }
}

// The operation under way after a call: a request that the driver accepts starts one.
pub fn start(
    operation: Option<Operation>,
    request: Option<Request>,
    word: Driver,
    first_page: usize,
) -> Option<Operation>
    ensures { operation_of result ≡ under_way (operation_of operation) (request_of request) (word_of word) first_page }
{
    match word {
        Driver::OK => request
            .map(|asked| Operation::requested(asked, first_page))
            .or(operation),
        Driver::BUSY | Driver::FAIL => operation,
    }
}

// What an operation leaves in its slot: the old page, 0xFF everywhere, or the new page, which of an erase is 0xFF everywhere.
#[derive(Clone, Copy)]
pub enum Left {
    Old,
    Blank,
    New,
}

impl Left {
    // What an operation leaves that ends well or not.
    pub fn after(self, good: bool) -> Left
        ensures { left_of result ≡ left_after good (left_of self) }
    {
        if good { Left::New } else { self }
    }
}

// A slot, and the page size P of its volume.
#[derive(Clone, Copy)]
pub struct Slot {
    pub number: usize,
    pub page_size: usize,
}

impl Slot {
    // Whether a volume has it.
    fn fits(self, volume_len: usize) -> bool
        ensures { result ≡ slot_fits self.page_size self.number volume_len }
    {
        self.page_size == 0 || self.number < volume_len / self.page_size
    }

    // It takes a page; a slot that the volume hasn't, or a page of another size, changes nothing.
    fn put(self, volume: &mut [u8], page: &[u8])
        ensures { volume.new ≡ in_slot self.page_size self.number page.now volume.old }
    {
        if self.fits(volume.len()) && page.len() == self.page_size {
            page::bytes::copy_in(volume, self.number * self.page_size, page);
        }
    }

    // It becomes 0xFF everywhere.
    fn blank(self, volume: &mut [u8])
        ensures { volume.new ≡ in_slot self.page_size self.number (blank_page self.page_size) volume.old }
    {
        if self.fits(volume.len()) {
            let start = self.number * self.page_size;
            volume[start..start + self.page_size].fill(PAD_BYTE);
        }
    }

    // A write has ended.
    pub fn end_write(self, volume: &mut [u8], page: &[u8], left: Left)
        ensures { volume.new ≡ leave self.page_size self.number page.now (left_of left) volume.old }
    {
        match left {
            Left::Old => {}
            Left::Blank => self.blank(volume),
            Left::New => self.put(volume, page),
        }
    }

    // An erase has ended.
    pub fn end_erase(self, volume: &mut [u8], left: Left)
        ensures { volume.new ≡ leave self.page_size self.number (blank_page self.page_size) (left_of left) volume.old }
    {
        match left {
            Left::Old => {}
            Left::Blank | Left::New => self.blank(volume),
        }
    }
}
