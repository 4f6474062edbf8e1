// Runs lists of events, read from standard input as bytes. Before each stand the width of a word (one byte) and how many bytes the list has (four bytes, the
// lowest first). Each runs on a fresh volume of 4 pages of 8 words. A further restart then comes in the middle of whatever is under way, which leaves the old
// page. Writes for each the oldest ID and the append ID that it found, how many entries were read, whether these are all or the front of them, and their bytes
// with each length before them. Input of more than 4,096 bytes is refused with a line.
#![tactic(auto)]

ghost use Rattle.std.specs.Prelude.{length};
ghost use Rattle.std.specs.Iterator.{at_most};

use bench_flash::operation::Left;
use bench_run::run;
use bench_run::run::FoundLog;
use engine_state::state::{Geometry, Setup};
use std::io;
use tool_script::trace::Bytes;
use tool_script::{input, text};

// The most bytes that all lists together may have.
const LIMIT: usize = 4096;

// The lists that are left, with the width of a word in each, to the last one that is whole.
#[derive(Drop)]
struct Lists<'a>(&'a [u8]);

impl<'a> Iterator for Lists<'a> {
    type Item = (u8, &'a [u8]);

    ghost remaining = { λ s. at_most (length s.0.now) };

    fn next(&mut self) -> Option<(u8, &'a [u8])> {
        let ([width, a, b, c, d], rest) = self.0.split_first_chunk::<5>()?;
        let size = u32::from_le_bytes([*a, *b, *c, *d]);
        let (list, rest) = rest.split_at_checked(size as usize)?;
        self.0 = rest;
        Some((*width, list))
    }
}

fn show(rt: &impl Print, found: FoundLog, entries: &[u8]) -> io::Result<()> {
    let (oldest, append, count) = (found.oldest.0, found.append.0, found.entries.count);
    let reached = if found.entries.whole { "all" } else { "front" };
    let entries = Bytes(text::part(entries, 0, found.entries.used));
    println!(rt; "found {oldest} {append} {count} {reached} {entries}")
}

// Runs a list. The volume and the buffers are as long as the width asks for, up to 8 bytes a word.
fn list(rt: &impl Print, width: u8, list: &[u8]) -> io::Result<()> {
    let mut volume = [255; 256];
    let mut page = [0; 64];
    let mut hold = [0; 64];
    let mut entries = [0; 1024];
    let width = usize::from(width);
    let page_size = 8 * width;
    let setup = Setup {
        width,
        geometry: Geometry {
            page_size,
            page_count: 4,
            first_page: 100,
        },
        circular: true,
    };
    let ran = run::run(
        setup,
        list,
        Left::Old,
        true,
        text::front(&mut volume, 4 * page_size),
        text::front(&mut page, page_size),
        text::front(&mut hold, page_size),
        &mut entries,
    );
    match ran {
        Ok(found) => show(rt, found, &entries),
        Err(_) => println!(rt; "refused"),
    }
}

fn main(rt: HostRuntime) -> io::Result<()> {
    let mut bytes = [0; 4097];
    let n = input::read_full(&mut rt.stdin(), &mut bytes)?;
    if LIMIT < n {
        return println!(rt; "the lists have more than 4096 bytes");
    }
    for (width, bytes) in Lists(&bytes[..n]) {
        list(&rt, width, bytes)?;
    }
    Ok(())
}
