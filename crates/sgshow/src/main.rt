// Reads a record of kind 1 from standard input, one byte more than the longest that is shown; writes the text of its simplified graph, or its refusal.
#![tactic(auto)]

use std::io;
use std::io::{Read, Write};

fn main(rt: HostRuntime) -> io::Result<()> {
    let mut record = Vec::new(rt.alloc());
    let mut input = rt.reader().take(show::RECORD_MOST as u64 + 1);
    input.read_to_end(&mut record)?;
    let mut text = [0u8; show::TEXT_MOST];
    let len = show::show(&record, &mut text);
    rt.stdout().write_all(&text[..len])
}
