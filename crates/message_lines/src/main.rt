//! Tries octets as SNMP messages: for each line of hexadecimal digits on standard input, one line on standard output,
//! with the message's shortest text and its fields, or `none` if the line isn't a message. With it anyone can see how
//! this test bench reads messages.
#![tactic(auto)]

mod line;
mod words;

use std::io::{self, BufRead, BufReader, BufWriter, Write};

fn main(rt: HostRuntime) -> io::Result<()> {
    let alloc = rt.alloc();
    let input = BufReader::new(alloc, rt.stdin())?;
    let mut output = BufWriter::new(alloc, rt.stdout())?;
    for line in input.lines(alloc) {
        let Ok(text) = line::line_of(alloc, line?.as_bytes()) else {
            return Err(io::Error::from(io::ErrorKind::OutOfMemory));
        };
        output.write_all(&text)?;
        output.write_all(b"\n")?;
    }
    output.flush()
}
