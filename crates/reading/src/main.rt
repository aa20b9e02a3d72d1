// Reads streams from standard input, each preceded by its length in seven-bit groups, and prints a line for each: how many records
// it has, or its refusal. A list that ends inside a stream is said to be cut.
#![tactic(auto)]

use console::Next;
use std::io;
use std::io::Read;
use syntax::Resolved;

fn report(to: &impl Print, c: Resolved<u32>) -> io::Result<()> {
    match c {
        Ok(n) => println!(to; "records {n}"),
        Err(r) => console::refused(to, u8::from(r.fault), r.rec, r.first),
    }
}

// One stream of the list; false where there is none.
fn read_one(
    from: &mut impl Read,
    to: &impl Print,
    buf: &mut [u8],
    work: &mut [u32],
) -> io::Result<bool> {
    match console::next_stream(from, buf)? {
        Next::Stream(n) => {
            if buf.len() < n {
                return Ok(false);
            }
            report(to, stream::read_all(&buf[0..n], work))?;
            Ok(true)
        }
        Next::End => Ok(false),
        Next::Cut => {
            println!(to; "cut")?;
            Ok(false)
        }
    }
}

// So many streams at most.
fn read_list(
    from: &mut impl Read,
    to: &impl Print,
    buf: &mut [u8],
    work: &mut [u32],
) -> io::Result<()> {
    for _ in 0..1000000 {
        if !read_one(from, to, buf, work)? {
            break;
        }
    }
    Ok(())
}

fn main(rt: HostRuntime) -> io::Result<()> {
    let mut buf = console::list_buffer();
    let mut work = console::work_area();
    read_list(&mut rt.reader(), &rt, &mut buf, &mut work)
}
