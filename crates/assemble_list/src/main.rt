// Reads streams from standard input, each preceded by its length in seven-bit groups, and prints two lines for each, of the call without names
// and of the one with them: `ok` and the module in hex, or the refusal. A list that ends inside a stream is said to be cut.
#![tactic(auto)]

ghost use Rattle.std.specs.Prelude.{◌≡◌, length};

use assembler::Said;
use console::Next;
use std::io;
use std::io::Read;

// Two digits for each byte.
fn hex_buffer() -> [u8; 131072]
    ensures { 131072 ≡ length result }
{
    [0; 131072]
}

const DIGITS: [u8; 16] = *b"0123456789ABCDEF";

// Both digits of each byte, as far as there is room.
fn hex_into(hex: &mut [u8], bytes: &[u8]) {
    for (pair, b) in hex.chunks_exact_mut(2).zip(bytes) {
        pair[0] = DIGITS[(*b / 16) as usize];
        pair[1] = DIGITS[(*b % 16) as usize];
    }
}

// The module in hex, in one write.
fn report(to: &impl Print, r: Said, out: &[u8], hex: &mut [u8]) -> io::Result<()> {
    if r.number != 0 {
        return console::refused(to, r.number, r.rec, r.first);
    }
    print!(to; "ok ")?;
    if r.len <= out.len() && 2 * r.len <= hex.len() {
        hex_into(hex, &out[..r.len]);
        to.write_all(&hex[..2 * r.len])?;
    }
    println!(to)
}

// A stream's two lines.
fn both(
    to: &impl Print,
    s: &[u8],
    work: &mut [u32],
    out: &mut [u8],
    hex: &mut [u8],
) -> io::Result<()> {
    let plain = assembler::assemble(s, work, out);
    report(to, plain, out, hex)?;
    let named = assembler::assemble_names(s, work, out);
    report(to, named, out, hex)
}

// One stream of the list; false where there is none.
fn one(
    from: &mut impl Read,
    to: &impl Print,
    buf: &mut [u8],
    work: &mut [u32],
    out: &mut [u8],
    hex: &mut [u8],
) -> io::Result<bool> {
    match console::next_stream(from, buf)? {
        Next::Stream(n) => {
            if buf.len() < n {
                return Ok(false);
            }
            both(to, &buf[0..n], work, out, hex)?;
            Ok(true)
        }
        Next::End => Ok(false),
        Next::Cut => {
            println!(to; "cut")?;
            Ok(false)
        }
    }
}

// So many streams at most.
fn all(
    from: &mut impl Read,
    to: &impl Print,
    buf: &mut [u8],
    work: &mut [u32],
    out: &mut [u8],
    hex: &mut [u8],
) -> io::Result<()> {
    for _ in 0..1000000 {
        if !one(from, to, buf, work, out, hex)? {
            break;
        }
    }
    Ok(())
}

fn main(rt: HostRuntime) -> io::Result<()> {
    let mut buf = console::list_buffer();
    let mut work = console::work_area();
    let mut out = console::out_buffer();
    let mut hex = hex_buffer();
    all(
        &mut rt.reader(),
        &rt,
        &mut buf,
        &mut work,
        &mut out,
        &mut hex,
    )
}
