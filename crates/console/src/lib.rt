// What the programs share: what they lend, the line of a refusal, and a list of streams from what reads.
#![tactic(auto)]

ghost use Rattle.std.specs.Prelude.{◌≡◌, ◌≤◌, length, IfOk};

use std::io;
use std::io::Read;

// The least work area.
pub fn work_area() -> [u32; 16384]
    ensures { 16384 ≡ length result }
{
    [0; 16384]
}

// The output that document 01 has a program lend.
pub fn out_buffer() -> [u8; 65536]
    ensures { 65536 ≡ length result }
{
    [0; 65536]
}

// Twice the length that a stream may have: one that is longer is not read to its end, and ends the list.
pub fn list_buffer() -> [u8; 131072]
    ensures { 131072 ≡ length result }
{
    [0; 131072]
}

// The line of a refusal; of a duplicate it also tells where the name was first used.
pub fn refused(to: &impl Print, n: u8, rec: u32, first: u32) -> io::Result<()> {
    if n == 13 {
        println!(to; "refused {n} at {rec}, first at {first}")
    } else {
        println!(to; "refused {n} at {rec}")
    }
}

// Reads until the buffer is full or the input ends, and answers how many bytes it put at the buffer's start.
pub fn read_full(from: &mut impl Read, buf: &mut [u8]) -> io::Result<usize>
    ensures { IfOk result (λ n. n ≤ length buf.new) }
{
    let mut done = 0;
    while done < buf.len() {
        let n = from.read(&mut buf[done..])?;
        if n == 0 {
            break;
        }
        done += n;
    }
    Ok(done)
}

#[derive(Clone, Copy)]
enum Length {
    Is(u32),
    // the list is at its end, or ends inside a length
    End,
    Cut,
}

fn length_of(groups: &[u8; 5], n: usize) -> Length {
    if n == 0 {
        return Length::End;
    }
    match leb::read_u32(groups, 0) {
        Ok((len, _)) => Length::Is(len),
        Err(_) => Length::Cut,
    }
}

// The groups of a length, up to the first with its high bit clear.
fn next_length(from: &mut impl Read) -> io::Result<Length> {
    let mut groups = [0u8; 5];
    let mut n = 0;
    while n < 5 {
        let mut one = [0u8; 1];
        if read_full(from, &mut one)? == 0 {
            groups[n] = 128;
            return Ok(length_of(&groups, n));
        }
        groups[n] = one[0];
        n += 1;
        if one[0] < 128 {
            return Ok(length_of(&groups, n));
        }
    }
    Ok(length_of(&groups, n))
}

#[derive(Clone, Copy)]
pub enum Next {
    // so many bytes of the buffer
    Stream(usize),
    End,
    // the list ends inside a stream, or a stream is longer than the buffer
    Cut,
}

// The next stream of the list: its length in seven-bit groups, and its bytes.
pub fn next_stream(from: &mut impl Read, buf: &mut [u8]) -> io::Result<Next> {
    match next_length(from)? {
        Length::Is(len) => {
            let n = len as usize;
            if buf.len() < n {
                return Ok(Next::Cut);
            }
            if read_full(from, &mut buf[0..n])? < n {
                return Ok(Next::Cut);
            }
            Ok(Next::Stream(n))
        }
        Length::End => Ok(Next::End),
        Length::Cut => Ok(Next::Cut),
    }
}
