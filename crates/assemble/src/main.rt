// Reads a stream from standard input, and writes its module, or the line "refused N at R", and of a name that comes twice "refused 13 at R,
// first at F". With --names the module has a name section; with --strict every number must point somewhere.
#![tactic(auto)]

ghost use Rattle.std.specs.Prelude.{◌≡◌, length};

use assembler::Said;
use std::env::{Env, FillError};
use std::io;
use std::io::Read;

// One byte more than a stream may have, so that a longer one is refused and not cut.
fn stream_buffer() -> [u8; 65537]
    ensures { 65537 ≡ length result }
{
    [0; 65537]
}

fn report(to: &impl Print, r: Said, out: &[u8]) -> io::Result<()> {
    if r.number == 0 {
        let len = r.len;
        if len <= out.len() {
            to.write_all(&out[..len])?;
        }
        return Ok(());
    }
    console::refused(to, r.number, r.rec, r.first)
}

fn assembled(s: &[u8], work: &mut [u32], out: &mut [u8], strict: bool, names: bool) -> Said {
    if strict {
        if names {
            return assembler::assemble_strict_names(s, work, out);
        }
        return assembler::assemble_strict(s, work, out);
    }
    if names {
        return assembler::assemble_names(s, work, out);
    }
    assembler::assemble(s, work, out)
}

fn run(
    from: &mut impl Read,
    to: &impl Print,
    buf: &mut [u8],
    work: &mut [u32],
    out: &mut [u8],
    strict: bool,
    names: bool,
) -> io::Result<()> {
    let n = console::read_full(from, buf)?;
    let r = assembled(&buf[0..n], work, out, strict, names);
    report(to, r, out)
}

// Lends what a call needs.
fn with_buffers(rt: &(impl Input + Print), strict: bool, names: bool) -> io::Result<()> {
    let mut buf = stream_buffer();
    let mut work = console::work_area();
    let mut out = console::out_buffer();
    run(
        &mut rt.reader(),
        rt,
        &mut buf,
        &mut work,
        &mut out,
        strict,
        names,
    )
}

#[derive(Clone, Copy)]
enum Word {
    Names,
    Strict,
    Other,
}

fn word_of(s: &[u8]) -> Word {
    match s {
        b"--names" => Word::Names,
        b"--strict" => Word::Strict,
        _ => Word::Other,
    }
}

// None where there is no such argument. Of one that has no room nothing is read.
fn word_at(env: &impl Env, i: usize) -> Option<Word> {
    let mut buf = [0u8; 8];
    match env.arg(i, &mut buf) {
        Ok(n) => Some(word_of(&buf[..n])),
        Err(FillError::TooLong) => Some(Word::Other),
        Err(FillError::NotPresent) => None,
    }
}

fn usage(to: &impl Eprint) -> io::Result<()> {
    eprintln!(to; "usage: assemble [--strict] [--names] <STREAM >MODULE")
}

fn with_one(rt: &(impl Input + Print + Eprint), a: Word) -> io::Result<()> {
    match a {
        Word::Names => with_buffers(rt, false, true),
        Word::Strict => with_buffers(rt, true, false),
        Word::Other => usage(rt),
    }
}

// Both, in either order.
fn with_two(rt: &(impl Input + Print + Eprint), a: Word, b: Word) -> io::Result<()> {
    match (a, b) {
        (Word::Names, Word::Strict) | (Word::Strict, Word::Names) => with_buffers(rt, true, true),
        _ => usage(rt),
    }
}

fn main(rt: HostRuntime) -> io::Result<()> {
    let words = (word_at(&rt, 1), word_at(&rt, 2), word_at(&rt, 3));
    match words {
        (None, _, _) => with_buffers(&rt, false, false),
        (Some(a), None, _) => with_one(&rt, a),
        (Some(a), Some(b), None) => with_two(&rt, a, b),
        _ => usage(&rt),
    }
}
