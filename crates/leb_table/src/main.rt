// Prints numbers in groups as the functions of leb write and read them, a line for each.
#![tactic(auto)]

use std::io;
use syntax::Fault;

// The first n bytes, a space before each.
fn hex(rt: &impl Print, s: &[u8], n: usize) -> io::Result<()> {
    for b in s.iter().take(n) {
        print!(rt; " {b:02X}")?;
    }
    Ok(())
}

fn groups(rt: &impl Print, s: &[u8], n: usize) -> io::Result<()> {
    print!(rt; ":")?;
    hex(rt, s, n)?;
    println!(rt)
}

fn u(rt: &impl Print, x: u64) -> io::Result<()> {
    let mut out = [0u8; 10];
    let n = leb::put_u(&mut out, 0, x);
    print!(rt; "u {x}")?;
    groups(rt, &out, n)
}

fn count(rt: &impl Print, x: u64) -> io::Result<()> {
    let n = leb::group_count(x);
    println!(rt; "count {x}: {n}")
}

// A signed number's name says what its bits are.
fn s32(rt: &impl Print, name: &str, x: u32) -> io::Result<()> {
    let mut out = [0u8; 10];
    let n = leb::put_i32(&mut out, 0, x);
    print!(rt; "s32 {name}")?;
    groups(rt, &out, n)
}

fn s64(rt: &impl Print, name: &str, x: u64) -> io::Result<()> {
    let mut out = [0u8; 10];
    let n = leb::put_i64(&mut out, 0, x);
    print!(rt; "s64 {name}")?;
    groups(rt, &out, n)
}

fn s33(rt: &impl Print, x: u32) -> io::Result<()> {
    let mut out = [0u8; 10];
    let n = leb::put_s33(&mut out, 0, x);
    print!(rt; "s33 {x}")?;
    groups(rt, &out, n)
}

fn got(rt: &impl Print, value: u64, next: usize) -> io::Result<()> {
    println!(rt; ": {value} next {next}")
}

fn refused(rt: &impl Print, fault: Fault) -> io::Result<()> {
    let n = u8::from(fault);
    println!(rt; ": refused {n}")
}

fn read_u32(rt: &impl Print, s: &[u8]) -> io::Result<()> {
    print!(rt; "read u32")?;
    hex(rt, s, s.len())?;
    match leb::read_u32(s, 0) {
        Ok((value, next)) => got(rt, value as u64, next),
        Err(n) => refused(rt, n),
    }
}

fn read_u64(rt: &impl Print, s: &[u8]) -> io::Result<()> {
    print!(rt; "read u64")?;
    hex(rt, s, s.len())?;
    match leb::read_u64(s, 0) {
        Ok((value, next)) => got(rt, value, next),
        Err(n) => refused(rt, n),
    }
}

fn unsigned(rt: &impl Print) -> io::Result<()> {
    u(rt, 0)?;
    u(rt, 127)?;
    u(rt, 128)?;
    u(rt, 16383)?;
    u(rt, 16384)
}

fn unsigned_ends(rt: &impl Print) -> io::Result<()> {
    u(rt, 4294967295)?;
    u(rt, 9223372036854775808)?;
    u(rt, 18446744073709551615)
}

// A power of 128, and the number below it.
fn around(rt: &impl Print, below: u64, power: u64) -> io::Result<()> {
    count(rt, below)?;
    count(rt, power)
}

fn counts(rt: &impl Print) -> io::Result<()> {
    around(rt, 0, 1)?;
    around(rt, 127, 128)?;
    around(rt, 16383, 16384)?;
    around(rt, 2097151, 2097152)?;
    around(rt, 268435455, 268435456)
}

fn count_ends(rt: &impl Print) -> io::Result<()> {
    around(rt, 34359738367, 34359738368)?;
    around(rt, 4398046511103, 4398046511104)?;
    around(rt, 562949953421311, 562949953421312)?;
    around(rt, 72057594037927935, 72057594037927936)?;
    around(rt, 9223372036854775807, 9223372036854775808)?;
    count(rt, 18446744073709551615)
}

fn signed32(rt: &impl Print) -> io::Result<()> {
    s32(rt, "63", 63)?;
    s32(rt, "64", 64)?;
    s32(rt, "-1", 4294967295)?;
    s32(rt, "-64", 4294967232)?;
    s32(rt, "-65", 4294967231)
}

fn signed64(rt: &impl Print) -> io::Result<()> {
    s64(rt, "63", 63)?;
    s64(rt, "64", 64)?;
    s64(rt, "-1", 18446744073709551615)?;
    s64(rt, "-64", 18446744073709551552)?;
    s64(rt, "-65", 18446744073709551551)
}

fn signed_ends(rt: &impl Print) -> io::Result<()> {
    s32(rt, "2147483647", 2147483647)?;
    s32(rt, "-2147483648", 2147483648)?;
    s64(rt, "9223372036854775807", 9223372036854775807)?;
    s64(rt, "-9223372036854775808", 9223372036854775808)
}

fn types(rt: &impl Print) -> io::Result<()> {
    s33(rt, 0)?;
    s33(rt, 63)?;
    s33(rt, 64)?;
    s33(rt, 255)?;
    s33(rt, 4294967295)
}

fn read32(rt: &impl Print) -> io::Result<()> {
    read_u32(rt, b"\x00")?;
    read_u32(rt, b"\x7F")?;
    read_u32(rt, b"\x80\x01")?;
    read_u32(rt, b"\x80\x80\x80\x80\x01")?;
    read_u32(rt, b"\xFF\xFF\xFF\xFF\x0F")
}

fn refused32(rt: &impl Print) -> io::Result<()> {
    read_u32(rt, b"")?;
    read_u32(rt, b"\x80")?;
    read_u32(rt, b"\xFF\xFF\xFF\xFF")?;
    read_u32(rt, b"\xFF\xFF\xFF\xFF\x10")?;
    read_u32(rt, b"\xFF\xFF\xFF\xFF\x8F")
}

fn read64(rt: &impl Print) -> io::Result<()> {
    read_u64(rt, b"\x7F")?;
    read_u64(rt, b"\x80\x80\x80\x80\x80\x80\x80\x80\x80\x01")?;
    read_u64(rt, b"\xFF\xFF\xFF\xFF\xFF\xFF\xFF\xFF\xFF\x01")
}

fn refused64(rt: &impl Print) -> io::Result<()> {
    read_u64(rt, b"")?;
    read_u64(rt, b"\xFF\xFF\xFF\xFF\xFF")?;
    read_u64(rt, b"\xFF\xFF\xFF\xFF\xFF\xFF\xFF\xFF\xFF\x02")?;
    read_u64(rt, b"\xFF\xFF\xFF\xFF\xFF\xFF\xFF\xFF\xFF\x81")
}

// Longer than needed, and one past the width as well.
fn padded(rt: &impl Print) -> io::Result<()> {
    read_u32(rt, b"\x80\x00")?;
    read_u32(rt, b"\x80\x80\x80\x80\x00")?;
    read_u32(rt, b"\x80\x80\x80\x80\x80\x00")?;
    read_u64(rt, b"\xFF\x00")?;
    read_u64(rt, b"\x80\x80\x80\x80\x80\x80\x80\x80\x80\x00")
}

fn main(rt: HostRuntime) -> io::Result<()> {
    unsigned(&rt)?;
    unsigned_ends(&rt)?;
    counts(&rt)?;
    count_ends(&rt)?;
    signed32(&rt)?;
    signed64(&rt)?;
    signed_ends(&rt)?;
    types(&rt)?;
    read32(&rt)?;
    refused32(&rt)?;
    read64(&rt)?;
    refused64(&rt)?;
    padded(&rt)
}
