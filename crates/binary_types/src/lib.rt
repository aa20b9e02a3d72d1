// Limits, table types, global types.
#![tactic(auto)]

ghost use Rattle.std.specs.Prelude.{◌+◌, ◌≡◌, if◌then◌else◌};
ghost use Rattle.std.proofs.Math.Option.{none, some};
ghost use Rattle.definition.specs.Binary as Binary;
ghost use Rattle.definition.specs.Deinline as Deinline;
ghost use Rattle.emit.specs.Put.{Put};
ghost use Rattle.syntax.specs.CoreTypes.{limits_is, table_type_is, global_type_is};

use syntax::{GlobalType, Limits, TableType};

// The flag of limits without a maximum.
fn flag(is64: bool) -> u8
    ensures { result ≡ (if is64 then 4 else 0) }
{
    if is64 {
        return 4;
    }
    0
}

// And that of limits with one.
fn flag_with_maximum(is64: bool) -> u8
    ensures { result ≡ (if is64 then 4 else 0) + 1 }
{
    if is64 {
        return 5;
    }
    1
}

fn put_minimum(out: &mut [u8], at: usize, is64: bool, low: u64) -> usize
    ensures { Put out.old at (Binary.limits_of (if is64 then 4 else 0) low none) result out.new }
{
    let a = emit::put(out, at, flag(is64));
    leb::put_u(out, a, low)
}

fn put_both(out: &mut [u8], at: usize, is64: bool, low: u64, high: u64) -> usize
    ensures { Put out.old at (Binary.limits_of (if is64 then 4 else 0) low (some high)) result out.new }
{
    let a = emit::put(out, at, flag_with_maximum(is64));
    let b = leb::put_u(out, a, low);
    leb::put_u(out, b, high)
}

pub fn put_limits(out: &mut [u8], at: usize, l: Limits) -> usize
    ensures { Put out.old at (Binary.limits (limits_is l)) result out.new }
{
    let maximum = l.maximum;
    match maximum {
        None => put_minimum(out, at, l.is64, l.minimum),
        Some(high) => put_both(out, at, l.is64, l.minimum, high),
    }
}

pub fn put_table_type(out: &mut [u8], at: usize, t: TableType) -> usize
    ensures { Put out.old at (Binary.table_type (table_type_is t)) result out.new }
{
    let a = emit::put(out, at, t.element);
    put_limits(out, a, t.limits)
}

pub fn put_global_type(out: &mut [u8], at: usize, t: GlobalType) -> usize
    ensures { Put out.old at (Binary.global_type (global_type_is t)) result out.new }
{
    let a = emit::put(out, at, t.value);
    emit::put(out, a, t.mutable)
}

// Minimum and maximum alike: the limits of what is made of an inline segment.
pub fn put_exactly(out: &mut [u8], at: usize, is64: bool, n: u64) -> usize
    ensures { Put out.old at (Binary.limits (Deinline.exactly is64 n)) result out.new }
{
    put_both(out, at, is64, n, n)
}

// The type of a table of so many functions.
pub fn put_inline_table(out: &mut [u8], at: usize, is64: bool, n: u64) -> usize
    ensures { Put out.old at (Binary.table_type (record { element = 0x70; limits = Deinline.exactly is64 n })) result out.new }
{
    let a = emit::put(out, at, 0x70);
    put_exactly(out, a, is64, n)
}

// The pages that hold so many bytes.
pub fn pages(len: u32) -> u64
    ensures { result ≡ Deinline.pages len }
{
    (len as u64 + 65536 - 1) / 65536
}
