// One type use at its record.
ghost use Rattle.std.specs.Prelude.{◌≡◌, [], ◌∷◌, ◌+◌, ◌≤◌, ◌<◌, length, set};
ghost use Rattle.area.specs.Layout.{USES, WORDS};
ghost use Rattle.area.specs.Lent.{Lent};
ghost use Rattle.definition.specs.Types as Types;
ghost use Rattle.syntax.specs.TypeUses.{use_of};
ghost use Rattle.syntax.specs.Instructions.{instr_is};
ghost use Rattle.typeuse.specs.Known.{Readable};
ghost use Rattle.instr.specs.Known.{ReadableInstr};
ghost use Rattle.interning.specs.Uses.{Handles};
ghost use Rattle.type_table.specs.Table.{Indexed};
ghost use Rattle.type_table.specs.Uses.{block_uses};

use syntax::{Index, Instr, Resolved, TypeUse};

// The number of a use's type is left at its record's word.
fn put_number(work: &mut [u32], rec: u32, n: u32)
    requires { (WORDS ≤ length work.old) × (rec < 4096) }
    ensures { work.new ≡ set work.old (USES + rec) n }
{
    let at = area::USES + (rec as usize);
    work[at] = n;
}

// A use without an index takes the first equal signature, or adds one at the end.
fn take_type(s: &[u8], work: &mut [u32], count: u32, t: TypeUse, rec: u32) -> Resolved<u32>
    requires { Lent s.now work.old × Indexed s.now work.old count × (rec < 4096) × Readable s.now t.params }
    ensures { Handles rec (rec + 1) s.now (Types.used_at rec (Types.signature (use_of s.now t) ∷ [])) work.old count result work.new }
{
    let (n, k) = type_table::intern_use(s, work, count, t, rec)?;
    put_number(work, rec, n);
    Ok(k)
}

// A use with an index adds nothing.
pub fn use_type(s: &[u8], work: &mut [u32], count: u32, t: TypeUse, rec: u32) -> Resolved<u32>
    requires { Lent s.now work.old × Indexed s.now work.old count × (rec < 4096) × Readable s.now t.params }
    ensures { Handles rec (rec + 1) s.now (Types.used_at rec (Types.use_of (use_of s.now t))) work.old count result work.new }
{
    let x = t.index;
    match x {
        Index::Absent => take_type(s, work, count, t, rec),
        Index::Number(_) => Ok(count),
        Index::Named(_) => Ok(count),
    }
}

// A block that has a short form adds nothing.
fn use_block(s: &[u8], work: &mut [u32], count: u32, t: TypeUse, rec: u32) -> Resolved<u32>
    requires { Lent s.now work.old × Indexed s.now work.old count × (rec < 4096) × Readable s.now t.params }
    ensures { Handles rec (rec + 1) s.now (Types.used_at rec (block_uses (use_of s.now t))) work.old count result work.new }
{
    if type_table::is_short(s, t) {
        return Ok(count);
    }
    use_type(s, work, count, t, rec)
}

// The use of an instruction, if it has one.
pub fn use_instr(s: &[u8], work: &mut [u32], count: u32, i: Instr, rec: u32) -> Resolved<u32>
    requires { Lent s.now work.old × Indexed s.now work.old count × (rec < 4096) × ReadableInstr s.now i }
    ensures { Handles rec (rec + 1) s.now (Types.used_at rec (Types.instr_uses (instr_is s.now i))) work.old count result work.new }
{
    match i {
        Instr::Opens(_, _, t) => use_block(s, work, count, t, rec),
        Instr::Elses(_) => Ok(count),
        Instr::Ends(_) => Ok(count),
        Instr::Indirect(_, t) => use_type(s, work, count, t, rec),
        Instr::Plain(_) => Ok(count),
    }
}
