// The bytes of an entry: each is resolved, put, and counted.
#![tactic(auto)]

ghost use Rattle.std.specs.Prelude.{◌≡◌, ◌≤◌, length};
ghost use Rattle.area.specs.Layout.{WORDS};
ghost use Rattle.definition.specs.Token as Token;
ghost use Rattle.definition.specs.Types as Types;
ghost use Rattle.definition.specs.Deinline as Deinline;
ghost use Rattle.definition.specs.Names as Names;
ghost use Rattle.definition.specs.Binary as Binary;
ghost use Rattle.emit.specs.Put.{Put};
ghost use Rattle.syntax.specs.Tokens.{part_of};
ghost use Rattle.syntax.specs.TypeUses.{list_of, use_of};
ghost use Rattle.type_table.specs.Table.{types_in, Recalled};
ghost use Rattle.scope.specs.Scope.{scope_in};
ghost use Rattle.binary.specs.Emits.{Emits};
ghost use Rattle.deinline.specs.Entry.{section_no, type_bytes, answer_of, uses_of};
ghost use Rattle.entries.specs.Listed.{one_end, Answers, NotCode};

use import_export::Ends;
use syntax::{Entry, List, Part, Resolved, TypeUse};

// One entry, where there is one.
#[tactic(auto, using(crate::proofs::Pieces::end_not))]
pub fn one_end(r: Resolved<usize>) -> Resolved<Ends>
    ensures { result ≡ one_end r }
{
    let o = r?;
    Ok(Ends { to: o, count: 1 })
}

// A function's type.
#[tactic(auto, using(crate::proofs::Pieces::type_to, crate::proofs::Pieces::type_not))]
fn emit_type_no(
    s: &[u8],
    work: &[u32],
    out: &mut [u8],
    at: usize,
    t: TypeUse,
    rec: u32,
) -> Resolved<usize>
    requires { (WORDS ≤ length work.now) × Recalled work.now (types_in s.now work.now) (Types.used_at rec (Types.use_of (use_of s.now t))) }
    ensures { Emits type_bytes (Names.type_no (scope_in s.now work.now) rec (use_of s.now t)) out.old at result out.new }
{
    let n = scope::type_no(s, work, t, rec)?;
    Ok(binary::put_type_no(out, at, n))
}

// The table that holds just the functions of its segment.
#[tactic(auto, using(crate::proofs::Pieces::table_put))]
fn put_inline_table(s: &[u8], out: &mut [u8], at: usize, is64: bool, funcs: List) -> usize
    ensures { Put out.old at (Binary.table_type (record { element = 0x70; limits = Deinline.exactly is64 (length (list_of Token.present s.now funcs)) })) result out.new }
{
    binary_types::put_inline_table(out, at, is64, operands::count_indices(s, funcs))
}

// How many bytes an inline memory has.
#[tactic(auto, using(crate::proofs::Pieces::part_fits, crate::proofs::Pieces::part_length))]
fn count_bytes(s: &[u8], bytes: Part) -> u32
    ensures { result ≡ length (part_of s.now bytes) }
{
    token::bytes_of(s, bytes).len() as u32
}

// The memory that holds just the bytes of its segment.
#[tactic(auto, using(crate::proofs::Pieces::mem_put))]
fn put_inline_mem(s: &[u8], out: &mut [u8], at: usize, is64: bool, bytes: Part) -> usize
    ensures { Put out.old at (Binary.limits (Deinline.exactly is64 (Deinline.pages (length (part_of s.now bytes))))) result out.new }
{
    binary_types::put_exactly(out, at, is64, binary_types::pages(count_bytes(s, bytes)))
}

// An export, the start or a segment, of the sections 7 to 11: what refers to items.
fn emit_late(
    s: &[u8],
    work: &[u32],
    out: &mut [u8],
    at: usize,
    e: Entry,
    rec: u32,
) -> Resolved<Ends>
    requires { (WORDS ≤ length work.now) × NotCode e × (7 ≤ section_no e) }
    ensures { Answers (answer_of (scope_in s.now work.now) s.now rec e) out.old at result out.new }
{
    match e {
        Entry::Export(name, k, x) => one_end(import_export::emit_export(
            s, work, out, at, name, k, x, rec,
        )),
        Entry::Exports(es, k, n) => Ok(import_export::put_exports(s, out, at, es, k, n)),
        Entry::Start(x) => one_end(import_export::emit_start(s, work, out, at, x, rec)),
        Entry::Elem(mode, funcs) => one_end(segments::emit_elem(
            s, work, out, at, mode, funcs, rec,
        )),
        Entry::InlineElem(is64, n, funcs) => one_end(segments::emit_inline_elem(
            s, work, out, at, is64, n, funcs, rec,
        )),
        Entry::Data(mode, bytes) => one_end(segments::emit_data(
            s, work, out, at, mode, bytes, rec,
        )),
        Entry::InlineData(is64, n, bytes) => one_end(Ok(segments::put_inline_data(
            s, out, at, is64, n, bytes,
        ))),
        // none is left: code and the sections before are ruled out
        _ => Ok(Ends { to: at, count: 0 }),
    }
}

// Any entry but a function's code, which needs places of its own in the work area.
pub fn emit_other(
    s: &[u8],
    work: &[u32],
    out: &mut [u8],
    at: usize,
    e: Entry,
    rec: u32,
) -> Resolved<Ends>
    requires { (WORDS ≤ length work.now) × NotCode e × Recalled work.now (types_in s.now work.now) (uses_of s.now rec e) }
    ensures { Answers (answer_of (scope_in s.now work.now) s.now rec e) out.old at result out.new }
{
    match e {
        Entry::Nothing => Ok(Ends { to: at, count: 0 }),
        Entry::Import(name, what) => one_end(import_export::emit_import(
            s, work, out, at, name, what, rec,
        )),
        Entry::Func(t) => one_end(emit_type_no(s, work, out, at, t, rec)),
        Entry::Table(t) => one_end(Ok(binary_types::put_table_type(out, at, t))),
        Entry::InlineTable(is64, funcs) => one_end(Ok(put_inline_table(s, out, at, is64, funcs))),
        Entry::Mem(l) => one_end(Ok(binary_types::put_limits(out, at, l))),
        Entry::InlineMem(is64, bytes) => one_end(Ok(put_inline_mem(s, out, at, is64, bytes))),
        Entry::Global(t, c) => one_end(import_export::emit_global(s, work, out, at, t, c, rec)),
        _ => emit_late(s, work, out, at, e, rec),
    }
}
