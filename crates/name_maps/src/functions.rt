// The names of each function's parameters and locals.
ghost use Rattle.std.specs.Prelude.{◌≡◌, [], ◌∷◌, ◌++◌, ◌≤◌, length, replicate};
ghost use Rattle.std.proofs.Math.Option.{none};
ghost use Rattle.area.specs.Layout.{WORDS};
ghost use Rattle.definition.specs.Token as Token;
ghost use Rattle.definition.specs.Types as Types;
ghost use Rattle.definition.specs.Names as Definition;
ghost use Rattle.syntax.specs.TypeUses.{list_of, use_of};
ghost use Rattle.type_table.specs.Table.{types_in, Recalled};
ghost use Rattle.syntax.specs.Resolved.{type_no_of};
ghost use Rattle.walk.specs.Walk.{fields_in};
ghost use Rattle.scope.specs.Scope.{scope_in};
ghost use Rattle.frames.specs.Locals.{ids_of};
ghost use Rattle.deinline.specs.Surveyed.{Surveyed};
ghost use Rattle.definition.specs.NameSection.{named_from, functions};
ghost use Rattle.name_maps.specs.Maps.{first, Names, LocalNames, Few, function_of_extern, function_of_own, function_of_source, function_of, own_locals, brought_locals, RecalledOf};

use crate::map::{Reached, begin, put_list};
use syntax::{Extern, Field, List, Own, Source, TypeNo, TypeUse};

// The function that a field brings.
#[derive(Clone, Copy)]
pub enum Function {
    Nothing,
    Imported,
    Own(TypeUse, List),
}

fn extern_function(x: Extern) -> Function
    ensures { result ≡ function_of_extern x }
{
    match x {
        Extern::Func(_) => Function::Imported,
        Extern::Table(_) => Function::Nothing,
        Extern::Mem(_) => Function::Nothing,
        Extern::Global(_) => Function::Nothing,
    }
}

fn own_function(o: Own) -> Function
    ensures { result ≡ function_of_own o }
{
    match o {
        Own::Func(t, ls) => Function::Own(t, ls),
        Own::Table(_) => Function::Nothing,
        Own::Mem(_) => Function::Nothing,
        Own::Global(_, _) => Function::Nothing,
    }
}

fn source_function(x: Source) -> Function
    ensures { result ≡ function_of_source x }
{
    match x {
        Source::Own(o) => own_function(o),
        Source::Imported(_, e) => extern_function(e),
        Source::TableOf(_, _) => Function::Nothing,
        Source::MemOf(_, _) => Function::Nothing,
    }
}

fn field_function(f: Field) -> Function
    ensures { result ≡ function_of f }
{
    match f {
        Field::Type {
            id: _,
            params: _,
            results: _,
        } => Function::Nothing,
        Field::Import {
            name: _,
            id: _,
            what,
        } => extern_function(what),
        Field::Item {
            id: _,
            exports: _,
            source,
        } => source_function(source),
        Field::Export {
            name: _,
            space: _,
            index: _,
        } => Function::Nothing,
        Field::Start(_) => Function::Nothing,
        Field::Elem {
            id: _,
            mode: _,
            funcs: _,
        } => Function::Nothing,
        Field::Data {
            id: _,
            mode: _,
            bytes: _,
        } => Function::Nothing,
    }
}

// The names of an inline type's parameters, and of the locals.
fn put_inline(s: &[u8], out: &mut [u8], at: usize, params: List, ls: List) -> Reached
    ensures { Names (ids_of s.now params ++ ids_of s.now ls) (first at 0) out.old result out.new }
{
    let x = put_list(s, out, begin(at, 0), params);
    put_list(s, out, x, ls)
}

// The names of the locals after so many parameters without identifiers.
fn put_nameless(s: &[u8], out: &mut [u8], at: usize, n: u32, ls: List) -> Reached
    ensures { Names (replicate n none ++ ids_of s.now ls) (first at 0) out.old result out.new }
{
    put_list(s, out, begin(at, n as u64), ls)
}

// The names of an own function of this type. Only an inline type's parameters have identifiers.
fn put_typed(
    s: &[u8],
    work: &[u32],
    out: &mut [u8],
    at: usize,
    n: TypeNo,
    t: TypeUse,
    ls: List,
) -> Reached
    requires { WORDS ≤ length work.now }
    ensures { Names (Definition.locals_of (types_in s.now work.now) (type_no_of n) (use_of s.now t) (list_of Token.param s.now ls)) (first at 0) out.old result out.new }
{
    if type_table::is_inline(s, t) {
        return put_inline(s, out, at, t.params, ls);
    }
    let nameless = type_table::param_count(s, work, n.0);
    put_nameless(s, out, at, nameless, ls)
}

// The names of an own function. Where its type is refused it has none.
fn put_own(
    s: &[u8],
    work: &[u32],
    out: &mut [u8],
    at: usize,
    t: TypeUse,
    ls: List,
    rec: u32,
) -> Reached
    requires { (WORDS ≤ length work.now) × Recalled work.now (types_in s.now work.now) (Types.used_at rec (Types.use_of (use_of s.now t))) }
    ensures { Names (own_locals (scope_in s.now work.now) s.now rec t ls) (first at 0) out.old result out.new }
{
    match scope::type_no(s, work, t, rec) {
        Ok(n) => put_typed(s, work, out, at, n, t, ls),
        Err(_) => begin(at, 0),
    }
}

// How many they are, on an empty part.
fn named_count(s: &[u8], work: &[u32], t: TypeUse, ls: List, rec: u32) -> u64
    requires { (WORDS ≤ length work.now) × Recalled work.now (types_in s.now work.now) (Types.used_at rec (Types.use_of (use_of s.now t))) }
    ensures { result ≡ length (named_from 0 (own_locals (scope_in s.now work.now) s.now rec t ls)) }
{
    let mut none = [0u8; 1];
    let x = put_own(s, work, &mut none[0..0], 0, t, ls, rec);
    x.count
}

// An own function is an entry, unless it has no name.
fn put_entry(
    s: &[u8],
    work: &[u32],
    out: &mut [u8],
    x: Reached,
    t: TypeUse,
    ls: List,
    rec: u32,
) -> Reached
    requires { (WORDS ≤ length work.now) × Recalled work.now (types_in s.now work.now) (Types.used_at rec (Types.use_of (use_of s.now t))) × Few 4096 x }
    ensures { LocalNames (own_locals (scope_in s.now work.now) s.now rec t ls ∷ []) x out.old result out.new }
{
    let number = x.number + 1;
    let count = named_count(s, work, t, ls, rec);
    if count == 0 {
        return Reached {
            at: x.at,
            number,
            count: x.count,
        };
    }
    let a = leb::put_u(out, x.at, x.number);
    let b = leb::put_u(out, a, count);
    let names = put_own(s, work, out, b, t, ls, rec);
    Reached {
        at: names.at,
        number,
        count: x.count + 1,
    }
}

// The function of a field. An import's parameters have no identifiers.
fn put_function(
    s: &[u8],
    work: &[u32],
    out: &mut [u8],
    x: Reached,
    f: Function,
    rec: u32,
) -> Reached
    requires { (WORDS ≤ length work.now) × RecalledOf s.now work.now (types_in s.now work.now) rec f × Few 4096 x }
    ensures { LocalNames (brought_locals (scope_in s.now work.now) s.now rec f) x out.old result out.new }
{
    match f {
        Function::Nothing => x,
        Function::Imported => Reached {
            at: x.at,
            number: x.number + 1,
            count: x.count,
        },
        Function::Own(t, ls) => put_entry(s, work, out, x, t, ls, rec),
    }
}

// Those of all functions. Each has a number, the imported ones too.
pub fn put_locals(s: &[u8], work: &[u32], out: &mut [u8], at: usize) -> Reached
    requires { Surveyed s.now work.now }
    ensures { LocalNames (functions (scope_in s.now work.now) (fields_in s.now)) (first at 0) out.old result out.new }
{
    let mut c = walk::start();
    let mut x = begin(at, 0);
    loop {
        let m = walk::visit(s, work, c);
        let what = m.what;
        match what {
            Some((f, _)) => {
                x = put_function(s, work, out, x, field_function(f), c.rec);
                c = m.next;
            }
            None => {
                return x;
            }
        }
    }
}
