// The assembler: the passes, and after them the writers.
#![tactic(auto)]

pub mod export;

ghost use Rattle.std.specs.Prelude.{◌≤◌};
ghost use Rattle.definition.specs.Assemble.{call_by};
ghost use Rattle.passes.specs.Passes.{makes};
ghost use Rattle.assembler.specs.Run.{Runs, AssemblesBy, Assembles, AssemblesNames, AssemblesStrict, AssemblesStrictNames};

pub use writers::Said;

// The passes, and then the writer that is asked for. Whatever has room in the kept bytes is resolved once.
fn run_keeping(
    s: &[u8],
    work: &mut [u32],
    out: &mut [u8],
    kept: &mut [u8],
    strict: bool,
    names: bool,
) -> Said
    ensures { Runs (makes strict names) s.now work.old out.old result work.new out.new }
{
    match passes::prepare(s, work, kept, strict) {
        Ok(p) => {
            if names {
                return writers::write_names(s, work, out, kept, p.count, p.tally);
            }
            writers::write_module(s, work, out, kept, p.count, p.tally)
        }
        Err(q) => Said {
            number: u8::from(q.fault),
            rec: q.rec,
            first: q.first,
            len: 0,
        },
    }
}

// With room for so many kept bytes.
fn run_in<const N: usize>(
    s: &[u8],
    work: &mut [u32],
    out: &mut [u8],
    strict: bool,
    names: bool,
) -> Said
    requires { N ≤ 65536 }
    ensures { Runs (makes strict names) s.now work.old out.old result work.new out.new }
{
    let mut kept = [0u8; N];
    run_keeping(s, work, out, &mut kept, strict, names)
}

// A short stream keeps little, and pays for little room.
fn run(s: &[u8], work: &mut [u32], out: &mut [u8], strict: bool, names: bool) -> Said
    ensures { Runs (makes strict names) s.now work.old out.old result work.new out.new }
{
    if s.len() <= 1536 {
        return run_in::<2048>(s, work, out, strict, names);
    }
    if s.len() <= 6144 {
        return run_in::<8192>(s, work, out, strict, names);
    }
    run_in::<65536>(s, work, out, strict, names)
}

// The same with the work area cleared.
fn call(s: &[u8], work: &mut [u32], out: &mut [u8], strict: bool, names: bool) -> Said
    ensures { AssemblesBy (call_by (makes strict names)) s.now work.old out.old result out.new work.new }
{
    let r = run(s, work, out, strict, names);
    area::clear(work);
    r
}

// Any stream to its module. The answer is a number, a record, where the name was first used, and a length; the output holds the module and beyond it its old bytes, or on a
// refusal its old bytes; the work area is all zeros.
pub fn assemble(s: &[u8], work: &mut [u32], out: &mut [u8]) -> Said
    ensures { Assembles s.now work.old out.old result out.new work.new }
{
    call(s, work, out, false, false)
}

// The same with the standard's name section after the module, for a debugger.
pub fn assemble_names(s: &[u8], work: &mut [u32], out: &mut [u8]) -> Said
    ensures { AssemblesNames s.now work.old out.old result out.new work.new }
{
    call(s, work, out, false, true)
}

// The same two in a strict call: every number must point somewhere.
pub fn assemble_strict(s: &[u8], work: &mut [u32], out: &mut [u8]) -> Said
    ensures { AssemblesStrict s.now work.old out.old result out.new work.new }
{
    call(s, work, out, true, false)
}

pub fn assemble_strict_names(s: &[u8], work: &mut [u32], out: &mut [u8]) -> Said
    ensures { AssemblesStrictNames s.now work.old out.old result out.new work.new }
{
    call(s, work, out, true, true)
}
