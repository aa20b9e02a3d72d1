// The passes in document 01's order, up to what a writer needs.
#![tactic(auto)]

ghost use Rattle.area.specs.Flags.{strict_in};
ghost use Rattle.walk.specs.Walk.{fields_in};
ghost use Rattle.scope.specs.Scope.{scope_in};
ghost use Rattle.passes.specs.Passes.{Begins, Walkable, Interns, Resolvable, Passes, Prepares, from_names, from_fields};

use kept::Tally;
use syntax::Resolved;

// What the passes leave for a writer, beside the kept bytes: how many records there are and how large the sections are.
#[derive(Clone, Copy)]
pub struct Passed {
    pub count: u32,
    pub tally: Tally,
}

// The records; and whether the call is strict.
fn read(s: &[u8], work: &mut [u32], strict: bool) -> Resolved<u32>
    ensures { Begins strict s.now work.old result work.new }
{
    let count = stream::read_all(s, work)?;
    area::put_flag(work, area::STRICT, strict);
    Ok(count)
}

// The declared types; then the order of imports, the types of uses and the names, in one walk.
fn intern(s: &[u8], work: &mut [u32]) -> Resolved<()>
    requires { Walkable s.now work.old }
    ensures { Interns s.now work.old result work.new }
{
    let declared = interning::declare_all(s, work);
    survey::survey_all(s, work, declared)
}

// The fields, resolved in order.
fn resolve(s: &[u8], work: &mut [u32], kept: &mut [u8], count: u32) -> Resolved<Passed>
    requires { Resolvable s.now work.old }
    ensures { Passes (from_names (fields_in s.now) (scope_in s.now work.old)) count s.now work.old result work.new kept.new }
{
    let tally = resolve::check_fields(s, work, kept)?;
    Ok(Passed { count, tally })
}

// The passes over fields, one after the other.
fn find(s: &[u8], work: &mut [u32], kept: &mut [u8], count: u32) -> Resolved<Passed>
    requires { Walkable s.now work.old }
    ensures { Passes (from_fields (strict_in work.old) (fields_in s.now)) count s.now work.old result work.new kept.new }
{
    intern(s, work)?;
    resolve(s, work, kept, count)
}

// All passes: the records, and then their fields.
pub fn prepare(s: &[u8], work: &mut [u32], kept: &mut [u8], strict: bool) -> Resolved<Passed>
    ensures { Prepares strict s.now work.old result work.new kept.new }
{
    let count = read(s, work, strict)?;
    find(s, work, kept, count)
}
