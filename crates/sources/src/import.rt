// The names of an import, and what is imported under them.
ghost use Rattle.std.specs.Prelude.{◌≡◌};
ghost use Rattle.definition.specs.Records as Records;
ghost use Rattle.syntax.specs.Items.{name_at, extern_at};
ghost use Rattle.sources.specs.Readers.{extern_of};

use syntax::{Extern, ImportName, Kind, Read};

#[tactic(auto, using(laws::proofs::Ways::ways, syntax::proofs::Ways::reads), unfolding(definition::specs::Records::import_name))]
pub fn read_import_name(s: &[u8], at: usize) -> Read<ImportName>
    ensures { Records.import_name s.now at ≡ name_at s.now result }
{
    let (module, a) = token::read_string(s, at)?;
    let (item, b) = token::read_string(s, a)?;
    Ok((ImportName { module, item }, b))
}

#[tactic(auto, using(laws::proofs::Ways::ways, syntax::proofs::Ways::reads), unfolding(definition::specs::Records::func_extern))]
fn func_extern(s: &[u8], at: usize) -> Read<Extern>
    ensures { Records.func_extern s.now at ≡ extern_at s.now result }
{
    let (t, next) = typeuse::read_type_use(s, at)?;
    Ok((Extern::Func(t), next))
}

#[tactic(auto, using(laws::proofs::Ways::ways, syntax::proofs::Ways::reads), unfolding(definition::specs::Records::table_extern))]
fn table_extern(s: &[u8], at: usize) -> Read<Extern>
    ensures { Records.table_extern s.now at ≡ extern_at s.now result }
{
    let (t, next) = coretypes::read_table_type(s, at)?;
    Ok((Extern::Table(t), next))
}

#[tactic(auto, using(laws::proofs::Ways::ways, syntax::proofs::Ways::reads), unfolding(definition::specs::Records::mem_extern))]
fn mem_extern(s: &[u8], at: usize) -> Read<Extern>
    ensures { Records.mem_extern s.now at ≡ extern_at s.now result }
{
    let (l, next) = coretypes::read_limits(s, at)?;
    Ok((Extern::Mem(l), next))
}

#[tactic(auto, using(laws::proofs::Ways::ways, syntax::proofs::Ways::reads), unfolding(definition::specs::Records::global_extern))]
fn global_extern(s: &[u8], at: usize) -> Read<Extern>
    ensures { Records.global_extern s.now at ≡ extern_at s.now result }
{
    let (t, next) = coretypes::read_global_type(s, at)?;
    Ok((Extern::Global(t), next))
}

pub fn read_extern(s: &[u8], at: usize, kind: Kind) -> Read<Extern>
    ensures { extern_of kind s.now at ≡ extern_at s.now result }
{
    match kind {
        Kind::Func => func_extern(s, at),
        Kind::Table => table_extern(s, at),
        Kind::Mem => mem_extern(s, at),
        Kind::Global => global_extern(s, at),
    }
}
