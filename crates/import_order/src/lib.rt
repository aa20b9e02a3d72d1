// Import order (document 01's module 4; the crate's resolve/mod.rs): no import after an own function, table, memory or global. A pass
// over all fields asks of each whether it is too late, and whether imports after it are.
#![tactic(auto)]

ghost use Rattle.std.specs.Prelude.{◌≡◌};
ghost use Rattle.import_order.specs.Order.{source_standing, standing, is_late, late_after};

use syntax::{Field, Own, Source};

// What a field is to the order of imports.
#[derive(Clone, Copy)]
pub enum Standing {
    Import,
    Own,
    Neither,
}

fn source_standing(x: Source) -> Standing
    ensures { result ≡ source_standing x }
{
    match x {
        Source::Own(_) => Standing::Own,
        Source::Imported(_, _) => Standing::Import,
        Source::TableOf(_, _) => Standing::Own,
        Source::MemOf(_, _) => Standing::Own,
    }
}

pub fn field_standing(f: Field) -> Standing
    ensures { result ≡ standing f }
{
    match f {
        Field::Type { .. } => Standing::Neither,
        Field::Import { .. } => Standing::Import,
        Field::Item { source, .. } => source_standing(source),
        Field::Export { .. } => Standing::Neither,
        Field::Start(_) => Standing::Neither,
        Field::Elem { .. } => Standing::Neither,
        Field::Data { .. } => Standing::Neither,
    }
}

// An import after an own item.
pub fn is_late(late: bool, x: Standing) -> bool
    ensures { result ≡ is_late late x }
{
    match x {
        Standing::Import => late,
        Standing::Own => false,
        Standing::Neither => false,
    }
}

// Has an own item come?
pub fn late_after(late: bool, x: Standing) -> bool
    ensures { result ≡ late_after late x }
{
    match x {
        Standing::Import => late,
        Standing::Own => true,
        Standing::Neither => late,
    }
}
