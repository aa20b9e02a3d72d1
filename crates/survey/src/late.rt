// The order of imports, field after field.
ghost use Rattle.std.specs.Prelude.{◌≡◌};
ghost use Rattle.import_order.specs.Order.{standing};
ghost use Rattle.survey.specs.Survey.{lateness, fine_of};

use syntax::Field;

#[tactic(auto, using(crate::proofs::Surveying::lates))]
pub fn late_after(late: bool, f: Field) -> Option<bool>
    ensures { lateness late (standing f) ≡ fine_of result }
{
    let x = import_order::field_standing(f);
    if import_order::is_late(late, x) {
        return None;
    }
    Some(import_order::late_after(late, x))
}
