// The write (01): a byte range of one user unit, or the refusal.
#![tactic(auto)]

ghost use Rattle.std.specs.Prelude.{◌≡◌, [], ◌∷◌, length};
ghost use Rattle.refusal.specs.Refusal.{rule, verdict, kept, outcome_of};
ghost use Rattle.fourfold.specs.Writing.{write_of};
ghost use Rattle.writing.specs.Writing.{four_lost, first_lost, FourMarked, write_rules};

use geometry::{Geometry, UserUnit};
use layout::{Four, Layout};
use refusal::Refusal;

// Refusal 12: "first marked disk of data, outer, inner of data, inner of outer".
fn check_four(geometry: Geometry, marks: &[u8], four: Four) -> Result<(), Refusal>
    requires { FourMarked (length marks.now) four }
    ensures { outcome_of result ≡ verdict (rule 12 (four_lost geometry marks.now four) (first_lost geometry marks.now four) ∷ []) }
{
    if array::is_lost(geometry, marks, four.user) {
        return Err(Refusal::Marked(four.user.disk));
    }
    if array::is_lost(geometry, marks, four.outer) {
        return Err(Refusal::Marked(four.outer.disk));
    }
    if array::is_lost(geometry, marks, four.inner) {
        return Err(Refusal::Marked(four.inner.disk));
    }
    if array::is_lost(geometry, marks, four.both) {
        return Err(Refusal::Marked(four.both.disk));
    }
    Ok(())
}

// "Write: takes a like range; the difference of new and old bytes is XORed into the data unit, its outer parity, the inner parity
// of the data unit and the inner parity of the outer parity unit", or the refusal: 2 to 8, 10 to 12.
pub fn write(
    geometry: Geometry,
    design: &[u16],
    array: &mut [u8],
    marks: &[u8],
    n: UserUnit,
    offset: u64,
    bytes: &[u8],
) -> Result<(), Refusal>
    ensures { (outcome_of result ≡ verdict (write_rules geometry design.now (length array.old) marks.now n.0 offset (length bytes.now))) × (array.new ≡ kept (verdict (write_rules geometry design.now (length array.old) marks.now n.0 offset (length bytes.now))) (write_of geometry design.now array.old n.0 offset bytes.now) array.old) }
{
    array::check_array(geometry, design, array.len(), marks)?;
    array::check_range(geometry, n, offset, bytes.len())?;
    let layout = Layout { geometry, design };
    let four = layout.four_of(n);
    check_four(geometry, marks, four)?;
    fourfold::write_checked(geometry, array, four, offset, bytes);
    Ok(())
}
