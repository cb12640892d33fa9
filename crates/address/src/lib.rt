// The address map: a user unit's four places, and the way back from a disk and unit to its role.
#![tactic(auto)]

ghost use Rattle.std.specs.Prelude.{◌≡◌};
ghost use Rattle.refusal.specs.Refusal.{answer, outcome_of};
ghost use Rattle.layout.specs.Places.{four_of, role_at};
ghost use Rattle.address.specs.Address.{map_rules, role_rules};

use cells::Role;
use geometry::{Disk, Geometry, Unit, UserUnit};
use layout::{Four, Layout};
use refusal::Refusal;

// The places of user unit n, its outer parity and the inner parities of both, or the refusal: 2 to 6, 10.
pub fn map(geometry: Geometry, design: &[u16], n: UserUnit) -> Result<Four, Refusal>
    ensures { outcome_of result ≡ answer (map_rules geometry design.now n.0) (four_of geometry design.now n.0) }
{
    sizes::check_sizes(geometry, design)?;
    if geometry.user_units() <= n.0 {
        return Err(Refusal::UserUnitTooHigh);
    }
    let layout = Layout { geometry, design };
    Ok(layout.four_of(n))
}

// What the unit of a disk is for, or the refusal: 2 to 6, and 9 for "disk or unit number too high".
pub fn role(geometry: Geometry, design: &[u16], disk: Disk, unit: Unit) -> Result<Role, Refusal>
    ensures { outcome_of result ≡ answer (role_rules geometry design.now disk.0 unit.0) (role_at geometry design.now disk.0 unit.0) }
{
    sizes::check_sizes(geometry, design)?;
    if geometry.disks() <= disk.0 || geometry.units() <= unit.0 {
        return Err(Refusal::PlaceTooHigh);
    }
    let layout = Layout { geometry, design };
    Ok(layout.role_at(disk, unit))
}
