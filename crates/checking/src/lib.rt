// The design check: refusals 2 to 5 with their places.
#![tactic(auto)]

mod pairs;
mod rows;

ghost use Rattle.std.specs.Prelude.{◌≡◌, ◌&&◌, ◌*◌, eqb};
ghost use Rattle.refusal.specs.Refusal.{verdict, outcome_of};
ghost use Rattle.geometry.specs.Geometry.{Limits, whole, b_of};
ghost use Rattle.checking.specs.Rules.{design_rules};

use refusal::Refusal;

// Whether r and b are whole and a list of n numbers has b rows.
fn list_fits(v: u32, k: u32, n: usize) -> bool
    requires { Limits v k }
    ensures { result ≡ (whole v k && eqb n (b_of v k * k)) }
{
    geometry::is_whole(v, k) && n == (geometry::b_of(v, k) * k) as usize
}

// Checks a design of v groups in rows of k: refusals 2, 3, 4 (at the first bad row) and 5 (at the lowest bad pair).
pub fn check(v: u32, k: u32, design: &[u16]) -> Result<(), Refusal>
    ensures { outcome_of result ≡ verdict (design_rules v k design.now) }
{
    if geometry::beyond_limits(v, k) {
        return Err(Refusal::BeyondLimits);
    }
    if !list_fits(v, k, design.len()) {
        return Err(Refusal::NotWhole);
    }
    let groups = v as usize;
    let size = k as usize;
    if let Some(row) = rows::first_bad_row(design, groups, size) {
        return Err(Refusal::BadRow(row as u32));
    }
    if let Some(pair) = pairs::first_bad_pair(design, groups, size) {
        return Err(Refusal::BadPair(pair as u32));
    }
    Ok(())
}
