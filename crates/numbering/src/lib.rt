// 01's numbers of the user units: the position of each data region of a tuple, and a number's digits. Nothing here knows where a
// label stands.
#![tactic(auto)]

ghost use Rattle.std.specs.Prelude.{◌+◌, ◌-◌, ◌*◌, ◌≤◌, ◌<◌, ◌≡◌};
ghost use Rattle.geometry.specs.Geometry.{Sound, user_units_of};
ghost use Rattle.numbering.specs.Positions.{parity_position, data_position, data_number};
ghost use Rattle.numbering.specs.Numbering.{user_number, digits_of};
ghost use Rattle.numbering.specs.Ranges.{DigitsIn, Fitting};

use geometry::{Geometry, Tuple, UserUnit};

// User unit n is label (row,column) in the data region of this number of the tuple.
#[derive(Clone, Copy, Debug, PartialEq, Eq)]
pub struct Digits {
    pub tuple: Tuple,
    pub region: u32,
    pub row: u32,
    pub column: u32,
}

// "The unit at position k-1 is its parity"
pub fn parity_position(geometry: Geometry, tuple: Tuple) -> u32
    requires { 2 ≤ geometry.k }
    ensures { (result ≡ parity_position geometry tuple.0) × (result < geometry.k) }
{
    geometry.k - 1
}

// The position of a tuple's data region of this number.
pub fn data_position(geometry: Geometry, tuple: Tuple, region: u32) -> u32
    requires le_k { 2 ≤ geometry.k }
    requires region_bound { region < geometry.k - 1 }
    ensures { (result ≡ data_position geometry tuple.0 region) × (result < geometry.k) }
{
    if region < parity_position(geometry, tuple) {
        region
    } else {
        region + 1
    }
}

// The number of the data region at a position other than the parity's.
pub fn data_number(geometry: Geometry, tuple: Tuple, position: u32) -> u32
    requires le_k { 2 ≤ geometry.k }
    requires position_lt_k { position < geometry.k }
    requires fact { position ≡ parity_position geometry tuple.0 → ⊥ }
    ensures { (result ≡ data_number geometry tuple.0 position) × (result < geometry.k - 1) }
{
    if position < parity_position(geometry, tuple) {
        position
    } else {
        position - 1
    }
}

// The digits of a user unit's number.
pub fn digits_of(geometry: Geometry, n: UserUnit) -> Digits
    requires sound { Sound geometry }
    requires n_bound { n.0 < user_units_of geometry }
    ensures { (result ≡ digits_of geometry n.0) × DigitsIn geometry result }
{
    let columns = geometry.g;
    let rows = geometry.g - 1;
    let regions = geometry.k - 1;
    let label = n.0 / columns;
    let region = label / rows;
    Digits {
        tuple: Tuple(region / regions),
        region: region % regions,
        row: label % rows,
        column: n.0 % columns,
    }
}

// "n = ((t·(k-1) + l)·(g-1) + i)·g + c"
pub fn user_number(geometry: Geometry, at: Digits) -> UserUnit
    requires sound { Sound geometry }
    requires digits_in { DigitsIn geometry at }
    ensures { result.0 ≡ user_number geometry at.tuple.0 at.region at.row at.column }
{
    let region = digit_after(at.tuple.0, geometry.k - 1, at.region);
    let label = digit_after(region, geometry.g - 1, at.row);
    UserUnit(digit_after(label, geometry.g, at.column))
}

// One more digit, low, in base m.
fn digit_after(high: u32, m: u32, low: u32) -> u32
    requires { Fitting high m low }
    ensures { (result ≡ high * m + low) × (result ≤ high * 16 + low) }
{
    high * m + low
}
