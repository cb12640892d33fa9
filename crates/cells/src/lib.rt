// The cells of a tuple (01, "The two parities"): the members of its sets, their parities and the roles. Nothing here reads a
// design or names a disk.
#![tactic(auto)]

ghost use Rattle.std.specs.Prelude.{◌<◌, ◌≡◌};
ghost use Rattle.geometry.specs.Geometry.{Sound, user_units_of};
ghost use Rattle.numbering.specs.Ranges.{OuterIn, InnerIn, DigitsIn};
ghost use Rattle.cells.specs.Sets.{outer_member, inner_parity};
ghost use Rattle.cells.specs.Roles.{data_cell, parity_cell, user_cell, user_outer, inner_of, role_of};
ghost use Rattle.cells.specs.Ranges.{CellIn};

use geometry::{Geometry, Tuple, UserUnit};
use numbering::Digits;
use std::fmt;

// One unit of one region of a tuple: the tuple, the region's position in it, and the unit's row and column there.
#[derive(Clone, Copy, Debug, PartialEq, Eq)]
pub struct Cell {
    pub tuple: Tuple,
    pub position: u32,
    pub row: u32,
    pub column: u32,
}

// "The way back answers, for any disk and unit: user unit n; outer parity of (t,i,c); or inner parity of (t,l,j)."
#[derive(Clone, Copy, Debug, PartialEq, Eq)]
pub enum Role {
    User(UserUnit),
    Outer(Tuple, u32, u32),
    Inner(Tuple, u32, u32),
}

impl fmt::Display for Role {
    ghost use Rattle.std.specs.Prelude.{Some};
    ghost use Rattle.cells.specs.Text.{role_text};

    ghost output = { λ x. Some (role_text x) };

    fn fmt<W: fmt::Write>(&self, f: &mut fmt::Formatter<W>) -> fmt::Result {
        match self {
            Role::User(n) => write!(f, "user {}", n.0),
            Role::Outer(t, i, c) => write!(f, "outer {} {i} {c}", t.0),
            Role::Inner(t, l, j) => write!(f, "inner {} {l} {j}", t.0),
        }
    }
}

// The member at a position of the outer set of label (row,column).
pub fn outer_member(geometry: Geometry, tuple: Tuple, row: u32, column: u32, position: u32) -> Cell
    requires sound { Sound geometry }
    requires outer_in { OuterIn geometry tuple.0 row column }
    requires position_lt_k { position < geometry.k }
    ensures { (result ≡ outer_member geometry tuple.0 row column position) × CellIn geometry result }
{
    Cell {
        tuple,
        position,
        row,
        column: region::column_of_label(geometry.g, position, row, column),
    }
}

// "Row g-1 holds its parity, in column g-1-j"
pub fn inner_parity(geometry: Geometry, tuple: Tuple, position: u32, diagonal: u32) -> Cell
    requires sound { Sound geometry }
    requires inner_in { InnerIn geometry tuple.0 position diagonal }
    ensures { (result ≡ inner_parity geometry tuple.0 position diagonal) × CellIn geometry result }
{
    Cell {
        tuple,
        position,
        row: geometry.g - 1,
        column: region::parity_column(geometry.g, diagonal),
    }
}

// The inner parity of the diagonal on which a cell lies.
pub fn inner_of(geometry: Geometry, at: Cell) -> Cell
    requires sound { Sound geometry }
    requires cell_in { CellIn geometry at }
    ensures { (result ≡ inner_of geometry at) × CellIn geometry result }
{
    inner_parity(
        geometry,
        at.tuple,
        at.position,
        region::diagonal_at(geometry.g, at.row, at.column),
    )
}

// The cell of the label and region that the digits name.
pub fn data_cell(geometry: Geometry, at: Digits) -> Cell
    requires sound { Sound geometry }
    requires digits_in { DigitsIn geometry at }
    ensures { (result ≡ data_cell geometry at) × CellIn geometry result }
{
    outer_member(
        geometry,
        at.tuple,
        at.row,
        at.column,
        numbering::data_position(geometry, at.tuple, at.region),
    )
}

// The outer parity of the label that the digits name.
pub fn parity_cell(geometry: Geometry, at: Digits) -> Cell
    requires sound { Sound geometry }
    requires digits_in { DigitsIn geometry at }
    ensures { (result ≡ parity_cell geometry at) × CellIn geometry result }
{
    outer_member(
        geometry,
        at.tuple,
        at.row,
        at.column,
        numbering::parity_position(geometry, at.tuple),
    )
}

// "User unit n is label (i,c) at position l of tuple t"
pub fn user_cell(geometry: Geometry, n: UserUnit) -> Cell
    requires sound { Sound geometry }
    requires n_bound { n.0 < user_units_of geometry }
    ensures { (result ≡ user_cell geometry n.0) × CellIn geometry result }
{
    data_cell(geometry, numbering::digits_of(geometry, n))
}

// The outer parity of user unit n's label.
pub fn user_outer(geometry: Geometry, n: UserUnit) -> Cell
    requires sound { Sound geometry }
    requires n_bound { n.0 < user_units_of geometry }
    ensures { (result ≡ user_outer geometry n.0) × CellIn geometry result }
{
    parity_cell(geometry, numbering::digits_of(geometry, n))
}

// What a cell is for.
pub fn role_of(geometry: Geometry, at: Cell) -> Role
    requires sound { Sound geometry }
    requires cell_in { CellIn geometry at }
    ensures { result ≡ role_of geometry at }
{
    let tuple = at.tuple;
    if at.row == geometry.g - 1 {
        return Role::Inner(
            tuple,
            at.position,
            region::diagonal_at(geometry.g, at.row, at.column),
        );
    }
    let column = region::label_at(geometry.g, at.position, at.row, at.column);
    if at.position == numbering::parity_position(geometry, tuple) {
        return Role::Outer(tuple, at.row, column);
    }
    let region = numbering::data_number(geometry, tuple, at.position);
    Role::User(numbering::user_number(
        geometry,
        Digits {
            tuple,
            region,
            row: at.row,
            column,
        },
    ))
}
