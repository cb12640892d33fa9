// The passes over one tuple (01, "Calls", rebuild): which units they restore, and from which sets. They work on one flag a
// cell and write a log; the array's bytes come later, by the log.
#![tactic(auto)]

ghost use Rattle.std.specs.Prelude.{◌≡◌, ◌+◌, ◌*◌, ◌/◌, ◌<◌, length};
ghost use Rattle.geometry.specs.Geometry.{Sound, tuples_of};
ghost use Rattle.cells.specs.Ranges.{CellIn};
ghost use Rattle.peeling.specs.Peeling.{lacks_only};
ghost use Rattle.reaching.specs.Reach.{tuple_cells_of, cell_numbered, outer_side, inner_side};
ghost use Rattle.reaching.specs.State.{side_of, SetIn, seen, outer_restores, kind_of, kind_number, kind_in};
ghost use Rattle.reaching.specs.State.{state, Room, visited, swept, passed};

use cells::Cell;
use geometry::{Geometry, Tuple};

// Which of a cell's sets: the outer set of its label, or the inner set of its diagonal.
#[derive(Clone, Copy, Debug, PartialEq, Eq)]
pub enum Kind {
    Outer = 0,
    Inner = 1,
}

// A set as one of its cells sees it, of either kind: unit q is cell base + q·step + (column + q·turn) % g of the tuple.
#[derive(Clone, Copy)]
pub struct Set {
    pub size: u32,
    pub own: u32,
    pub base: u32,
    pub step: u32,
    pub column: u32,
    pub turn: u32,
    pub g: u32,
}

// The outer set of a cell's label.
fn outer_set(geometry: Geometry, at: Cell) -> Set
    requires sound { Sound geometry }
    requires cell_in { CellIn geometry at }
    ensures { (side_of result ≡ outer_side geometry at) × SetIn (tuple_cells_of geometry) result }
{
    let g = geometry.g;
    Set {
        size: geometry.k,
        own: at.position,
        base: at.row * g,
        step: g * g,
        column: region::label_at(g, at.position, at.row, at.column),
        turn: at.row,
        g,
    }
}

// The inner set of its diagonal.
fn inner_set(geometry: Geometry, at: Cell) -> Set
    requires sound { Sound geometry }
    requires cell_in { CellIn geometry at }
    ensures { (side_of result ≡ inner_side geometry at) × SetIn (tuple_cells_of geometry) result }
{
    let g = geometry.g;
    Set {
        size: g,
        own: at.row,
        base: at.position * (g * g),
        step: g,
        column: g - region::diagonal_at(g, at.row, at.column),
        turn: 1,
        g,
    }
}

// "position, then row, then column, each upwards": the cell of this number.
pub fn cell_numbered(geometry: Geometry, tuple: Tuple, n: u32) -> Cell
    requires sound { Sound geometry }
    requires tuple_bound { (tuple.0 < tuples_of geometry) × (n < tuple_cells_of geometry) }
    ensures { (result ≡ cell_numbered geometry tuple.0 n) × CellIn geometry result }
{
    let line = n / geometry.g;
    Cell {
        tuple,
        position: line / geometry.g,
        row: line % geometry.g,
        column: n % geometry.g,
    }
}

// Whether every unit of the set but the cell's own is present. Each unit is a step and a turn from the one before.
fn lacks_only(flags: &[bool], set: Set) -> bool
    requires { SetIn (length flags.now) set }
    ensures { result ≡ lacks_only (seen flags.now) (side_of set) }
{
    let mut line = set.base;
    let mut x = region::turned(set.g, 0, set.column);
    for q in 0..set.size {
        let at = (line + x) as usize;
        if !((q == set.own) | flags[at]) {
            return false;
        }
        line += set.step;
        x = region::turned(set.g, x, set.turn);
    }
    true
}

// Whether a missing cell's outer set lacks only it. A cell of row g-1 has no label.
fn outer_restores(geometry: Geometry, flags: &[bool], at: Cell) -> bool
    requires sound { Sound geometry }
    requires cell_in { CellIn geometry at × (length flags.now ≡ tuple_cells_of geometry) }
    ensures { result ≡ outer_restores geometry (seen flags.now) at }
{
    at.row < geometry.g - 1 && lacks_only(flags, outer_set(geometry, at))
}

// "A missing unit whose outer set lacks only it ..; otherwise, if its inner set lacks only it": the set that restores cell n, if
// one does.
fn kind_of(geometry: Geometry, tuple: Tuple, flags: &[bool], n: u32) -> Option<Kind>
    requires sound { Sound geometry }
    requires tuple_bound { (tuple.0 < tuples_of geometry) × (n < tuple_cells_of geometry) × (length flags.now ≡ tuple_cells_of geometry) }
    ensures { result ≡ kind_of geometry tuple.0 (seen flags.now) n }
{
    let at = cell_numbered(geometry, tuple, n);
    if outer_restores(geometry, flags, at) {
        return Some(Kind::Outer);
    }
    if lacks_only(flags, inner_set(geometry, at)) {
        return Some(Kind::Inner);
    }
    None
}

// An entry of the log, 2·cell + kind: two bytes a cell, so that the log fits the stack.
fn entry_of(cell: u32, kind: Kind) -> u16
    requires { cell < 1690 }
    ensures { result ≡ 2 * cell + kind_number kind }
{
    (2 * cell) as u16 + kind as u16
}

// The cell and the kind that an entry names.
pub fn read_entry(entry: u16) -> (u32, Kind)
    ensures { result ≡ (entry / 2, kind_in entry) }
{
    let kind = if entry % 2 == 0 {
        Kind::Outer
    } else {
        Kind::Inner
    };
    (u32::from(entry / 2), kind)
}

// A visit to cell n: a present cell is left, and "Later visits see it as present". Returns how many entries the log has.
fn visit(
    geometry: Geometry,
    tuple: Tuple,
    n: usize,
    flags: &mut [bool],
    log: &mut [u16],
    count: usize,
) -> usize
    requires sound { Sound geometry }
    requires tuple_bound { (tuple.0 < tuples_of geometry) × (n < tuple_cells_of geometry) }
    requires room { Room geometry (state flags.old log.old count) }
    ensures { state flags.new log.new result
        ≡ visited geometry tuple.0 n (state flags.old log.old count) }
{
    if flags[n] {
        return count;
    }
    let cell = n as u32;
    let Some(kind) = kind_of(geometry, tuple, flags, cell) else {
        return count;
    };
    flags[n] = true;
    log[count] = entry_of(cell, kind);
    count + 1
}

// A pass: every cell once, upwards.
fn sweep(
    geometry: Geometry,
    tuple: Tuple,
    flags: &mut [bool],
    log: &mut [u16],
    count: usize,
) -> usize
    requires sound { Sound geometry }
    requires tuple_bound { tuple.0 < tuples_of geometry }
    requires room { Room geometry (state flags.old log.old count) }
    ensures { state flags.new log.new result
        ≡ swept geometry tuple.0 (tuple_cells_of geometry) (state flags.old log.old count) }
{
    let mut entries = count;
    for n in 0..flags.len() {
        entries = visit(geometry, tuple, n, flags, log, entries);
    }
    entries
}

// "Passes repeat until one restores nothing." Each one before it leaves fewer cells missing.
pub fn passes(geometry: Geometry, tuple: Tuple, flags: &mut [bool], log: &mut [u16]) -> usize
    requires sound { Sound geometry }
    requires tuple_bound { tuple.0 < tuples_of geometry }
    requires room { Room geometry (state flags.old log.old 0) }
    ensures { state flags.new log.new result
        ≡ passed geometry tuple.0 (tuple_cells_of geometry) (state flags.old log.old 0) }
{
    let mut count: usize = 0;
    loop {
        let after = sweep(geometry, tuple, flags, log, count);
        if after == count {
            return after;
        }
        count = after;
    }
}
