// Prints figure 4 of document 000 from the proved way back: 9 lines of 21 units of design F with g = 3, each as its label, or
// as P and its column where it is an inner parity; then a line for each unit, with its role.
#![tactic(auto)]

use cells::Role;
use geometry::{Disk, Tuple, Unit, UserUnit};
use layout::Place;
use refusal::Refusal;
use std::io;

fn role_at(design: &[u16], place: Place) -> Result<Role, Refusal> {
    address::role(equation1::geometry_f(), design, place.disk, place.unit)
}

// The figure numbers the labels of tuple t from 6·t on, row after row of three. User unit n = ((t·2 + l)·2 + i)·3 + c has the
// label (i,c) of tuple t = n / 12, and n % 6 = 3·i + c.
fn print_label(rt: &impl Print, role: Role) -> io::Result<()> {
    match role {
        Role::User(UserUnit(n)) => print!(rt; " {}", n / 12 * 6 + n % 6),
        Role::Outer(Tuple(t), i, c) => print!(rt; " {}", t % 7 * 6 + i % 2 * 3 + c % 3),
        Role::Inner(_, _, j) => print!(rt; " P{}", 2 - j % 3),
    }
}

fn print_cell(rt: &impl Print, design: &[u16], place: Place) -> io::Result<()> {
    match role_at(design, place) {
        Ok(role) => print_label(rt, role),
        Err(why) => print!(rt; " {why}"),
    }
}

fn print_line(rt: &impl Print, design: &[u16], unit: Unit) -> io::Result<()> {
    for disk in 0..21 {
        let disk = Disk(disk);
        print_cell(rt, design, Place { disk, unit })?;
    }
    println!(rt)
}

fn print_unit(rt: &impl Print, design: &[u16], place: Place) -> io::Result<()> {
    match role_at(design, place) {
        Ok(role) => println!(rt; "{place} {role}"),
        Err(why) => println!(rt; "{place} {why}"),
    }
}

fn print_disk(rt: &impl Print, design: &[u16], disk: Disk) -> io::Result<()> {
    for unit in 0..9 {
        let unit = Unit(unit);
        print_unit(rt, design, Place { disk, unit })?;
    }
    Ok(())
}

fn main(rt: HostRuntime) -> io::Result<()> {
    let design = equation1::design();
    for unit in 0..9 {
        print_line(&rt, &design, Unit(unit))?;
    }
    for disk in 0..21 {
        print_disk(&rt, &design, Disk(disk))?;
    }
    Ok(())
}
