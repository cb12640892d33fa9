// Prints the places of the user units of design F with g = 3 (01, "Proved examples"), one a line: the data unit, its outer
// parity, the inner parity of the data and that of the outer parity, each as disk/unit; and what the first number too high gets.
#![tactic(auto)]

use geometry::UserUnit;
use std::io;

fn print_user_unit(rt: &impl Print, design: &[u16], n: u32) -> io::Result<()> {
    match address::map(equation1::geometry_f(), design, UserUnit(n)) {
        Ok(f) => println!(rt; "user {n}: {} {} {} {}", f.user, f.outer, f.inner, f.both),
        Err(why) => println!(rt; "user {n}: {why}"),
    }
}

fn main(rt: HostRuntime) -> io::Result<()> {
    let design = equation1::design();
    for n in 0..85 {
        print_user_unit(&rt, &design, n)?;
    }
    Ok(())
}
