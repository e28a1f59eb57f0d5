//! Whether a gas burner ever leaks too much, by polyhedra.
#![tactic(auto)]

mod burner;
mod safety;

use guzhtarel::{Names, Polyhedron};
use std::io;

fn main(rt: HostRuntime) -> io::Result<()> {
    let mut names = Names::new(rt.alloc());
    names.push("time")?;
    names.push("leak")?;
    names.push("pause")?;
    let text = burner::describe::<Polyhedron>(rt.alloc(), &names)?;
    print!(rt; "{text}")?;
    Ok(())
}
