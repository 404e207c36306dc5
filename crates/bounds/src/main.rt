// Goes to every bound of families, panels, readings and models and one step beyond it, and prints a line for each case: what the call answered, or
// the number, the place and the layer of its refusal.
#![tactic(auto)]

mod family_cases;
mod model_cases;
mod panel_cases;
mod reading_cases;
mod told;

use std::io;

fn main(rt: HostRuntime) -> io::Result<()> {
    family_cases::run(&rt)?;
    panel_cases::run(&rt)?;
    reading_cases::run(&rt)?;
    model_cases::run(&rt)
}
