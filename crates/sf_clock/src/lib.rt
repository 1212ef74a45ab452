//! Clocks: the moments of a run, told by a list or by the system.
#![tactic(auto)]

mod clock;
mod script_clock;
mod system_clock;

pub use clock::Clock;
pub use script_clock::ScriptClock;
pub use system_clock::SystemClock;
