//! Threads that take turns over an image.
#![tactic(auto)]

mod fills;
mod listed;
mod machine;
mod memory;
mod progress;
mod record;
mod starts;
mod stepping;
mod thread;
mod whole;

pub use record::{FillNote, Turn};
pub use rgctx_fill::{ImageView, ThreadState, Want};
pub use rt_service::answer;
pub use starts::{main_state, started_state};
pub use stepping::{RunSoFar, TurnEnd};
pub use thread::next;
pub use whole::{ImageRun, run};
