//! The services of the runtime: what compiled code asks for by ECALL.
#![tactic(auto)]

mod answering;
mod calling;
mod filling;
mod pointing;
mod reading;
mod replying;
mod serving;
mod storing;
mod throwing;
mod typing;

pub use answering::answer;
pub use rgctx_fill::{ImageView, ThreadState, Want};
pub use serving::serve;
