//! The executor: one event of the plain machine a call, over a store.
//!
//! A contract sees an `Exec` together with the machine's state that it is in: `Stands` says that the memory
//! agrees with it, `Runs` that the desk's disk does too, and how many of its entries are settled. `Does` says
//! that a call was the machine's step, with the answers that the desk gave. An entry is staged by its event;
//! all is settled before the outside is asked, and the caller settles before it answers anyone.
#![tactic(auto)]

mod append;
mod commit;
mod dequeue;
mod ends;
mod enter;
mod exec;
mod new;
mod reads;
mod snapshots;
mod stored;
mod turn;
mod turn_parts;
mod turning;
mod txn_turn;

pub use ends::{CommandEnd, DequeueEnd, ExecFault, TurnEnd};
pub use exec::Exec;
