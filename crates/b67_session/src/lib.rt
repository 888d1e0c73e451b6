//! Sessions: a deck is opened or refused; a step is tried, what it lacks is brought in, and it is made; turns of steps, slices,
//! the lines and deaths at the end of a step, and how all this stops and goes on. It promises that the machine of an opening
//! represents the opening session, that n steps of any jobs and tasks are made with exactly their lines, and that after a stop
//! the machine represents the session before the step that wasn't made, so the call may be made again.
//!
//! For `b67_job`: `open` (`opens`; `open`: a slice may be called), `open_machine`, `slice` and `Session::slice` (`row`,
//! `present`, `resumed`, `ended`, `complete`, `leaves`), `find` (`least`, `stops`, `complete`). One operator by itself:
//! `attempt` (`row`, `causes`, `kept`, `tables`, `device`), with what it lacks brought in; `try_once` (`tried`, `causes`,
//! `keeps`, `device`), without; `make` (`row`, `keeps`, `tasks`), but for intrinsics. Ends of a step: `close`, `make_wait`,
//! `finish`, `end_by_limit`. Laws: `present_fits`, `made_fits`, `machines_are_open`.
//!
//! Begin with `open`, then `slice`, then `try_once`, the try of one operator.
#![tactic(auto)]

mod attempting;
mod bringing;
mod closes;
mod copies;
mod counts;
mod deaths;
mod dictionaries;
mod ending_lines;
mod ends;
mod finding;
mod fits;
mod holds;
mod laying;
mod left;
mod limits;
mod making;
mod open_fault;
mod opening;
mod opening_needs;
mod opening_tables;
mod running;
mod seeking;
mod setting;
mod slices;
mod steps;
mod task_states;
mod tries;
mod turns;

pub use attempting::attempt;
pub use b67_mcp::Stop;
pub use b67_task::schedule;
pub use finding::find;
pub use fits::{made_fits, present_fits};
pub use open_fault::OpenFault;
pub use opening::{know_programs, machines_are_open, open, open_machine};
pub use running::Session;
pub use seeking::{CodePlace, Sought};
pub use slices::{Progress, slice};
pub use tries::{Tried, try_once};
pub use turns::make;
