//! Tasks, in the machine with the tables of tasks and jobs: what it is that such a machine represents a session, a task's birth
//! and its end with those under it, the records that live tasks depend on, who runs next and for how long, the switch, the
//! arrays of a record that was left, and what the next operator needs. It promises that the machine then represents the
//! model's session.
//!
//! For all over the whole machine: `Machine`, `Tasks`, and the definitions `MachineRepresents` and `RunsTask`. For `b67_mcp`:
//! `start` (`number`, `stands`, `keeps`, `tables`), `lives`, `status`. For `b67_session`: `end_family` (`stands`, `tasks`,
//! `len`, `count`), `endings`, `live_of`; `choose` (`choice`, `none`, `room`), `schedule` (`row`, `none`), `turn_room` (`few`,
//! `halt`, `lasts`), `count`, `count_turn`, `switch_to` (`stands`, `words`); `release` (`stands`, `released`), after EXIT and
//! RETN; `need`, `sector_sum`. For whoever works with tasks alone: `end` (`list`, `stands`), `critical` (`mark`, `none`).
//!
//! Begin with the definition `MachineRepresents` (`specs/Tables`), then `start` and `end_family`: `stands`.
#![tactic(auto)]

mod choosing;
mod counting;
mod end_rows;
mod end_slots;
mod ends;
mod families;
mod left_records;
mod marks;
mod needing;
mod ready;
mod registers;
mod release_original;
mod release_words;
mod sectors;
mod start_slot;
mod start_stack;
mod starts;
mod states;
mod switches;
mod switching;
mod tables;
mod turn_length;

pub use choosing::{choose, schedule};
pub use counting::{Chosen, count, count_turn};
pub use ends::{end, end_family};
pub use families::{endings, is_among, live_of};
pub use left_records::release;
pub use marks::critical;
pub use needing::need;
pub use registers::Turn;
pub use sectors::sector_sum;
pub use start_slot::next_slot_end;
pub use starts::{procedure_at, start};
pub use states::{lives, status};
pub use switching::switch_to;
pub use tables::{
    JobRow, JobRows, MOST_ENDED, MOST_LISTED, MOST_ROWS, Machine, NO_PARENT, NO_ROW, TaskRow,
    TaskState, Tasks,
};
pub use turn_length::turn_room;
