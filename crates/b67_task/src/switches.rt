//! The switches of a session.

ghost use Rattle.std.specs.Prelude.{◌≡◌, nat_lt, map, option_map};
ghost use Rattle.std.specs.List.{list_any};
ghost use Rattle.b67_model.specs.InOrder.{SwitchesRise};
ghost use Rattle.b67_task.specs.Tables.{switch_of};
ghost use Rattle.b67_task.specs.Counted.{Past};
ghost use Rattle.b67_task.specs.Chosen.{who_is, SwitchesTo};

use crate::ready::Who;
use b67_model_text::Switch;

/// Whom the switch of a count names, if there is one. All switches before `from` are for lower counts.
#[inline(always)]
pub(crate) fn due_switch(switches: &[Switch], from: u32, made: u64) -> Option<Who>
    ensures { SwitchesRise (map switch_of switches.now) → Past from made (map switch_of switches.now)
        → SwitchesTo made (map switch_of switches.now) (option_map who_is result) }
{
    for at in from as usize..switches.len() {
        let switch = switches[at];
        if switch.count == made {
            return Some(Who {
                job: switch.job,
                task: switch.task,
            });
        }
        if switch.count > made {
            return None;
        }
    }
    None
}

/// Whether a switch is left for a higher count.
#[inline(always)]
pub(crate) fn is_left(switches: &[Switch], made: u64) -> bool
    ensures { SwitchesRise (map switch_of switches.now)
        → result ≡ list_any (λ w. nat_lt made w.count) (map switch_of switches.now) }
{
    let len = switches.len();
    len > 0 && made < switches[len - 1].count
}
