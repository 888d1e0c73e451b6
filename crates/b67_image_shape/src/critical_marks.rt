//! Whether the greatest critical displacements are as they should be.

ghost use Rattle.std.specs.Prelude.{◌≡◌, ◌≤◌, ◌<◌, length, map};
ghost use Rattle.b67_ctl.specs.declared.map.TheConstants.{SLOTS};
ghost use Rattle.b67_task.specs.Tables.{task_row};
ghost use Rattle.b67_image_shape.specs.FixedTests.{all_below, mark_test, critical_test};
ghost use Rattle.b67_image_shape.specs.FixedWords.{greatest};

use b67_ctl::SLOTS;
use b67_task::TaskRow;

/// The greatest critical displacement of the tasks whose parent lives in a slot, 0 for none.
fn greatest_of(rows: &[TaskRow], n: u8) -> u16
    ensures { result ≡ greatest (map task_row rows.now) n }
{
    let mut most = 0u16;
    let mut left = rows;
    'each: while let [row, more @ ..] = left {
        if row.parent == n {
            most = most.max(row.critical);
        }
        left = more;
    }
    most
}

/// Whether the greatest critical displacements of the first slots are as they should be.
fn marks_are(critical: &[u16; SLOTS as usize], rows: &[TaskRow], many: u8) -> bool
    requires { many ≤ SLOTS }
    ensures { result ≡ all_below (mark_test critical.now (map task_row rows.now)) many }
{
    let mut n = many;
    'each: while 0 < n {
        n -= 1;
        if critical[n as usize] != greatest_of(rows, n) {
            return false;
        }
    }
    true
}

/// Whether the greatest critical displacements are as they should be.
pub fn critical_passes(critical: &[u16; SLOTS as usize], rows: &[TaskRow]) -> bool
    ensures { result ≡ critical_test critical.now (map task_row rows.now) }
{
    marks_are(critical, rows, SLOTS)
}
