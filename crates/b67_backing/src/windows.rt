//! Windows of marks, one for each sector from a number on.

ghost use Rattle.std.specs.Prelude.{◌≡◌, ℕ, ◌+◌, ◌<◌, ◌==◌, true, false, length, slice_index_or, if◌then◌else◌};

/// Takes all marks away.
pub fn clear(marks: &mut [bool])
    ensures length { length marks.new ≡ length marks.old }
    ensures none { (i : ℕ) → slice_index_or marks.new i false ≡ false }
{
    'each: for i in 0..marks.len() {
        marks[i] = false;
    }
}

/// Marks sector n if it lies in the window that begins with sector `first`.
pub fn mark_within(marks: &mut [bool], first: u32, n: u32)
    ensures length { length marks.new ≡ length marks.old }
    ensures each { (i : ℕ) → i < length marks.old
        → slice_index_or marks.new i false ≡ (if n == first + i then true else slice_index_or marks.old i false) }
{
    if n < first {
        return;
    }
    let at = (n - first) as usize;
    if at >= marks.len() {
        return;
    }
    marks[at] = true;
}
