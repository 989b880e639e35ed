//! Inserting rows without allocating memory.

ghost use Rattle.std.specs.Prelude.{◌≡◌, ◌<◌, ◌≤◌, insert, vec_len};
ghost use Rattle.std.specs.Vec.{vec_capacity};

/// Inserts a row at index `at`. Precondition: the vector has spare capacity.
pub fn insert_row<T: Drop>(rows: &mut Vec<T>, at: usize, row: T)
    requires within { at ≤ vec_len rows.old }
    requires room { vec_len rows.old < vec_capacity rows.old }
    ensures items { rows.new.items ≡ insert rows.old.items at row }
    ensures capacity { vec_capacity rows.old ≤ vec_capacity rows.new }
{
    let _ = rows.insert(at, row);
}
