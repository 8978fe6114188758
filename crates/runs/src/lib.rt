// Runs that are lent, bytes of a line or words of a day: items are put at a place, one run behind the other, and what lies before and behind stays.
#![tactic(auto)]

ghost use Rattle.std.specs.Prelude.{◌≡◌, ◌+◌, ◌≤◌, length};
ghost use Rattle.runs.specs.Put.{Put};

// Puts items at a place of a run, and gives the place behind the last.
pub fn put<T: Copy>(run: &mut [T], at: usize, items: &[T]) -> usize
    requires { at + length items.now ≤ length run.old }
    ensures { Put run.old at items.now run.new result }
{
    let behind = at + items.len();
    run[at..behind].copy_from_slice(items);
    behind
}
