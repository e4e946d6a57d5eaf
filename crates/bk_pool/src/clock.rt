//! Which frame goes next.

ghost use Rattle.std.specs.Prelude.{◌≡◌, ◌≤◌, Some, true, false, length, slice_get, All, IfSome, MatchOption};

// The first frame in a range that is neither dirty nor marked as used. Those that it passes are no longer marked.
pub fn sweep(dirty: &[bool], used: &mut [bool], from: usize, to: usize) -> Option<usize>
    requires frames { to ≤ length dirty.now }
    requires marks { length used.old ≡ length dirty.now }
    ensures len { length used.new ≡ length used.old }
    ensures clean { IfSome result (λ i. slice_get dirty.now i ≡ Some false) }
{
    for i in from..to {
        if !dirty[i] {
            if !used[i] {
                return Some(i);
            }
            used[i] = false;
        }
    }
    None
}

// The first frame that isn't dirty.
pub fn first_clean(dirty: &[bool]) -> Option<usize>
    ensures { MatchOption result (All (λ is_dirty. is_dirty ≡ true) dirty.now) (λ i. slice_get dirty.now i ≡ Some false) }
{
    dirty.iter().position(|is_dirty| !*is_dirty)
}
