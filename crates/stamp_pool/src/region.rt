// Rows in a region.
ghost use Rattle.std.specs.Prelude.{ℕ, ◌≡◌, ◌<◌, ◌≤◌, ◌+◌, max, Bool, true, false, Some, length, slice_get, slice_index, IfSome, IfNone};

/// The row from `start` on gets zeros.
pub fn clear(region: &mut [u32], start: usize, width: usize)
    requires { start + width ≤ length region.old }
    ensures size { length region.new ≡ length region.old }
    ensures own { (i : ℕ) → i < width → slice_index region.new (start + i) ≡ 0 }
    ensures before { (k : ℕ) → k < start → slice_index region.new k ≡ slice_index region.old k }
    ensures behind { (k : ℕ) → start + width ≤ k → slice_index region.new k ≡ slice_index region.old k }
{
    for i in 0..width {
        region[start + i] = 0;
    }
}

/// The counts of the row from `start` on become the greater of their own and these.
pub fn raise(region: &mut [u32], start: usize, counts: &[u32])
    requires { start + length counts.now ≤ length region.old }
    ensures size { length region.new ≡ length region.old }
    ensures own { (i : ℕ) → i < length counts.now → slice_index region.new (start + i) ≡ max (slice_index region.old (start + i)) (slice_index counts.now i) }
    ensures before { (k : ℕ) → k < start → slice_index region.new k ≡ slice_index region.old k }
    ensures behind { (k : ℕ) → start + length counts.now ≤ k → slice_index region.new k ≡ slice_index region.old k }
{
    for i in 0..counts.len() {
        region[start + i] = region[start + i].max(counts[i]);
    }
}

/// The counts of the row from `start` on become those of the other row, which is as long.
pub fn copy(row: &mut [u32], region: &[u32], start: usize)
    requires { start + length row.old ≤ length region.now }
    ensures size { length row.new ≡ length row.old }
    ensures each { (i : ℕ) → i < length row.old → slice_index row.new i ≡ slice_index region.now (start + i) }
{
    for i in 0..row.len() {
        row[i] = region[start + i];
    }
}

/// The first row that is not lent.
pub fn first_free(lent: &[bool]) -> Option<usize>
    ensures some { IfSome result (λ k. slice_get lent.now k ≡ Some false) }
    ensures none { IfNone result ((k : ℕ) → slice_get lent.now k ≡ Some false → ⊥) }
{
    for place in 0..lent.len() {
        if !lent[place] {
            return Some(place);
        }
    }
    None
}

/// The row from `start` on.
pub fn row(region: &[u32], start: usize, width: usize) -> &[u32]
    requires { start + width ≤ length region.now }
    ensures size { length result.now ≡ width }
    ensures each { (i : ℕ) → i < width → slice_index result.now i ≡ slice_index region.now (start + i) }
{
    &region[start..start + width]
}
