// Whether numbers are the same.
ghost use Rattle.std.specs.Prelude.{◌≡◌, true, ℕ, ◌+◌, ◌≤◌, ◌<◌, pos, length, get_or};

// Whether the n numbers from a on are those from b on.
pub(crate) fn same(cells: &[i32], a: usize, b: usize, n: usize) -> bool
    requires { (length cells.now ≡ 22500) × ((a + n ≤ 22500) × (b + n ≤ 22500)) }
    ensures { result ≡ true → (i : ℕ) → i < n
        → get_or cells.now (a + i) (pos 0) ≡ get_or cells.now (b + i) (pos 0) }
{
    cells[a..a + n] == cells[b..b + n]
}
