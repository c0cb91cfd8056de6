// Whether two of the inequalities are opposite and too far apart.
ghost use Rattle.std.specs.Prelude.{◌≡◌, true};
ghost use Rattle.systems.specs.Boxes.{Never};
ghost use Rattle.inequalities.specs.Flat.{exprs_in};

// Whether the last of n inequalities is opposite to an earlier one and too far apart; asked only at the start of a search.
pub fn opposed(flat: &[i32], n: usize, start: usize) -> bool
    ensures { result ≡ true → Never (exprs_in flat.now n) }
{
    if 0 < start {
        return false;
    }
    let earlier = n.saturating_sub(1);
    let last = inequalities::inequality(flat, earlier);
    for k in 0..earlier {
        if opposites::apart(inequalities::inequality(flat, k), last) {
            return true;
        }
    }
    false
}
