// Matrices of weights, five rows of five, by value: which are void, and whether a guard changes one. A void matrix is marked by a strict
// zero at (0, 0).
#![tactic(auto)]

ghost use Rattle.std.specs.Prelude.{◌≡◌};
ghost use Rattle.weight_matrix.specs.Tables.{void_table, is_void, guard_changes};

use weight::Weight;

// The void matrix.
pub fn void() -> [[Weight; 5]; 5]
    ensures { result ≡ void_table }
{
    let mut m = [[Weight::ZERO; 5]; 5];
    m[0][0] = Weight {
        none: false,
        strict: true,
        value: 0,
    };
    m
}

// Whether m is void.
pub fn is_void(m: [[Weight; 5]; 5]) -> bool
    ensures { result ≡ is_void m }
{
    let x = m[0][0];
    x.strict
}

// Whether a guard with the weight e changes a matrix with these entries at (0, 0), (j, i) and (i, j).
pub fn changes(top: Weight, back: Weight, was: Weight, e: Weight) -> bool
    ensures { result ≡ guard_changes top back was e }
{
    if top.strict {
        return false;
    }
    let around = e.sum(back);
    if around.tighter(Weight::ZERO) {
        return true;
    }
    e.tighter(was)
}
