// A zone (paper: piece) on standard output: its first valuation, its inequalities, and the bounds of clock 0 and the sheet's clocks. Each
// function answers whether all was written.
use expr::{Bound, Expr, Valuation};
use std::io;
use windows::Piece;

// The line of the first valuation.
fn print_first(rt: &impl Print, v: &Valuation) -> io::Result<()> {
    print!(rt; "first")?;
    for x in &v.numbers {
        print!(rt; " {x}")?;
    }
    println!(rt; "")
}

// The constant and the four coefficients.
fn print_expr(rt: &impl Print, e: &Expr) -> io::Result<()> {
    print!(rt; " {}", e.constant)?;
    for x in &e.coefs {
        print!(rt; " {x}")?;
    }
    Ok(())
}

// The lines of a zone's inequalities.
fn print_inequalities(rt: &impl Print, ineqs: &[Expr]) -> io::Result<()> {
    for e in ineqs {
        print!(rt; "ineq")?;
        print_expr(rt, e)?;
        println!(rt; "")?;
    }
    Ok(())
}

// None, or the relation and the expression.
fn print_relation(rt: &impl Print, b: &Bound) -> io::Result<()> {
    if b.none {
        return print!(rt; " none");
    }
    let relation = if b.strict { "lt" } else { "le" };
    print!(rt; " {relation}")?;
    print_expr(rt, &b.expr)
}

// The line of the bound on clock i - clock j.
fn print_bound(rt: &impl Print, i: usize, j: usize, b: &Bound) -> io::Result<()> {
    print!(rt; "bound {i} {j}")?;
    print_relation(rt, b)?;
    println!(rt; "")
}

// The lines of the bounds in row order, up to the last clock.
fn print_bounds(rt: &impl Print, z: &Piece, last: usize) -> io::Result<()> {
    for (k, b) in z.bounds.iter().enumerate() {
        if k / 5 <= last && k % 5 <= last {
            print_bound(rt, k / 5, k % 5, b)?;
        }
    }
    Ok(())
}

// The lines of zone k of a sheet with so many clocks.
pub(crate) fn print_zone(rt: &impl Print, k: usize, z: &Piece, clocks: usize) -> io::Result<()> {
    println!(rt; "piece {k}")?;
    print_first(rt, &z.first)?;
    print_inequalities(rt, &z.ineqs[..z.count.min(24)])?;
    print_bounds(rt, z, clocks)
}
