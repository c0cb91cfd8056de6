// Digests of a sheet and of what `body` hands out. Each number x goes into a digest as x + 2147483648.
//
// The numbers of a sheet are its version and all fields of its bodies in the file's order, those of
// the places past a count too. The numbers of the bodies are, for each kind from 0 to 5, the refusal's number and place (0
// and 0 for none), the length of the part, and its bytes.
use automaton::{Location, Transition};
use expr::{Expr, Range, Ranges};
use guards::Guard;
use sheet::Sheet;
use stored::{magnitude, with_number};

// The digest with a count or a location's number.
fn with_count(h: u64, x: usize) -> u64 {
    with_number(h, (x as u64) % 4294967296 + 2147483648)
}

// The digest with a byte.
fn with_byte(h: u64, x: u8) -> u64 {
    with_number(h, u64::from(x) + 2147483648)
}

// The digest with a number that may be negative: modulo 1000000007, less by n is more by 1000000007 - n.
fn with_signed(h: u64, x: i64) -> u64 {
    let n = magnitude(x) % 1000000007;
    if x < 0 {
        return with_number(h, 2147483648 + 1000000007 - n);
    }
    with_number(h, 2147483648 + n)
}

// The digest with an expression: its constant and its coefficients.
fn with_expr(h: u64, expr: Expr) -> u64 {
    let coefs = expr.coefs;
    let mut mix = with_signed(h, i64::from(expr.constant));
    for coef in coefs {
        mix = with_signed(mix, i64::from(coef));
    }
    mix
}

// The relation of a bound: 0 at most, 1 below; 2 if there is none, which no guard has.
fn relation(none: bool, strict: bool) -> u8 {
    if none {
        2
    } else if strict {
        1
    } else {
        0
    }
}

// The digest with a guard.
fn with_guard(h: u64, guard: Guard) -> u64 {
    let left = with_byte(h, guard.left);
    let right = with_byte(left, guard.right);
    let bound = guard.bound;
    let relation = with_byte(right, relation(bound.none, bound.strict));
    with_expr(relation, bound.expr)
}

// The digest with a count of guards and all six places.
fn with_guards(h: u64, count: usize, guards: [Guard; 6]) -> u64 {
    let mut mix = with_count(h, count);
    for guard in guards {
        mix = with_guard(mix, guard);
    }
    mix
}

// The digest with a range.
fn with_range(h: u64, range: Range) -> u64 {
    let low = with_signed(h, i64::from(range.low));
    with_signed(low, i64::from(range.high))
}

// The digest with the four ranges.
fn with_ranges(h: u64, ranges: Ranges) -> u64 {
    let list = ranges.list;
    let mut mix = h;
    for range in list {
        mix = with_range(mix, range);
    }
    mix
}

// The digest with a location.
fn with_location(h: u64, location: Location) -> u64 {
    let guards = location.guards;
    with_guards(h, location.count, guards)
}

// The digest with the locations.
fn with_locations(h: u64, list: [Location; 16]) -> u64 {
    let mut mix = h;
    for location in list {
        mix = with_location(mix, location);
    }
    mix
}

// The digest with a transition.
fn with_transition(h: u64, transition: Transition) -> u64 {
    let from = with_count(h, transition.from);
    let to = with_count(from, transition.to);
    let resets = with_byte(to, transition.resets);
    let guards = transition.guards;
    with_guards(resets, transition.count, guards)
}

// The digest with the transitions.
fn with_transitions(h: u64, list: [Transition; 32]) -> u64 {
    let mut mix = h;
    for transition in list {
        mix = with_transition(mix, transition);
    }
    mix
}

// The digest with the route.
fn with_route(h: u64, list: [u8; 32]) -> u64 {
    let mut mix = h;
    for byte in list {
        mix = with_byte(mix, byte);
    }
    mix
}

// The digest of a sheet.
pub(crate) fn digest(sheet: Sheet) -> u64 {
    let ranges = sheet.ranges;
    let location = sheet.location;
    let transition = sheet.transition;
    let route = sheet.route;
    let version = with_count(0, sheet.version);
    let parameters = with_ranges(with_count(version, sheet.parameters), ranges);
    let clocks = with_count(parameters, sheet.clocks);
    let locations = with_locations(with_count(clocks, sheet.locations), location);
    let transitions = with_transitions(with_count(locations, sheet.transitions), transition);
    with_route(with_count(transitions, sheet.moves), route)
}

// The digest with a part of a file: its length and its bytes.
fn with_part(h: u64, part: &[u8]) -> u64 {
    let mut mix = with_count(h, part.len());
    for byte in part {
        mix = with_byte(mix, *byte);
    }
    mix
}

// The digest with the body of a kind, one that is refused too: why it is, and its part.
fn with_body(h: u64, file: &[u8], kind: u8) -> u64 {
    let refusal = answers::file::numbered(body::body_refusal(file, kind));
    let number = with_count(h, refusal.number);
    let place = with_count(number, refusal.place);
    with_part(place, body::body(file, kind))
}

// The digest of the bodies of the kinds 0 to 5.
pub(crate) fn bodies(file: &[u8]) -> u64 {
    let mut mix = 0;
    for kind in 0..6 {
        mix = with_body(mix, file, kind);
    }
    mix
}
