// The digest of the counts of tests: to each zone in order (none where Windows refuses) each of the invariants of location 0 is put alone,
// and then each of the guards of transition 0, in file order, at visit 0. The numbers of each are: the refusal, 0 for none; how many zones
// the guard lists; and for each of them how many tests were asked on the way to it, 32 counts in all, zeros past the zones. Without a zone
// or a guard the digest is 0.
use expr::Ranges;
use guards::Guard;
use sheet::Sheet;
use split::Counted;
use stored::with_number;
use windows::Piece;
use zones::Zone;

// The digest with what one guard leaves of one zone.
fn with_counted(h: u64, counted: Counted) -> u64 {
    let refusal = with_number(h, counted.zones.refusal as u64);
    let count = with_number(refusal, counted.zones.count as u64);
    counted
        .tests
        .iter()
        .fold(count, |mix, tests| with_number(mix, *tests as u64))
}

// The digest with what each of some guards leaves of a zone.
fn with_guards(h: u64, b: Ranges, clocks: usize, guards: &[Guard], zone: Zone) -> u64 {
    guards.iter().fold(
        h,
        |mix, g| with_counted(mix, split::cut_one(b, clocks, *g, 0, zone)),
    )
}

// The digest with what each guard leaves of the zone of a piece. Past a sheet's count there are zeros: one without a transition has no
// guards there.
fn with_piece(h: u64, s: Sheet, z: &Piece) -> u64 {
    let zone = Zone {
        count: z.count,
        ineqs: z.ineqs,
        bounds: z.bounds,
    };
    let location = sheet::location_at(s, 0);
    let transition = sheet::transition_at(s, 0);
    let invariants = &location.guards[..location.count.min(6)];
    let guards = &transition.guards[..transition.count.min(6)];
    let mix = with_guards(h, s.ranges, s.clocks, invariants, zone);
    with_guards(mix, s.ranges, s.clocks, guards, zone)
}

// The digest of the counts of tests on pieces of a sheet.
pub(crate) fn digest(s: Sheet, pieces: &[Piece]) -> u64 {
    pieces.iter().fold(0, |mix, z| with_piece(mix, s, z))
}
