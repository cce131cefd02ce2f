//! Looking over a list of seats.

ghost use Rattle.std.specs.Prelude.{◌≡◌, ◌≤◌, length, find, option_and_then, count_by};
ghost use Rattle.std.specs.List.{list_all};
ghost use Rattle.quorum.specs.Tallies.{is_counted, reports, fits, mark_of};

use crate::seats::Seat;
use fab_base::Stamp;

// How many of the seats are counted.
pub fn counted_seats(seats: &[Seat]) -> usize
    ensures { result ≡ count_by is_counted seats.now }
{
    seats.iter().filter(|seat| seat.is_counted()).count()
}

// How many of the seats report the stamp.
pub fn seats_with(seats: &[Seat], stamp: Stamp) -> usize
    ensures value { result ≡ count_by (reports stamp) seats.now }
    ensures bound { result ≤ length seats.now }
{
    seats.iter().filter(|seat| seat.reports(stamp)).count()
}

// What the first counted seat reports.
pub fn first_mark(seats: &[Seat]) -> Option<Stamp>
    ensures { result ≡ option_and_then mark_of (find is_counted seats.now) }
{
    match seats.iter().find(|seat| seat.is_counted()) {
        None => None,
        Some(seat) => seat.mark(),
    }
}

// Whether each seat may stand in a tally that agrees on the stamp.
pub fn all_fit(seats: &[Seat], stamp: Stamp) -> bool
    ensures { result ≡ list_all (fits stamp) seats.now }
{
    seats.iter().all(|seat| seat.fits(stamp))
}
