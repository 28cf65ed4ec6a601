//! Numbers by the places of counters.
ghost use Rattle.std.specs.Prelude.{◌≡◌, ◌+◌, ◌<◌, ◌^◌, sum};
ghost use Rattle.stat_board.specs.Rows.{added, greatest};

use crate::counter::COUNTERS;

// A number for each counter, by its place.
pub type Row = [u64; COUNTERS];

// Both rows added up, place by place.
pub fn sums(one: &Row, other: &Row) -> Row
    requires { sum one.now + sum other.now < 2 ^ 64 }
    ensures { result ≡ added one.now other.now }
{
    let mut row = *one;
    for i in 0..COUNTERS {
        row[i] += other[i];
    }
    row
}

// The greater number at each place.
pub fn maxima(one: &Row, other: &Row) -> Row
    ensures { result ≡ greatest one.now other.now }
{
    let mut row = *one;
    for i in 0..COUNTERS {
        row[i] = row[i].max(other[i]);
    }
    row
}
