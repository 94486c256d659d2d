// Products and squares of single parts, which are numbers: the limit of each is asked here.
ghost use Rattle.std.specs.Prelude.{◌≡◌, ◌^◌, ◌<◌, ◌≤◌, pos, ◌-ℤ◌, ◌*ℤ◌, unsigned_abs};
ghost use Rattle.points.specs.Points.{square};

// The product of a part of an entry and a part of a point, each within its limit.
pub fn product(r: i32, s: i32) -> i32
    requires entry { unsigned_abs r ≤ 2048 }
    requires point { unsigned_abs s ≤ 15 }
    ensures value { result ≡ r *ℤ s }
    ensures bound { unsigned_abs result ≤ 30720 }
{
    r * s
}

// (u − r·s)², for a gain r.
pub fn squared_offset(u: i32, r: u32, s: i32) -> u64
    requires target { unsigned_abs u ≤ 1048576 }
    requires gain { r ≤ 2047 }
    requires point { unsigned_abs s ≤ 15 }
    ensures value { result ≡ square (u -ℤ pos r *ℤ s) }
    ensures bound { result < 2 ^ 41 }
{
    let offset = u64::from((u - product(r as i32, s)).unsigned_abs());
    offset * offset
}
