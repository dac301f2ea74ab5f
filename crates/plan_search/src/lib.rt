// Tests of a job's row by value, the connections able to do a function, and the job with a serial among all rows. No row is refused.
#![tactic(auto)]

ghost use Rattle.std.specs.Prelude.{◌≡◌, ◌&&◌, get_or, eqb};
ghost use Rattle.server.specs.Table.{live, queued};
ghost use Rattle.plan.specs.Values.{serial_row};

use server::{FUNCTIONS, JOBS, JobRow};

// Whether an unfinished job stands here.
pub fn is_live(r: JobRow) -> bool
    ensures { result ≡ live r }
{
    r.serial != 0
}

// Whether the job waits in the queue.
pub fn is_queued(r: JobRow) -> bool
    ensures { result ≡ queued r }
{
    (r.serial != 0) & (r.holder == 0)
}

// Whether this is the unfinished job with this serial. A free row has none, not 0.
fn has_serial(r: JobRow, serial: u32) -> bool
    ensures { result ≡ live r && eqb r.serial serial }
{
    (r.serial != 0) & (r.serial == serial)
}

// The connections able to do the function at place q: nobody beyond the last place.
pub fn able_to(able: [u32; FUNCTIONS], q: u8) -> u32
    ensures { result ≡ get_or able q 0 }
{
    able.get(q as usize).copied().unwrap_or(0)
}

// The place of the unfinished job with this serial. Row by row: the library's search would have all rows copied first, since they come by
// value, and `show` asks for each of them.
pub fn serial_row(rows: [JobRow; JOBS], serial: u32) -> Option<usize>
    ensures { result ≡ serial_row serial rows }
{
    for i in 0..JOBS {
        if has_serial(rows[i], serial) {
            return Some(i);
        }
    }
    None
}
