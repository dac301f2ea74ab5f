// The workloads after an event, on the lent bytes: 32 places of 1,024. A place keeps its bytes while it keeps its job, takes a new
// job's workload and zeros after it, and is set to zero when its job is ended or dropped. An inner crate: its callers lend at least
// 32,768 bytes and an opaque part of at most 1,024, and it refuses nothing.
#![tactic(auto)]

ghost use Rattle.std.specs.Prelude.{◌≡◌, cond, [], map, ◌+◌, ◌*◌, ◌≤◌, length, eqb};
ghost use Rattle.octets.specs.Put.{put};
ghost use Rattle.lists.specs.Lists.{concat, fit, numbers};
ghost use Rattle.server.specs.Sizes.{job_count, workload_size, workloads_size};
ghost use Rattle.server.specs.Call.{place_of};
ghost use Rattle.carry_workloads.specs.Reworked.{reworked_rows};

use server::{JOBS, JobRow, WORKLOAD_SIZE};

// One place, whose job had the serial `before` and has the serial `after`: kept with its job, and else the opaque part of a new job,
// or nothing where no job is left, with zeros after it.
pub fn rework_place(workloads: &mut [u8], place: usize, before: u32, after: u32, opaque: &[u8])
    requires { (workload_size * place + workload_size ≤ length workloads.old) × (length opaque.now ≤ workload_size) }
    ensures { workloads.new ≡ cond (eqb before after) workloads.old
        (put (workload_size * place) (fit workload_size (cond (eqb after 0) [] opaque.now)) workloads.old) }
{
    if before != after {
        let workload: &[u8] = if after == 0 { b"" } else { opaque };
        table_texts::put_text(workloads, WORKLOAD_SIZE * place, WORKLOAD_SIZE, workload);
    }
}

// All places, from the jobs' rows before the event and after it.
pub fn rework(workloads: &mut [u8], before: [JobRow; JOBS], after: [JobRow; JOBS], opaque: &[u8])
    requires { (workloads_size ≤ length workloads.old) × (length opaque.now ≤ workload_size) }
    ensures { workloads.new ≡ put 0 (concat (reworked_rows before after opaque.now
        (map (place_of workloads.old) (numbers 0 job_count)))) workloads.old }
{
    for i in 0..JOBS {
        rework_place(workloads, i, before[i].serial, after[i].serial, opaque);
    }
}
