//! The lines of a header (docs/rules/history-text.md).
ghost use Rattle.std.specs.Prelude.{◌≡◌, ◌∷◌, ◌++◌, [], OnOk, OnErr, map, codes, decimal};
ghost use Rattle.std.specs.Fmt.{signed_decimal};
ghost use Rattle.lb_text.specs.Runs.{runs_text};
ghost use Rattle.lb_trace.specs.Accepted.{IsHeader};
ghost use Rattle.lb_text.specs.Lines.{lines_text, marked, numbered, StillStands};
ghost use Rattle.lb_record.specs.Header.{cpu_line, distances_line, parts_line, lanes_line, task_line, header_text};

use crate::fields::{put_count, put_counts, put_nice, put_runs};
use lb_base::{Items, Mask, NoMemory};
use lb_levels::CpuRow;
use lb_text::{COMMA, LINE_FEED};
use lb_trace::{Header, TaskRow};

// The line of a CPU.
#[tactic(auto, unfolding(crate::specs::Header::cpu_line))]
fn put_cpu(id: u64, cpu: &CpuRow, to: &mut Vec<u8>) -> Result<(), NoMemory>
    ensures ok { OnOk result (to.new.items ≡ to.old.items ++ cpu_line id cpu.now ++ LINE_FEED ∷ []) }
    ensures refused { OnErr result (StillStands to.old.items to.new.items) }
{
    to.extend_from_slice(b"= cpu")?;
    put_count(COMMA, id, to)?;
    put_counts(COMMA, &[cpu.core, cpu.cache, cpu.node], to)?;
    to.extend_from_slice(b"\n")?;
    Ok(())
}

// The lines of CPUs, from CPU 0.
fn put_cpus(cpus: &[CpuRow], to: &mut Vec<u8>) -> Result<(), NoMemory>
    ensures ok { OnOk result (to.new.items ≡ to.old.items ++ lines_text (numbered cpu_line 0 cpus.now)) }
    ensures refused { OnErr result (StillStands to.old.items to.new.items) }
{
    for (id, cpu) in cpus.iter().enumerate() {
        put_cpu(id as u64, cpu, to)?;
    }
    Ok(())
}

// The line of the distances of one node.
#[tactic(auto, unfolding(crate::specs::Header::distances_line))]
fn put_distances(distances: &[u32], to: &mut Vec<u8>) -> Result<(), NoMemory>
    ensures ok { OnOk result (to.new.items ≡ to.old.items ++ distances_line distances.now ++ LINE_FEED ∷ []) }
    ensures refused { OnErr result (StillStands to.old.items to.new.items) }
{
    to.extend_from_slice(b"= dist")?;
    put_counts(COMMA, distances, to)?;
    to.extend_from_slice(b"\n")?;
    Ok(())
}

// The lines of the distances of nodes.
fn put_nodes(nodes: &[Items<u32>], to: &mut Vec<u8>) -> Result<(), NoMemory>
    ensures ok { OnOk result (to.new.items ≡ to.old.items ++ lines_text (map distances_line nodes.now)) }
    ensures refused { OnErr result (StillStands to.old.items to.new.items) }
{
    for distances in nodes {
        put_distances(distances.as_slice(), to)?;
    }
    Ok(())
}

// The CPUs of masks, each behind a comma.
fn put_partition(parts: &[Mask], to: &mut Vec<u8>) -> Result<(), NoMemory>
    ensures ok { OnOk result (to.new.items ≡ to.old.items ++ marked COMMA (map runs_text parts.now)) }
    ensures refused { OnErr result (StillStands to.old.items to.new.items) }
{
    for part in parts {
        put_runs(*part, to)?;
    }
    Ok(())
}

// The line of the partition.
#[tactic(auto, unfolding(crate::specs::Header::parts_line))]
fn put_parts(parts: &[Mask], to: &mut Vec<u8>) -> Result<(), NoMemory>
    ensures ok { OnOk result (to.new.items ≡ to.old.items ++ parts_line parts.now ++ LINE_FEED ∷ []) }
    ensures refused { OnErr result (StillStands to.old.items to.new.items) }
{
    to.extend_from_slice(b"= parts")?;
    put_partition(parts, to)?;
    to.extend_from_slice(b"\n")?;
    Ok(())
}

// The line of the number of lanes.
#[tactic(auto, unfolding(crate::specs::Header::lanes_line))]
fn put_lanes(lanes: u32, to: &mut Vec<u8>) -> Result<(), NoMemory>
    ensures ok { OnOk result (to.new.items ≡ to.old.items ++ lanes_line lanes ++ LINE_FEED ∷ []) }
    ensures refused { OnErr result (StillStands to.old.items to.new.items) }
{
    to.extend_from_slice(b"= lanes")?;
    put_count(COMMA, u64::from(lanes), to)?;
    to.extend_from_slice(b"\n")?;
    Ok(())
}

// What a task has, each field behind a comma.
fn put_task_fields(task: &TaskRow, to: &mut Vec<u8>) -> Result<(), NoMemory>
    ensures ok { OnOk result (to.new.items ≡ to.old.items ++ marked COMMA
        (signed_decimal task.now.nice ∷ decimal task.now.home ∷ runs_text task.now.mask ∷ [])) }
    ensures refused { OnErr result (StillStands to.old.items to.new.items) }
{
    put_nice(COMMA, task.nice, to)?;
    put_count(COMMA, u64::from(task.home), to)?;
    put_runs(task.mask, to)
}

// The line of a task.
#[tactic(auto, unfolding(crate::specs::Header::task_line))]
fn put_task(id: u64, task: &TaskRow, to: &mut Vec<u8>) -> Result<(), NoMemory>
    ensures ok { OnOk result (to.new.items ≡ to.old.items ++ task_line id task.now ++ LINE_FEED ∷ []) }
    ensures refused { OnErr result (StillStands to.old.items to.new.items) }
{
    to.extend_from_slice(b"= task")?;
    put_count(COMMA, id, to)?;
    put_task_fields(task, to)?;
    to.extend_from_slice(b"\n")?;
    Ok(())
}

// The lines of tasks, from task 0.
fn put_tasks(tasks: &[TaskRow], to: &mut Vec<u8>) -> Result<(), NoMemory>
    ensures ok { OnOk result (to.new.items ≡ to.old.items ++ lines_text (numbered task_line 0 tasks.now)) }
    ensures refused { OnErr result (StillStands to.old.items to.new.items) }
{
    for (id, task) in tasks.iter().enumerate() {
        put_task(id as u64, task, to)?;
    }
    Ok(())
}

// Line 1, and the lines of CPUs.
fn put_first_lines(cpus: &[CpuRow], to: &mut Vec<u8>) -> Result<(), NoMemory>
    ensures ok { OnOk result (to.new.items ≡ to.old.items
        ++ lines_text (codes "lbhist 1" ∷ numbered cpu_line 0 cpus.now)) }
    ensures refused { OnErr result (StillStands to.old.items to.new.items) }
{
    to.extend_from_slice(b"lbhist 1\n")?;
    put_cpus(cpus, to)
}

// The lines of a header. After a refusal what stood in the text still stands in front.
#[tactic(auto, unfolding(crate::specs::Header::header_text, crate::specs::Header::header_lines))]
fn put_header_lines(header: &Header, to: &mut Vec<u8>) -> Result<(), NoMemory>
    ensures ok { OnOk result (to.new.items ≡ to.old.items ++ header_text header.now) }
    ensures refused { OnErr result (StillStands to.old.items to.new.items) }
{
    put_first_lines(header.cpus.as_slice(), to)?;
    put_nodes(header.distances.as_slice(), to)?;
    put_parts(header.parts.as_slice(), to)?;
    put_lanes(header.lanes, to)?;
    put_tasks(header.tasks.as_slice(), to)
}

/// Appends the lines of a header: `lbhist 1`, and behind `= ` each line that declares the machine,
/// its partition, its lanes and its tasks, as a trace has them (docs/rules/history-text.md). The header
/// is one of an accepted trace. After a refusal the text is as before.
pub fn put_header(header: &Header, to: &mut Vec<u8>) -> Result<(), NoMemory>
    requires { IsHeader header.now }
    ensures ok { OnOk result (to.new.items ≡ to.old.items ++ header_text header.now) }
    ensures refused { OnErr result (to.new.items ≡ to.old.items) }
{
    let before = to.len();
    match put_header_lines(header, to) {
        Ok(()) => Ok(()),
        Err(refused) => {
            to.truncate(before);
            Err(refused)
        }
    }
}
