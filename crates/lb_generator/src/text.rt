//! The text of a drawn trace: its header, and then its rows.
ghost use Rattle.std.specs.Prelude.{◌≡◌, ◌≤◌, ◌<◌, ◌++◌, map, IfOk, OnOk};
ghost use Rattle.lb_generator.specs.Generator.{cpu_at, task_at, rows_from};
ghost use Rattle.lb_text.specs.Lines.{lines_text};
ghost use Rattle.lb_generator.specs.Text.{cpu_lines, task_lines, header_lines, row_line, text_drawn};

use crate::draws::Draws;
use crate::lines::{put_cpu, put_row, put_task};
use crate::rows::{CPUS, TASKS, all_cpus, lower_cpus};
use lb_base::NoMemory;
use lb_levels::CpuRow;
use lb_trace::{MAX_ROWS, TaskRow};
use std::alloc::Global;

// A CPU of the machine.
fn cpu_at(i: u32) -> CpuRow
    ensures { result ≡ cpu_at i }
{
    CpuRow {
        core: i / 2,
        cache: i / 4,
        node: i / 8,
    }
}

// A task.
fn task_at(i: u32) -> TaskRow
    ensures { result ≡ task_at i }
{
    let nice = (i % 7) as i32 - 3;
    let mask = if i % 10 == 9 {
        lower_cpus()
    } else {
        all_cpus()
    };
    TaskRow {
        nice,
        home: i % CPUS,
        mask,
    }
}

// The lines of the CPUs.
fn put_cpus(to: &mut Vec<u8>) -> Result<(), NoMemory>
    ensures { OnOk result (to.new.items ≡ to.old.items ++ lines_text (cpu_lines CPUS)) }
{
    for i in 0..CPUS {
        put_cpu(i, cpu_at(i), to)?;
    }
    Ok(())
}

// The lines of the tasks.
fn put_tasks(to: &mut Vec<u8>) -> Result<(), NoMemory>
    ensures { OnOk result (to.new.items ≡ to.old.items ++ lines_text (task_lines TASKS)) }
{
    for i in 0..TASKS {
        put_task(i, task_at(i), to)?;
    }
    Ok(())
}

// The lines of the header.
fn put_header(to: &mut Vec<u8>) -> Result<(), NoMemory>
    ensures { OnOk result (to.new.items ≡ to.old.items ++ lines_text header_lines) }
{
    to.extend_from_slice(b"lbtrace,1\n")?;
    put_cpus(to)?;
    to.extend_from_slice(b"dist,10,20\ndist,20,10\nlanes,4\n")?;
    put_tasks(to)
}

// The lines of the rows.
fn put_rows(alloc: Global, number: u32, rows: u32, to: &mut Vec<u8>) -> Result<(), NoMemory>
    ensures { OnOk result (to.new.items ≡ to.old.items ++ lines_text (map row_line (rows_from rows 0 number))) }
{
    let mut draws = Draws {
        state: u64::from(number),
    };
    for i in 0..rows {
        let row = draws.row(alloc, i)?;
        put_row(&row, to)?;
    }
    Ok(())
}

/// The text of a trace that is drawn from `number`: 16 CPUs, two nodes, four lanes, 200 tasks, and
/// `rows` rows, at most 100,000 (docs/rules/generator.md). The same number and the same rows give the
/// same text.
#[tactic(auto, unfolding(crate::specs::Text::text_drawn))]
pub fn generate(alloc: Global, number: u32, rows: u32) -> Result<Vec<u8>, NoMemory>
    requires { rows ≤ MAX_ROWS }
    ensures { IfOk result (λ text. text.items ≡ text_drawn number rows) }
{
    let mut text = Vec::new(alloc);
    put_header(&mut text)?;
    put_rows(alloc, number, rows, &mut text)?;
    Ok(text)
}
