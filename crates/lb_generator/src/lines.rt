//! The lines of a drawn trace.
ghost use Rattle.std.specs.Prelude.{◌≡◌, ◌∷◌, ◌++◌, [], OnOk, map, codes, decimal};
ghost use Rattle.std.specs.Fmt.{signed_decimal};
ghost use Rattle.lb_text.specs.Runs.{list_text};
ghost use Rattle.lb_text.specs.Lines.{marked};
ghost use Rattle.lb_generator.specs.Text.{cpu_line, distances_line, lanes_line, task_line, row_word, row_fields, row_line};

use itoa::Buffer;
use lb_base::{Mask, NoMemory};
use lb_levels::CpuRow;
use lb_text::{COMMA, LINE_FEED, put_list, put_number};
use lb_trace::{Command, Row, TaskRow};

// A number behind a comma.
fn put_field(number: u64, to: &mut Vec<u8>) -> Result<(), NoMemory>
    ensures { OnOk result (to.new.items ≡ to.old.items ++ COMMA ∷ decimal number) }
{
    to.extend_from_slice(&[COMMA])?;
    put_number(number, to)
}

// A nice value behind a comma.
fn put_nice(nice: i32, to: &mut Vec<u8>) -> Result<(), NoMemory>
    ensures { OnOk result (to.new.items ≡ to.old.items ++ COMMA ∷ signed_decimal nice) }
{
    let mut digits = Buffer::new();
    to.extend_from_slice(&[COMMA])?;
    to.extend_from_slice(digits.format(nice).as_bytes())?;
    Ok(())
}

// The CPUs of a mask behind a comma.
fn put_cpus(mask: Mask, to: &mut Vec<u8>) -> Result<(), NoMemory>
    ensures { OnOk result (to.new.items ≡ to.old.items ++ COMMA ∷ list_text mask) }
{
    to.extend_from_slice(&[COMMA])?;
    put_list(mask, to)
}

/// Appends the line of a CPU.
pub(crate) fn put_cpu(id: u32, cpu: CpuRow, to: &mut Vec<u8>) -> Result<(), NoMemory>
    ensures { OnOk result (to.new.items ≡ to.old.items ++ (cpu_line id cpu ++ LINE_FEED ∷ [])) }
{
    to.extend_from_slice(b"cpu")?;
    put_field(u64::from(id), to)?;
    put_field(u64::from(cpu.core), to)?;
    put_field(u64::from(cpu.cache), to)?;
    put_field(u64::from(cpu.node), to)?;
    to.extend_from_slice(&[LINE_FEED])?;
    Ok(())
}

/// Appends the line of a task.
pub(crate) fn put_task(id: u32, task: TaskRow, to: &mut Vec<u8>) -> Result<(), NoMemory>
    ensures { OnOk result (to.new.items ≡ to.old.items ++ (task_line id task ++ LINE_FEED ∷ [])) }
{
    to.extend_from_slice(b"task")?;
    put_field(u64::from(id), to)?;
    put_nice(task.nice, to)?;
    put_field(u64::from(task.home), to)?;
    put_cpus(task.mask, to)?;
    to.extend_from_slice(&[LINE_FEED])?;
    Ok(())
}

// The CPUs of masks, each behind a comma.
fn put_masks(parts: &[Mask], to: &mut Vec<u8>) -> Result<(), NoMemory>
    ensures { OnOk result (to.new.items ≡ to.old.items ++ marked COMMA (map list_text parts.now)) }
{
    for part in parts {
        put_cpus(*part, to)?;
    }
    Ok(())
}

// The word of a row.
fn row_word(command: &Command) -> &'static str
    ensures { result.now ≡ row_word command.now }
{
    match command {
        Command::Wake { .. } => "wake",
        Command::Sleep { .. } => "sleep",
        Command::Exit { .. } => "exit",
        Command::SetMask { .. } => "mask",
        Command::Nice { .. } => "nice",
        Command::Tick { .. } => "tick",
        Command::Rebuild { .. } => "rebuild",
    }
}

// What stands behind a row's moment.
fn put_row_fields(command: &Command, to: &mut Vec<u8>) -> Result<(), NoMemory>
    ensures { OnOk result (to.new.items ≡ to.old.items ++ marked COMMA (row_fields command.now)) }
{
    match command {
        Command::Wake { task } | Command::Sleep { task } | Command::Exit { task } => {
            put_field(u64::from(*task), to)
        }
        Command::SetMask { task, mask } => {
            put_field(u64::from(*task), to)?;
            put_cpus(*mask, to)
        }
        Command::Nice { task, nice } => {
            put_field(u64::from(*task), to)?;
            put_nice(*nice, to)
        }
        Command::Tick { cpu } => put_field(u64::from(*cpu), to),
        Command::Rebuild { parts } => put_masks(parts.as_slice(), to),
    }
}

/// Appends the line of a row.
#[tactic(auto, unfolding(crate::specs::Text::row_line))]
pub(crate) fn put_row(row: &Row, to: &mut Vec<u8>) -> Result<(), NoMemory>
    ensures { OnOk result (to.new.items ≡ to.old.items ++ (row_line row.now ++ LINE_FEED ∷ [])) }
{
    to.extend_from_slice(row_word(&row.command).as_bytes())?;
    put_field(u64::from(row.lane), to)?;
    put_field(row.at, to)?;
    put_row_fields(&row.command, to)?;
    to.extend_from_slice(&[LINE_FEED])?;
    Ok(())
}
