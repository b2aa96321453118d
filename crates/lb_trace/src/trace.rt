//! A trace: its header, its rows, and how large it may be (docs/rules/trace.md).
ghost use Rattle.std.specs.Prelude.{◌≡◌};
ghost use Rattle.lb_trace.specs.declared.trace.TraceError.TheVariants.{NoMemory as no_memory};

use lb_base::{Items, MAX_CPUS, Mask, NoMemory};
use lb_levels::CpuRow;
use std::fmt;

/// The length of the longest text that is read, in bytes: 32 MiB.
pub const MAX_BYTES: u64 = 33_554_432;

/// The greatest number of a core or a cache.
pub const MAX_CORE: u64 = (MAX_CPUS - 1) as u64;

/// The most nodes of a machine. Nodes are numbered below this.
pub const MAX_NODES: u64 = 16;

/// The greatest distance between nodes.
pub const MAX_DISTANCE: u64 = 255;

/// The most lanes of a trace. Lanes are numbered below this.
pub const MAX_LANES: u64 = 16;

/// The most tasks of a trace. Tasks are numbered below this.
pub const MAX_TASKS: u64 = 4_096;

/// The most rows of a trace.
pub const MAX_ROWS: u64 = 100_000;

/// The greatest id, and the greatest number of a lane, a task or a CPU, that a line can spell. Whether
/// it names what is declared is another question.
pub const MAX_ID: u64 = u64::MAX;

/// The last moment, in nanoseconds.
pub const MAX_MOMENT: u64 = 1_000_000_000_000_000;

/// Masks of CPUs, in their order.
pub type Masks = Items<Mask>;

/// The rows of the CPUs, from CPU 0.
pub type CpuRows = Items<CpuRow>;

/// The distances of the nodes: a row for each node, from node 0, with an entry for each node.
pub type Distances = Items<Items<u32>>;

/// The rows of the tasks, from task 0.
pub type TaskRows = Items<TaskRow>;

/// Rows in file order.
pub type Rows = Items<Row>;

/// What a row asks for (docs/rules/trace.md).
#[derive(Debug, Drop)]
pub enum Command {
    /// The task wakes.
    Wake {
        /// The task.
        task: u32,
    },
    /// The task goes to sleep.
    Sleep {
        /// The task.
        task: u32,
    },
    /// The task ends for good.
    Exit {
        /// The task.
        task: u32,
    },
    /// The task gets another affinity mask.
    SetMask {
        /// The task.
        task: u32,
        /// The CPUs where it may run from then on. It may be empty, or have CPUs past the machine.
        mask: Mask,
    },
    /// The task gets another nice value.
    Nice {
        /// The task.
        task: u32,
        /// The nice value, -20 to 19.
        nice: i32,
    },
    /// The scheduler's tick of a CPU.
    Tick {
        /// The CPU.
        cpu: u32,
    },
    /// The domains are built anew, over another partition.
    Rebuild {
        /// The partition masks, at least one: disjoint masks of CPUs of the machine.
        parts: Masks,
    },
}

/// One row of a trace: what its lane is to do, and when.
#[derive(Debug, Drop)]
pub struct Row {
    /// The lane that serves the row, 0 to 15.
    pub lane: u32,
    /// The moment, in nanoseconds, at most `MAX_MOMENT`.
    pub at: u64,
    /// What is asked for.
    pub command: Command,
}

/// One task of a trace.
#[derive(Clone, Copy, Debug, PartialEq, Eq)]
pub struct TaskRow {
    /// Its nice value, -20 to 19.
    pub nice: i32,
    /// The CPU at whose queue it begins, asleep.
    pub home: u32,
    /// The CPUs where it may run, at least one.
    pub mask: Mask,
}

/// What a trace says of the machine, before its rows.
#[derive(Debug, Drop)]
pub struct Header {
    /// The CPUs, 1 to 64.
    pub cpus: CpuRows,
    /// The distances of the nodes, 1 to 255.
    pub distances: Distances,
    /// The partition masks, at least one.
    pub parts: Masks,
    /// The number of lanes, 1 to 16.
    pub lanes: u32,
    /// The tasks, at most `MAX_TASKS`.
    pub tasks: TaskRows,
}

/// A trace (docs/rules/trace.md).
#[derive(Debug, Drop)]
pub struct Trace {
    /// The machine and its tasks.
    pub header: Header,
    /// What happens, in file order: at most `MAX_ROWS` rows.
    pub rows: Rows,
}

/// Why a line is refused (docs/rules/trace.md has the whole table).
#[derive(Clone, Copy, Debug, PartialEq, Eq)]
pub enum Code {
    /// The text is longer than the limit.
    TooLong,
    /// A byte that no line may have.
    Byte,
    /// The last line has no line feed.
    Cut,
    /// The first line is not the version, or there is none.
    Header,
    /// The first field names no kind of line.
    Kind,
    /// A line of this kind cannot stand here, or the text ends too early.
    Order,
    /// One row more than `MAX_ROWS`.
    Many,
    /// The number of fields is wrong.
    Fields,
    /// A number is misspelt or out of range.
    Number,
    /// A list of CPUs is misspelt.
    List,
    /// An id is not the next, or a field names what is not declared.
    Id,
    /// The CPU shares a core or a cache with an earlier one, and not what lies above it.
    Cpu,
    /// The distances cannot stand below those before them.
    Dist,
    /// The nodes are not nested.
    Nested,
    /// A partition mask has an undeclared CPU.
    NoCpu,
    /// Two partition masks share a CPU.
    Overlap,
    /// A task's mask is empty or has an undeclared CPU.
    Mask,
    /// The CPU was ticked earlier by another lane.
    Ticks,
    /// The line is none of a history at its place.
    BadLine,
}

impl Code {
    ghost use Rattle.lb_trace.specs.Codes.{code_word};

    /// The word that is printed for it.
    pub fn word(self) -> &'static str
        ensures { result.now ≡ code_word self }
    {
        match self {
            Code::TooLong => "too-long",
            Code::Byte => "byte",
            Code::Cut => "cut",
            Code::Header => "header",
            Code::Kind => "kind",
            Code::Order => "order",
            Code::Many => "many",
            Code::Fields => "fields",
            Code::Number => "number",
            Code::List => "list",
            Code::Id => "id",
            Code::Cpu => "cpu",
            Code::Dist => "dist",
            Code::Nested => "nested",
            Code::NoCpu => "nocpu",
            Code::Overlap => "overlap",
            Code::Mask => "mask",
            Code::Ticks => "ticks",
            Code::BadLine => "bad-line",
        }
    }
}

impl fmt::Display for Code {
    ghost use Rattle.std.specs.Prelude.{Some};
    ghost use Rattle.lb_trace.specs.Codes.{code_word};

    ghost output = { λ code. Some (code_word code) };

    fn fmt<W: fmt::Write>(&self, f: &mut fmt::Formatter<W>) -> fmt::Result {
        f.write_str(self.word())
    }
}

/// Why a text gave no trace.
#[derive(Clone, Copy, Debug, PartialEq, Eq)]
pub enum TraceError {
    /// The text is refused at its first bad line, by the first code that holds of it.
    Refused {
        /// The line, from 1; 0 for the text as a whole.
        line: u64,
        /// What is wrong with it.
        code: Code,
    },
    /// Memory ran out.
    NoMemory,
}

impl From<NoMemory> for TraceError {
    ghost from_gives = { λ _ made. made ≡ no_memory };

    fn from(_: NoMemory) -> Self {
        TraceError::NoMemory
    }
}
