//! What the words of these definitions mean, as laws: each function's contract is the law, and its
//! body is empty.
ghost use Rattle.std.specs.Prelude.{◌≡◌, ℕ, ◌<◌, ◌+◌, ◌≤◌, ◌↔◌, true, None, List, length};
ghost use Rattle.lb_base.specs.declared.mask.Mask.{Mask};
ghost use Rattle.lb_levels.specs.declared.cpu_row.CpuRow.{CpuRow};
ghost use Rattle.lb_levels.specs.declared.limits.TheConstants.{MAX_LEVELS};
ghost use Rattle.lb_levels.specs.Rows.{nodes_in_range};
ghost use Rattle.lb_levels.specs.Faults.{fault_of, parts_fault_of, IsMachine, CanBeRead, ArePartition};
ghost use Rattle.lb_levels.specs.Spans.{levels_of, SpansPartAndGrow};

/// Rows and a table have no fault exactly where each line can stand after those before it, the
/// table is square over the nodes, and the nodes are nested.
pub fn a_machine_has_no_fault()
    ensures { (cpus : List CpuRow) → (table : List (List ℕ)) → 0 < length cpus → (fault_of cpus table ≡ None) ↔ IsMachine cpus table }
{}

/// Masks have no fault exactly where each has CPUs of the machine alone and no two share one.
pub fn a_partition_has_no_fault()
    ensures { (cpus : ℕ) → (parts : List Mask) → (parts_fault_of cpus parts ≡ None) ↔ ArePartition cpus parts }
{}

/// A machine has at most two levels more than nodes, so at most `MAX_LEVELS`.
pub fn levels_are_few()
    ensures of_nodes { (cpus : List CpuRow) → (table : List (List ℕ)) → CanBeRead cpus table → length (levels_of table) ≤ length table + 2 }
    ensures most { (cpus : List CpuRow) → (table : List (List ℕ)) → CanBeRead cpus table → nodes_in_range cpus ≡ true
        → length (levels_of table) ≤ MAX_LEVELS }
{}

/// At each level the spans part the machine's CPUs: a CPU is in its own, and the CPUs of a span
/// have that span. From level to level the span of a CPU grows.
pub fn spans_part_and_grow()
    ensures { (cpus : List CpuRow) → (table : List (List ℕ)) → CanBeRead cpus table → SpansPartAndGrow cpus table }
{}
