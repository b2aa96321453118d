//! The course of a lane before any entry.
ghost use Rattle.std.specs.Prelude.{◌≡◌, replicate, IfOk};
ghost use Rattle.lb_core.specs.Course.{opening_course};

use lb_base::{Items, Mask, NoMemory};
use lb_core::{Course, Form, Numbers};
use std::alloc::Global;

/// The course of a lane that has drawn nothing, on a machine of so many CPUs.
pub fn opening_course(alloc: Global, cpus: usize) -> Result<Course, NoMemory>
    ensures { IfOk result (λ c. c ≡ opening_course cpus) }
{
    let named = zeros(alloc, cpus)?;
    Ok(Course {
        form: Form::Rest,
        rows: 0,
        at: 0,
        command: None,
        cause: None,
        to: 0,
        moment: 0,
        hand: Items::new(alloc),
        version: 0,
        masks: Items::new(alloc),
        cpu: 0,
        kind: None,
        positions: Mask::none(),
        position: 0,
        counters: Items::new(alloc),
        excluded: Mask::none(),
        decision: None,
        idle: false,
        took: 0,
        taken: None,
        awake: 0,
        pushed: false,
        figures: Items::new(alloc),
        named_version: 0,
        named,
    })
}

// So many zeros.
fn zeros(alloc: Global, count: usize) -> Result<Numbers, NoMemory>
    ensures { IfOk result (λ list. list ≡ replicate count 0) }
{
    let mut numbers = Items::new(alloc);
    for _ in 0..count {
        numbers.push(0)?;
    }
    Ok(numbers)
}
