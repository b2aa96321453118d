//! The queues of a machine before any entry.
ghost use Rattle.std.specs.Prelude.{◌≡◌, ◌<◌, length, map, IfOk};
ghost use Rattle.std.specs.List.{range_with_len};
ghost use Rattle.lb_trace.specs.Accepted.{IsHeader};
ghost use Rattle.lb_core.specs.Machine.{opening_queue};

use lb_base::NoMemory;
use lb_queue::Queue;
use lb_trace::Header;
use std::alloc::Global;

// The queue of a CPU before any entry: the tasks that are at home there sleep.
fn opening_queue(alloc: Global, header: &Header, cpu: u32) -> Result<Queue, NoMemory>
    requires cpu { cpu < length header.now.cpus }
    requires header { IsHeader header.now }
    ensures { IfOk result (λ q. q ≡ record { state = opening_queue header.now cpu; booked = 0 }) }
{
    let mut queue = Queue::new(alloc, cpu, header.cpus.len() as u32)?;
    for (id, task) in header.tasks.as_slice().iter().enumerate() {
        if task.home == cpu {
            queue.declare(id as u32, task.nice, task.mask)?;
        }
    }
    Ok(queue)
}

/// The queues of all CPUs before any entry, in their order: the tasks that are at home at each sleep there.
pub fn opening_queues(alloc: Global, header: &Header) -> Result<Vec<Queue>, NoMemory>
    requires { IsHeader header.now }
    ensures { IfOk result (λ list. list.items
        ≡ map (λ cpu. record { state = opening_queue header.now cpu; booked = 0 }) (range_with_len 0 (length header.now.cpus))) }
{
    let mut queues = Vec::with_capacity(alloc, header.cpus.len())?;
    for cpu in 0..header.cpus.len() as u32 {
        let queue = opening_queue(alloc, header, cpu)?;
        queues.push_reserved(queue);
    }
    Ok(queues)
}
