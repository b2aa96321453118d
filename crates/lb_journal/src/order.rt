//! The entries of a closed ticket book, in the order of their tickets.
ghost use Rattle.std.specs.Prelude.{ℕ, ◌≡◌, ◌<◌, ◌^◌, IfOk, IfSome, replicate, None, Some, length, map, slice_set, All};
ghost use Rattle.lb_ticket.specs.Tickets.{Closes};
ghost use Rattle.lb_journal.specs.Journal.{meaning_of_journal};
ghost use Rattle.lb_journal.specs.Merge.{entries, MayMerge};
ghost use Rattle.lb_ticket.specs.Seats.{Numbered};
ghost use Rattle.lb_trace.specs.declared.trace.Header.{Header};
ghost use Rattle.lb_trace.specs.declared.trace.Trace.{Trace};
ghost use Rattle.lb_trace.specs.Accepted.{IsHeader, IsTrace};
ghost use Rattle.lb_core.specs.OfTrace.{IsHistoryOf};
ghost use Rattle.lb_journal.specs.Owners.{KeptByOwners, lists_of};
ghost use Rattle.lb_core.specs.Legal.{IsLegalHistory};
ghost use Rattle.lb_journal.specs.Ordering.{placed, placed_lists, HaveSlots, somes, total_length};

use crate::journal::{Journal, Left};
use crate::laws::{merge_is_run, owners_merge};
use lb_base::NoMemory;
use lb_core::{Entries, Entry};
use lb_ticket::{Book, Coding, Drawn, Lists, Seat};
use std::alloc::Global;

// How many items there are, where that can be counted.
fn count(lists: &[Vec<Drawn<Journal>>]) -> Option<usize>
    ensures { IfSome result (λ n. n ≡ total_length (map (λ v. v.items) lists.now)) }
{
    let mut total = 0_usize;
    for list in lists {
        total = total.checked_add(list.len())?;
    }
    Some(total)
}

// An empty slot for each ticket.
fn empty_slots(alloc: Global, count: usize) -> Result<Vec<Option<Entry>>, NoMemory>
    ensures { IfOk result (λ slots. slots.items ≡ replicate count None) }
{
    let Ok(mut slots) = Vec::with_capacity(alloc, count) else {
        return Err(NoMemory);
    };
    for i in 0..count {
        slots.push_reserved(None);
    }
    Ok(slots)
}

// An entry goes into a slot.
fn put(slots: &mut [Option<Entry>], slot: usize, entry: Entry)
    requires { slot < length slots.old }
    ensures { slots.new ≡ slice_set slots.old slot (Some entry) }
{
    slots[slot] = Some(entry);
}

// The entry of each item of a list goes into its ticket's slot.
fn place(list: Vec<Drawn<Journal>>, slots: &mut [Option<Entry>])
    requires { HaveSlots (length slots.old) list.items }
    ensures { slots.new ≡ placed list.items slots.old }
{
    for drawn in list {
        let Drawn { ticket, item } = drawn;
        put(slots, (ticket - 1) as usize, item.into_entry());
    }
}

// The entry of each item of the lists goes into its ticket's slot.
fn place_all(lists: Vec<Vec<Drawn<Journal>>>, slots: &mut [Option<Entry>])
    requires { All (HaveSlots (length slots.old)) (map (λ v. v.items) lists.items) }
    ensures { slots.new ≡ placed_lists (map (λ v. v.items) lists.items) slots.old }
{
    for list in lists {
        place(list, slots);
    }
}

// What is in the slots.
fn taken_out(alloc: Global, slots: Vec<Option<Entry>>) -> Result<Entries, NoMemory>
    ensures { IfOk result (λ es. es ≡ somes slots.items) }
{
    let mut entries = Entries::new(alloc);
    for slot in slots {
        if let Some(entry) = slot {
            entries.push(entry)?;
        }
    }
    Ok(entries)
}

/// The entries of the lists of a closed book, in the order of their tickets.
pub fn in_order(alloc: Global, lists: Lists<Journal>) -> Result<Entries, NoMemory>
    requires closed { Closes meaning_of_journal lists }
    ensures { IfOk result (λ es. (book : Closes meaning_of_journal lists) → es ≡ entries book.log) }
{
    let Lists { of } = lists;
    let Some(count) = count(&of) else {
        return Err(NoMemory);
    };
    let mut slots = empty_slots(alloc, count)?;
    place_all(of, &mut slots);
    taken_out(alloc, slots)
}

/// Closes the book, and answers the entries that the seats drew, all of them, in the order of their tickets. They
/// are a legal history wherever the lists of the seats meet the premises of the merge, and one of the trace wherever
/// the owners kept what is asked of them.
pub fn close_in_order(
    alloc: Global,
    book: Book<Journal>,
    seats: Vec<Seat<Journal>>,
) -> Result<Entries, NoMemory>
    requires seats { Numbered book.table 0 seats.items × (length seats.items ≡ book.owners) }
    ensures entries { IfOk result (λ es. (closed : Closes meaning_of_journal (lists_of seats.items)) ×
        (es ≡ entries closed.log)) }
    ensures legal { IfOk result (λ es. (h : Header) → IsHeader h → MayMerge h (lists_of seats.items) →
        IsLegalHistory h es) }
    ensures history { IfOk result (λ es. (t : Trace) (cut : ℕ) → IsTrace t →
        KeptByOwners t ⟦<Journal as Coding>⟧.coding ⟦<Left as Coding>⟧.coding seats.items cut →
        IsHistoryOf t (record { header = t.header; entries = es })) }
{
    // the entries of lists that meet the premises are a legal history
    merge_is_run();
    // what the owners keep gives the premises
    owners_merge();
    let lists = book.close(seats);
    in_order(alloc, lists)
}
