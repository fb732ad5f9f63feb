// The statistics.
ghost use Rattle.std.specs.Prelude.{◌≡◌, ◌++◌, IfOk, OnOk, codes, count_by, length};
ghost use Rattle.master_core.specs.Slots.{is_serving, is_below};
ghost use Rattle.control_http.specs.Field.{field, truth};
ghost use Rattle.control_http.specs.Stats as spec;
ghost use Rattle.control_http.specs.Stats.{comma_before, last_status, phase_or_0, entry, entries};

use crate::SlotSeen;
use crate::field::{put_number, put_text};
use master_core::{Master, Slot};
use rack_types::NoMemory;
use std::alloc::Global;

// The statistics of a master, by what was seen of its slots.
#[tactic(auto, unfolding(crate::specs::Stats::stats))]
pub(crate) fn stats(alloc: Global, master: &Master, seen: &[SlotSeen]) -> Result<Vec<u8>, NoMemory>
    requires { length seen.now ≡ length master.now.slots }
    ensures { IfOk result (λ json. json.items ≡ spec.stats master.now seen.now) }
{
    let slots = master.slots();
    let target = master.target();
    let mut json = Vec::with_capacity(alloc, 128)?;
    put_number(&mut json, b"{\"booted_workers\":", serving(slots) as u64)?;
    put_number(&mut json, b",\"old_workers\":", below(slots, target) as u64)?;
    put_number(&mut json, b",\"phase\":", target as u64)?;
    put_entries(&mut json, slots, seen)?;
    put_number(&mut json, b"],\"workers\":", slots.len() as u64)?;
    json.extend_from_slice(b"}")?;
    Ok(json)
}

// How many slots serve.
fn serving(slots: &[Slot]) -> usize
    ensures { result ≡ count_by is_serving slots.now }
{
    slots
        .iter()
        .filter(|slot| matches!(slot, Slot::Serving(_)))
        .count()
}

// How many slots that aren't vacant have a phase below this one.
fn below(slots: &[Slot], phase: u32) -> usize
    ensures { result ≡ count_by (is_below phase) slots.now }
{
    slots
        .iter()
        .filter(|slot| match slot {
            Slot::Vacant => false,
            Slot::Serving(own) => *own < phase,
            Slot::Draining(own) => *own < phase,
        })
        .count()
}

// Appends the entries of all slots.
fn put_entries(json: &mut Vec<u8>, slots: &[Slot], seen: &[SlotSeen]) -> Result<(), NoMemory>
    requires { length seen.now ≡ length slots.now }
    ensures { OnOk result (json.new.items ≡ json.old.items ++ field (codes ",\"worker_status\":[") (entries 0 slots.now seen.now)) }
{
    json.extend_from_slice(b",\"worker_status\":[")?;
    for (i, slot) in slots.iter().enumerate() {
        json.extend_from_slice(comma_before(i))?;
        put_entry(json, i, *slot, &seen[i])?;
    }
    Ok(())
}

// What stands before the entry of a slot.
fn comma_before(i: usize) -> &'static [u8]
    ensures { result.now ≡ comma_before i }
{
    if i == 0 { b"" } else { b"," }
}

// Appends the entry of a slot.
#[tactic(auto, unfolding(crate::specs::Stats::entry))]
fn put_entry(json: &mut Vec<u8>, i: usize, slot: Slot, seen: &SlotSeen) -> Result<(), NoMemory>
    ensures { OnOk result (json.new.items ≡ json.old.items ++ entry i slot seen.now) }
{
    put_text(
        json,
        b"{\"booted\":",
        truth(matches!(slot, Slot::Serving(_))),
    )?;
    put_number(json, b",\"index\":", i as u64)?;
    put_seen(json, seen)?;
    put_number(json, b",\"phase\":", phase(slot) as u64)?;
    json.extend_from_slice(b"}")
}

// A truth, as JSON spells it.
fn truth(is_true: bool) -> &'static [u8]
    ensures { result.now ≡ truth is_true }
{
    if is_true { b"true" } else { b"false" }
}

// The phase of a slot, 0 of a vacant one.
fn phase(slot: Slot) -> u32
    ensures { result ≡ phase_or_0 slot }
{
    match slot {
        Slot::Vacant => 0,
        Slot::Serving(phase) => phase,
        Slot::Draining(phase) => phase,
    }
}

// Appends what was seen of a slot.
#[tactic(auto, unfolding(crate::specs::Field::field))]
fn put_seen(json: &mut Vec<u8>, seen: &SlotSeen) -> Result<(), NoMemory>
    ensures { OnOk result (json.new.items ≡ json.old.items ++ field (codes ",\"last_status\":") (last_status seen.now)) }
{
    json.extend_from_slice(b",\"last_status\":")?;
    put_numbers(json, seen)
}

// Appends the numbers of a slot.
#[tactic(auto, unfolding(crate::specs::Stats::last_status))]
fn put_numbers(json: &mut Vec<u8>, seen: &SlotSeen) -> Result<(), NoMemory>
    ensures { OnOk result (json.new.items ≡ json.old.items ++ last_status seen.now) }
{
    put_number(json, b"{\"backlog\":", seen.backlog as u64)?;
    put_number(json, b",\"max_threads\":", seen.max_threads as u64)?;
    put_number(json, b",\"pool_capacity\":", seen.pool_capacity as u64)?;
    put_number(json, b",\"requests_count\":", seen.requests)?;
    put_number(json, b",\"running\":", seen.running as u64)?;
    json.extend_from_slice(b"}")?;
    Ok(())
}
