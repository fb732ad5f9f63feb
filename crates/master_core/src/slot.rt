// What stands at one place of the server.
ghost use Rattle.std.specs.Prelude.{◌≡◌, position, map};
ghost use Rattle.std.specs.List.{list_all};
ghost use Rattle.master_core.specs.Slots.{is_vacant, is_serving, is_draining, is_below, told};

/// One slot of the server, as its master has it. A phase is the number of a generation of the
/// application: 0 is the first, and each phased order that is taken makes the next.
#[derive(Clone, Copy, Debug, PartialEq, Eq)]
pub enum Slot {
    /// Nobody is there.
    Vacant,
    /// It takes connections, in this phase.
    Serving(u32),
    /// It was told to drain: it ends the connections that it has, in this phase, and takes no others.
    Draining(u32),
}

// The lowest slot that is vacant.
pub(crate) fn first_vacant(slots: &[Slot]) -> Option<usize>
    ensures { result ≡ position is_vacant slots.now }
{
    slots.iter().position(|slot| matches!(slot, Slot::Vacant))
}

// The lowest slot that serves.
pub(crate) fn first_serving(slots: &[Slot]) -> Option<usize>
    ensures { result ≡ position is_serving slots.now }
{
    slots
        .iter()
        .position(|slot| matches!(slot, Slot::Serving(_)))
}

// The lowest slot that drains.
pub(crate) fn first_draining(slots: &[Slot]) -> Option<usize>
    ensures { result ≡ position is_draining slots.now }
{
    slots
        .iter()
        .position(|slot| matches!(slot, Slot::Draining(_)))
}

// The lowest slot whose phase is lower than this one. A vacant slot has none.
pub(crate) fn first_below(slots: &[Slot], phase: u32) -> Option<usize>
    ensures { result ≡ position (is_below phase) slots.now }
{
    slots.iter().position(|slot| match slot {
        Slot::Vacant => false,
        Slot::Serving(own) => *own < phase,
        Slot::Draining(own) => *own < phase,
    })
}

// Whether all slots are vacant.
pub(crate) fn all_vacant(slots: &[Slot]) -> bool
    ensures { result ≡ list_all is_vacant slots.now }
{
    slots.iter().all(|slot| matches!(slot, Slot::Vacant))
}

// Tells each slot that serves to drain.
pub(crate) fn tell_all(slots: &mut [Slot])
    ensures { slots.new ≡ map told slots.old }
{
    for i in 0..slots.len() {
        slots[i] = told(slots[i]);
    }
}

// What a slot is once it was told to drain.
fn told(slot: Slot) -> Slot
    ensures { result ≡ told slot }
{
    match slot {
        Slot::Vacant => Slot::Vacant,
        Slot::Serving(phase) => Slot::Draining(phase),
        Slot::Draining(phase) => Slot::Draining(phase),
    }
}
