// The machine that replaces the slots one by one, and ends them.
ghost use Rattle.std.specs.Prelude.{◌≡◌, ◌<◌, ◌≤◌, true, length, slice_get, Some, IfOk};

use crate::order::Ending;
use crate::slot::{all_vacant, first_below, first_draining, first_serving, first_vacant, tell_all};
use crate::{Act, Load, NoMemory, Order, Reply, Slot};
use std::alloc::Global;
use std::marker::Model;

/// The master of 1 to 16 slots. It takes orders, and says step by step which slot is drained,
/// started or done.
///
/// A contract sees its slots, the phase to which they are to come, and what is pending.
#[derive(Debug, Drop)]
pub struct Master {
    slots: Vec<Slot>,
    target: u32,
    phased: bool,
    ending: Ending,
}

impl Model for Master {
    ghost use Rattle.std.specs.Prelude.{◌<◌, ◌≤◌, vec_len, IsTrue};
    ghost use Rattle.master_core.specs.State.{MasterState};

    ghost Value = { MasterState };

    ghost view = { λ m. record { slots = m.slots.items; target = m.target; phased = m.phased; ending = m.ending } };

    ghost invariant = { λ m. (vec_len m.slots ≤ 16) × (IsTrue m.phased → 0 < m.target) };
}

impl Master {
    ghost use Rattle.master_core.specs.Slots.{is_vacant};
    ghost use Rattle.master_core.specs.State.{new_master, Lowest, IsServingAt};
    ghost use Rattle.master_core.specs.Orders.{TakesOrder, busy_with, phase_before};
    ghost use Rattle.master_core.specs.Steps.{MakesStep, Goes, Drains, started, MayBeGone};

    /// A master of so many slots, 1 to 16. Each serves phase 0, and nothing is ordered.
    ///
    /// It takes memory for its slots, and no later call of this type takes any.
    pub fn new(alloc: Global, slots: u8) -> Result<Master, NoMemory>
        requires some { 1 ≤ slots }
        requires few { slots ≤ 16 }
        ensures { IfOk result (λ m. m ≡ new_master slots) }
    {
        Ok(Master {
            slots: vec![in alloc; Slot::Serving(0); slots as usize]?,
            target: 0,
            phased: false,
            ending: Ending::NotOrdered,
        })
    }

    // A master whose slots serve this phase, as behind so many phased orders.
    #[cfg(test)]
    pub(crate) fn in_phase(alloc: Global, slots: u8, phase: u32) -> Result<Master, NoMemory>
        requires { slots ≤ 16 }
        ensures { IfOk result (λ m. length m.slots ≡ slots) }
    {
        Ok(Master {
            slots: vec![in alloc; Slot::Serving(phase); slots as usize]?,
            target: phase,
            phased: false,
            ending: Ending::NotOrdered,
        })
    }

    /// What `order` would answer to a phased order as busy, before anything is loaded for it: the phase
    /// before the pending phased order, and the target; without one the target twice. None where it
    /// would not answer so: nothing is pending, and the target is below 4,294,967,295.
    pub fn busy(&self) -> Option<(u32, u32)>
        ensures { result ≡ busy_with self.now }
    {
        let pending = self.phased || !matches!(self.ending, Ending::NotOrdered);
        if pending || self.target == u32::MAX {
            Some((self.phase_before(), self.target))
        } else {
            None
        }
    }

    /// Takes an order, or says why not.
    ///
    /// A phased order is answered `Busy` exactly where `busy` tells so; else `Refused` with what the
    /// load gave, exactly where that isn't `Read`; else the target rises by one and it is taken. Stop and
    /// halt are always taken, with the target as it is: halt goes before stop, and each before a phased
    /// order. An order that is not taken changes nothing. It takes no memory.
    pub fn order(&mut self, order: Order) -> Reply
        ensures { TakesOrder self.old order result self.new }
    {
        match order {
            Order::Phased(load) => self.order_phased(load),
            Order::Stop => {
                if matches!(self.ending, Ending::NotOrdered) {
                    self.ending = Ending::Stop;
                }
                Reply::Taken(self.target)
            }
            Order::Halt => {
                if !matches!(self.ending, Ending::Halted) {
                    self.ending = Ending::Halt;
                }
                Reply::Taken(self.target)
            }
        }
    }

    // Takes a phased order.
    fn order_phased(&mut self, load: Load) -> Reply
        ensures { TakesOrder self.old (Order.Phased load) result self.new }
    {
        if let Some((phase, target)) = self.busy() {
            return Reply::Busy { phase, target };
        }
        match load {
            Load::Read => {
                self.target += 1;
                self.phased = true;
                Reply::Taken(self.target)
            }
            refused => Reply::Refused(refused),
        }
    }

    /// Makes one step: the slot that is gone, which was draining, is vacant, and then
    ///
    /// - with nothing pending the act is `Rest`;
    /// - with a phased order a vacant slot starts in the phase of the target; where none is vacant and
    ///   none drains, the lowest slot of a lower phase drains; else `Rest`. It is done with the start
    ///   behind which no slot has a lower phase;
    /// - with stop the lowest slot that serves drains; where all are vacant it is `Finish`, else `Rest`;
    /// - with halt all slots that aren't vacant drain at the first step, `HaltAll`; at a later one it is
    ///   `Finish` where all are vacant, else `Rest`.
    ///
    /// It takes no memory.
    pub fn step(&mut self, gone: Option<u8>) -> Act
        requires { MayBeGone self.old gone }
        ensures { MakesStep self.old gone result self.new }
    {
        if let Some(i) = gone {
            self.slots[i as usize] = Slot::Vacant;
        }
        match self.ending {
            Ending::NotOrdered if self.phased => self.replace(),
            Ending::NotOrdered => Act::Rest,
            Ending::Stop => self.stop(),
            Ending::Halt => self.halt(),
            Ending::Halted => self.finish(),
        }
    }

    /// The phase to which the slots are to come: how many phased orders were taken.
    pub fn target(&self) -> u32
        ensures { result ≡ self.now.target }
    {
        self.target
    }

    /// Slot `i`, counted from 0. There are as many as `new` was given.
    pub fn slot(&self, i: u8) -> Slot
        requires { i < length self.now.slots }
        ensures { slice_get self.now.slots i ≡ Some result }
    {
        self.slots[i as usize]
    }

    /// All slots, the lowest first, lent.
    pub fn slots(&self) -> &[Slot]
        ensures { result.now ≡ self.now.slots }
    {
        &self.slots
    }

    // The phase before the phased order that isn't done, or the target.
    fn phase_before(&self) -> u32
        ensures { result ≡ phase_before self.now }
    {
        if self.phased {
            self.target - 1
        } else {
            self.target
        }
    }

    // What a step asks for while a phased order isn't done.
    fn replace(&mut self) -> Act
        requires phased { self.old.phased ≡ true }
        requires open { self.old.ending ≡ Ending.NotOrdered }
        ensures { Goes Ending.NotOrdered true result self.old self.new }
    {
        if let Some(i) = first_vacant(&self.slots) {
            return self.start(i);
        }
        if first_draining(&self.slots).is_some() {
            return Act::Rest;
        }
        match first_below(&self.slots, self.target) {
            Some(i) => self.drain(i),
            None => Act::Rest,
        }
    }

    // What a step asks for once stop was ordered.
    fn stop(&mut self) -> Act
        requires { self.old.ending ≡ Ending.Stop }
        ensures { Goes Ending.Stop self.old.phased result self.old self.new }
    {
        match first_serving(&self.slots) {
            Some(i) => self.drain(i),
            None => self.finish(),
        }
    }

    // What the first step asks for once halt was ordered.
    fn halt(&mut self) -> Act
        ensures { Goes Ending.Halt self.old.phased result self.old self.new }
    {
        tell_all(&mut self.slots);
        self.ending = Ending::Halted;
        Act::HaltAll
    }

    // Whether all slots are vacant, as was ordered.
    fn finish(&self) -> Act
        ensures { Goes Ending.Halted self.now.phased result self.now self.now }
    {
        if all_vacant(&self.slots) {
            Act::Finish
        } else {
            Act::Rest
        }
    }

    // Starts the slot, in the phase of the target. Behind the last of them the phased order is done.
    fn start(&mut self, i: usize) -> Act
        requires phased { self.old.phased ≡ true }
        requires vacant { Lowest is_vacant self.old i }
        ensures act { result ≡ Act.Start i self.old.target }
        ensures starts { self.new ≡ started self.old i }
    {
        self.slots[i] = Slot::Serving(self.target);
        self.phased = first_below(&self.slots, self.target).is_some();
        Act::Start(i as u8, self.target)
    }

    // Tells the slot, which serves, to drain.
    fn drain(&mut self, i: usize) -> Act
        requires { IsServingAt self.old i }
        ensures act { result ≡ Act.Drain i }
        ensures drains { Drains i self.old self.new }
    {
        if let Slot::Serving(phase) = self.slots[i] {
            self.slots[i] = Slot::Draining(phase);
        }
        Act::Drain(i as u8)
    }
}
