// Laws over the definitions. A function without a result does nothing: its contract is the law.
ghost use Rattle.std.specs.Prelude.{◌≡◌, ℕ, ◌+◌, ◌*◌, ◌<◌, ◌≤◌, true, Option, Some, length, position, replicate, slice_get};
ghost use Rattle.master_core.specs.Slots.{is_vacant, is_draining};
ghost use Rattle.master_core.specs.State.{MasterState, EachSlot};
ghost use Rattle.master_core.specs.Orders.{TakesOrder, is_ended};
ghost use Rattle.master_core.specs.Steps.{MakesStep, MayBeGone};
ghost use Rattle.master_core.specs.Runs.{LeadsTo, IsReachable, phase_at, away, StepsBy};
ghost use Rattle.master_core.specs.declared.loader.Load.TheVariants.{Read};
ghost use Rattle.master_core.specs.declared.order.Ending.TheVariants.{NotOrdered};
ghost use Rattle.master_core.specs.declared.order.Order.{Order};
ghost use Rattle.master_core.specs.declared.order.Order.TheVariants.{Phased, Stop, Halt};
ghost use Rattle.master_core.specs.declared.order.Reply.{Reply};
ghost use Rattle.master_core.specs.declared.order.Reply.TheVariants.{Taken};
ghost use Rattle.master_core.specs.declared.order.Act.{Act};
ghost use Rattle.master_core.specs.declared.order.Act.TheVariants.{Start, HaltAll, Finish};
ghost use Rattle.master_core.specs.declared.slot.Slot.TheVariants.{Serving, Draining};

/// To each order there is an answer, and one alone, with one state of the master behind it.
pub fn one_order_is_right()
    ensures total { (m : MasterState) (o : Order) → (r : Reply) × (n : MasterState) × TakesOrder m o r n }
    ensures one { (m n k : MasterState) (o : Order) (r s : Reply) → TakesOrder m o r n → TakesOrder m o s k → (r ≡ s) × (n ≡ k) }
{}

/// A step, whichever slot is gone, asks for an act, and for one alone, with one state of the master
/// behind it.
pub fn one_step_is_right()
    ensures total { (m : MasterState) (gone : Option ℕ) → (a : Act) × (n : MasterState) × MakesStep m gone a n }
    ensures one { (m n k : MasterState) (gone : Option ℕ) (a b : Act) → MakesStep m gone a n → MakesStep m gone b k → (a ≡ b) × (n ≡ k) }
{}

/// While neither stop nor halt is ordered, at most one slot doesn't serve, whatever orders and steps
/// came before.
pub fn at_most_one_slot_is_away()
    ensures { (m : MasterState) → IsReachable m → m.ending ≡ NotOrdered → away m ≤ 1 }
{}

/// While neither stop nor halt is ordered, the phase of each slot is the target or the one before it, and
/// a slot that drains is of the one before.
pub fn phases_are_one_apart()
    ensures near { (m : MasterState) (i p : ℕ) → IsReachable m → m.ending ≡ NotOrdered → phase_at m i ≡ Some p → (p ≤ m.target) × (m.target ≤ p + 1) }
    ensures draining { (m : MasterState) (i p : ℕ) → IsReachable m → m.ending ≡ NotOrdered → slice_get m.slots i ≡ Some (Draining p) → m.target ≡ p + 1 }
{}

/// A phased order that is taken comes to its end. Where each slot that drains is gone by the next step,
/// which it may be, it is pending for exactly two steps a slot; then each slot serves the new phase,
/// and all else is as before the order.
pub fn phased_order_ends()
    ensures may { (m : MasterState) → MayBeGone m (position is_draining m.slots) }
    ensures goes { (m : MasterState) (count : ℕ) → (n : MasterState) × StepsBy count m n }
    ensures pending { (m n k : MasterState) (target count : ℕ) → IsReachable m → TakesOrder m (Phased Read) (Taken target) n → StepsBy count n k → count < 2 * length m.slots → k.phased ≡ true }
    ensures done { (m n k : MasterState) (target : ℕ) → IsReachable m → TakesOrder m (Phased Read) (Taken target) n → StepsBy (2 * length m.slots) n k → k ≡ record m { slots = replicate (length m.slots) (Serving target); target = target } }
{}

/// The phase of a slot never falls, whatever orders and steps lie between.
pub fn phase_never_falls()
    ensures { (m n : MasterState) (i p q : ℕ) → IsReachable m → LeadsTo m n → phase_at m i ≡ Some p → phase_at n i ≡ Some q → p ≤ q }
{}

/// `Finish` comes only where all slots are vacant, and stop or halt was ordered.
pub fn finish_comes_behind_all_slots()
    ensures vacant { (m n : MasterState) (gone : Option ℕ) → MakesStep m gone Finish n → EachSlot is_vacant n }
    ensures ordered { (m n : MasterState) (gone : Option ℕ) → MakesStep m gone Finish n → is_ended m.ending ≡ true }
{}

/// Once stop or halt was ordered no slot is started any more, whatever orders and steps lie between.
pub fn no_slot_starts_behind_an_end()
    ensures halt { (m n k l : MasterState) (r : Reply) (gone : Option ℕ) (i phase : ℕ) → TakesOrder m Halt r n → LeadsTo n k → ¬ (MakesStep k gone (Start i phase) l) }
    ensures stop { (m n k l : MasterState) (r : Reply) (gone : Option ℕ) (i phase : ℕ) → TakesOrder m Stop r n → LeadsTo n k → ¬ (MakesStep k gone (Start i phase) l) }
{}

/// A halt is carried out once: behind `HaltAll` there is no second one, whatever orders and steps lie
/// between.
pub fn halt_is_carried_out_once()
    ensures { (m n k l : MasterState) (gone later : Option ℕ) → MakesStep m gone HaltAll n → LeadsTo n k → ¬ (MakesStep k later HaltAll l) }
{}
