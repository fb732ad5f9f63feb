// Runs of orders and steps, worked from the tables by hand.
ghost use Rattle.std.specs.Prelude.{◌≡◌, length};

use crate::Act::{Drain, Finish, HaltAll, Rest, Start};
use crate::Order::{Halt, Phased, Stop};
use crate::Reply::{Busy, Refused, Taken};
use crate::{Act, Load, Loader, Master, NoMemory, Order, Reply, Slot};
use std::test::Fail;

// What is done, and what is told of it: an order, a step with no slot gone, or one with this slot gone.
#[derive(Clone, Copy)]
enum Row {
    Ordered(Order, Reply),
    Stepped(Act),
    Gone(u8, Act),
}

use Row::{Gone, Ordered, Stepped};

// Whether the master tells this. A slot can be gone only where it is draining.
fn tells(master: &mut Master, slots: u8, row: Row) -> bool
    requires { length master.old.slots ≡ slots }
    ensures { length master.new.slots ≡ slots }
{
    match row {
        Ordered(order, reply) => master.order(order) == reply,
        Stepped(act) => master.step(None) == act,
        Gone(i, act) => {
            if i < slots
                && let Slot::Draining(_) = master.slot(i)
            {
                master.step(Some(i)) == act
            } else {
                false
            }
        }
    }
}

// The first place of the run at which the master says something else.
fn differs(mut master: Master, slots: u8, run: &[Row]) -> Option<usize>
    requires { length master.slots ≡ slots }
{
    for (i, row) in run.iter().enumerate() {
        if !tells(&mut master, slots, *row) {
            return Some(i);
        }
    }
    None
}

const BAD: Load = Load::Bad { line: 3, rule: 10 };

const REPLACED_AND_STOPPED: [Row; 19] = [
    Stepped(Rest),
    Ordered(Phased(Load::Read), Taken(1)),
    Ordered(
        Phased(Load::Read),
        Busy {
            phase: 0,
            target: 1,
        },
    ),
    Stepped(Drain(0)),
    Stepped(Rest),
    Ordered(
        Phased(BAD),
        Busy {
            phase: 0,
            target: 1,
        },
    ),
    Gone(0, Start(0, 1)),
    Stepped(Rest),
    Ordered(Phased(BAD), Refused(BAD)),
    Ordered(Phased(Load::Absent), Refused(Load::Absent)),
    Ordered(Phased(Load::Read), Taken(2)),
    Stepped(Drain(0)),
    Gone(0, Start(0, 2)),
    Ordered(Stop, Taken(2)),
    Ordered(
        Phased(Load::Read),
        Busy {
            phase: 2,
            target: 2,
        },
    ),
    Stepped(Drain(0)),
    Stepped(Rest),
    Gone(0, Finish),
    Stepped(Finish),
];

#[test]
fn one_slot_is_replaced_and_stopped(rt: HostRuntime) -> Result<(), Fail> {
    assert_eq!(rt;
        differs(Master::new(rt.alloc(), 1)?, 1, &REPLACED_AND_STOPPED),
        None
    );
    Ok(())
}

const ENDED_BY_STOP: [Row; 12] = [
    Ordered(Phased(Load::Read), Taken(1)),
    Stepped(Drain(0)),
    Ordered(Stop, Taken(1)),
    Ordered(
        Phased(Load::Read),
        Busy {
            phase: 0,
            target: 1,
        },
    ),
    Stepped(Drain(1)),
    Gone(1, Rest),
    Ordered(Halt, Taken(1)),
    Ordered(
        Phased(Load::Long),
        Busy {
            phase: 0,
            target: 1,
        },
    ),
    Stepped(HaltAll),
    Ordered(Halt, Taken(1)),
    Stepped(Rest),
    Gone(0, Finish),
];

const ENDED_BY_HALT: [Row; 10] = [
    Ordered(Phased(Load::Read), Taken(1)),
    Stepped(Drain(0)),
    Gone(0, Start(0, 1)),
    Stepped(Drain(1)),
    Ordered(Halt, Taken(1)),
    Ordered(Stop, Taken(1)),
    Gone(1, HaltAll),
    Stepped(Rest),
    Gone(0, Finish),
    Ordered(
        Phased(Load::Read),
        Busy {
            phase: 0,
            target: 1,
        },
    ),
];

#[test]
fn two_slots_are_ended_in_the_middle(rt: HostRuntime) -> Result<(), Fail> {
    assert_eq!(rt;
        differs(Master::new(rt.alloc(), 2)?, 2, &ENDED_BY_STOP),
        None
    );
    assert_eq!(rt;
        differs(Master::new(rt.alloc(), 2)?, 2, &ENDED_BY_HALT),
        None
    );
    Ok(())
}

fn put_replacements(run: &mut Vec<Row>) -> Result<(), Fail> {
    let busy = Busy {
        phase: 0,
        target: 1,
    };
    for i in 0..16u8 {
        run.push(Ordered(Phased(Load::Read), busy))?;
        run.push(Stepped(Drain(i)))?;
        run.push(Gone(i, Start(i, 1)))?;
    }
    Ok(())
}

fn put_ends(run: &mut Vec<Row>) -> Result<(), Fail> {
    run.push(Ordered(Phased(Load::Read), Taken(2)))?;
    run.push(Ordered(Halt, Taken(2)))?;
    run.push(Stepped(HaltAll))?;
    for i in 0..15u8 {
        run.push(Gone(i, Rest))?;
    }
    run.push(Gone(15, Finish))?;
    Ok(())
}

fn put_all(run: &mut Vec<Row>) -> Result<(), Fail> {
    run.push(Ordered(Phased(Load::Read), Taken(1)))?;
    put_replacements(run)?;
    put_ends(run)
}

#[test]
fn sixteen_slots_are_replaced_in_their_order(rt: HostRuntime) -> Result<(), Fail> {
    let mut run = Vec::new(rt.alloc());
    put_all(&mut run)?;
    let master = Master::new(rt.alloc(), 16)?;
    assert_eq!(rt; differs(master, 16, run.as_slice()), None);
    Ok(())
}

const TO_THE_GREATEST: [Row; 9] = [
    Ordered(Phased(Load::Read), Taken(4_294_967_295)),
    Stepped(Drain(0)),
    Gone(0, Start(0, 4_294_967_295)),
    Ordered(
        Phased(Load::Read),
        Busy {
            phase: 4_294_967_294,
            target: 4_294_967_295,
        },
    ),
    Stepped(Drain(1)),
    Gone(1, Start(1, 4_294_967_295)),
    Ordered(
        Phased(Load::Absent),
        Busy {
            phase: 4_294_967_295,
            target: 4_294_967_295,
        },
    ),
    Ordered(Stop, Taken(4_294_967_295)),
    Stepped(Drain(0)),
];

#[test]
fn no_phase_follows_the_greatest(rt: HostRuntime) -> Result<(), Fail> {
    let master = Master::in_phase(rt.alloc(), 2, 4_294_967_294)?;
    assert_eq!(rt; differs(master, 2, &TO_THE_GREATEST), None);
    Ok(())
}

#[test]
fn a_master_shows_its_slots(rt: HostRuntime) -> Result<(), Fail> {
    let mut master = Master::new(rt.alloc(), 2)?;
    assert_eq!(rt; master.busy(), None);
    let _ = master.order(Phased(Load::Read));
    let _ = master.step(None);
    assert_eq!(rt; master.busy(), Some((0, 1)));
    assert_eq!(rt; master.target(), 1);
    assert_eq!(rt; master.slot(0), Slot::Draining(0));
    assert_eq!(rt; master.slot(1), Slot::Serving(0));
    Ok(())
}

// A loader in memory, which always gives the same.
#[derive(Drop)]
struct SameLoad {
    load: Load,
    answered: Option<Load>,
    loads: u64,
    faults: u64,
}

impl Loader for SameLoad {
    ghost loads = { λ s. s.loads };

    ghost answered = { λ s. s.answered };

    ghost faults = { λ s. s.faults };

    fn load(&mut self) -> Result<Load, NoMemory> {
        self.loads = self.loads.saturating_add(1);
        if matches!(self.load, Load::Failed) {
            self.faults = self.faults.saturating_add(1);
        }
        self.answered = Some(self.load);
        Ok(self.load)
    }
}

// TakesOrder what the loader gives.
fn order_loaded<L: Loader>(master: &mut Master, loader: &mut L) -> Result<Reply, NoMemory> {
    Ok(master.order(Phased(loader.load()?)))
}

#[test]
fn a_loader_is_asked_for_each_order(rt: HostRuntime) -> Result<(), Fail> {
    for (load, reply) in [
        (Load::Failed, Refused(Load::Failed)),
        (Load::Read, Taken(1)),
    ] {
        let mut master = Master::new(rt.alloc(), 1)?;
        let mut loader = SameLoad {
            load,
            answered: None,
            loads: 0,
            faults: 0,
        };
        assert_eq!(rt; order_loaded(&mut master, &mut loader)?, reply);
        assert_eq!(rt; loader.loads, 1);
    }
    Ok(())
}
