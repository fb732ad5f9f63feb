// The parts of a connection at its start, and parts that are let go.
ghost use Rattle.std.specs.Prelude.{◌≡◌, IfOk};
ghost use Rattle.rack_types.specs.Limits.{stock_limits};
ghost use Rattle.conn_steps.specs.Opened.{IsFresh};

use crate::at::{At, close};
use crate::inside::Inside;
use crate::moments::{Ending, Moments};
use crate::piece::Piece;
use crate::steps::begins;
use circular_buffer::HeapCircularBuffer;
use message_framing::Intake;
use rack_types::{Body, Bytes, Env, Input, Limits, Local, NoMemory, Peer};
use std::alloc::{AllocError, Global};
use talk_core::Life;

// The bytes of the output ring.
const RING: usize = 65_536;
/// How many lives there is room for.
pub const LIVES: usize = 64;

impl<B: Body, H: Drop> Inside<B, H> {
    /// The parts of a connection at its start, in one block.
    pub fn new(
        alloc: Global,
        peer: Peer,
        local: Local,
        limits: Limits,
        phase: u32,
        now: u64,
    ) -> Result<Box<Inside<B, H>>, NoMemory>
        requires limits { limits ≡ stock_limits }
        ensures { IfOk result (λ inside. IsFresh peer local phase now inside.value) }
    {
        let intake = Intake::new(alloc, limits)?;
        let unfed = Piece::new(alloc)?;
        let ring = HeapCircularBuffer::with_capacity(alloc, RING)?;
        let mut lives = Vec::with_capacity(alloc, LIVES)?;
        lives.push(Life { first: 0, phase }).unwrap();
        let env = Env::new(alloc, Input::new(Bytes::new(Vec::new(alloc))));
        let at = At::Reading;
        let begun = begins(&at, &intake, None, now);
        match Box::new(
            alloc,
            Inside {
                alloc,
                peer,
                local,
                lives,
                intake,
                unfed,
                env,
                ring,
                calls: 0,
                taken: 0,
                ending: Ending {
                    told: 0,
                    closing: None,
                    late: None,
                    dismissed: false,
                },
                moments: Moments::new(now, begun),
                at,
            },
        ) {
            Ok(inside) => Ok(inside),
            Err(refused) => {
                refused.value.let_go();
                Err(AllocError)
            }
        }
    }

    /// Lets them go as they are, and closes the body of a reply that is under way.
    pub fn let_go(self) {
        let Inside {
            alloc: _,
            peer: _,
            local: _,
            lives: _,
            intake: _,
            unfed: _,
            env: _,
            ring: _,
            calls: _,
            taken: _,
            ending: _,
            moments: _,
            at,
        } = self;
        close(at);
    }
}
