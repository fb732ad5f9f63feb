// All of a connection but its link.
ghost use Rattle.std.specs.Prelude.{◌≡◌, ◌≤◌, vec_capacity};
ghost use Rattle.talk_core.specs.Lives.{lives_limit};
ghost use Rattle.conn_steps.specs.Rests.{RestsAt, RestsAt-prop, Begins, Begins-prop};

use crate::at::At;
use crate::moments::{Ending, Moments};
use crate::piece::Piece;
use circular_buffer::HeapCircularBuffer;
use message_framing::Intake;
use rack_types::{Body, Env, Local, Peer};
use std::alloc::Global;
use talk_core::Life;

/// All of a connection but its link. Its methods stand in `open`, `read`, `answer`, `say` and `owner`.
#[derive(Drop)]
pub struct Inside<B: Body, H> {
    pub alloc: Global,
    pub peer: Peer,
    pub local: Local,
    pub lives: Vec<Life>,
    /// The present request, as far as it was fed, and what was read behind it.
    pub intake: Intake,
    pub unfed: Piece,
    /// The environment of the request that was run last. Its room serves for the next one.
    pub env: Env,
    pub ring: HeapCircularBuffer<u8>,
    /// How many requests were run, and how many bytes were read.
    pub calls: u64,
    pub taken: u64,
    pub ending: Ending,
    pub moments: Moments,
    pub at: At<B, H>,
    pub ghost room: { ring.capacity ≡ 65536 },
    pub ghost reserved: { lives_limit ≤ vec_capacity lives },
    pub ghost rests: { RestsAt at intake unfed ring.items calls ending } by { RestsAt-prop at intake unfed ring.items calls ending },
    pub ghost begins: { Begins at intake moments.begun } by { Begins-prop at intake moments.begun },
}
