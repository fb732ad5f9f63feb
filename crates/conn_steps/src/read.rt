// One read.
ghost use Rattle.std.specs.Prelude.{◌≡◌};
ghost use Rattle.talk_core.specs.Tail.{voice_of};
ghost use Rattle.talk_core.specs.Teller.{Teller};
ghost use Rattle.conn_steps.specs.Holds.{HoldsBy};
ghost use Rattle.conn_steps.specs.Inner.{ReadsBy, HearsBy};
ghost use Rattle.conn_steps.specs.Keeps.{Keeps, Read};
ghost use Rattle.conn_steps.specs.Moves.{ReadsOnce};
ghost use Rattle.conn_steps.specs.At.{IsHearing};
ghost use Rattle.conn_steps.specs.Shown.{shows};

use crate::at::{At, put};
use crate::hijack::{end_on, hand_on};
use crate::inside::Inside;
use crate::moments::filled;
use crate::steps::{begins, feed_held};
use hijack_core::Hijack;
use rack_outside::{Link, LinkRead};
use rack_types::Body;
use std::mem;
use talk_core::Why;

impl<B: Body, H: Hijack + Drop> Inside<B, H> {
    /// One read, and what stands then.
    pub fn read<L: Link>(&mut self, link: &mut L, now: u64) -> LinkRead
        requires { self.old.at ≡ At.Reading }
        ensures holds { (T : Teller H) → HoldsBy (voice_of H.Hijack) T (L.seen link.old) self.old → HoldsBy (voice_of H.Hijack) T (L.seen link.new) self.new }
        ensures reads { ReadsBy result (shows self.old) (shows self.new) (L.seen link.old) (L.seen link.new) }
        ensures once { ReadsOnce result (shows self.old) (shows self.new) (L.seen link.old) (L.seen link.new) }
        ensures keeps { Keeps now (Read result) (shows self.old) (shows self.new) }
    {
        let read = self.unfed.read(link);
        match read {
            LinkRead::Bytes(n) => {
                self.taken = self.taken.saturating_add(n as u64);
                let at = feed_held(&mut self.intake, &mut self.unfed);
                self.moments.begun = begins(&at, &self.intake, self.moments.begun, now);
                put(&mut self.at, at);
                LinkRead::Bytes(n)
            }
            LinkRead::NotYet => LinkRead::NotYet,
            LinkRead::End => {
                put(&mut self.at, At::Over(Why::PeerEnd));
                LinkRead::End
            }
            LinkRead::Failed => {
                put(&mut self.at, At::Over(Why::ReadFailed));
                LinkRead::Failed
            }
        }
    }

    /// One read for the hijacker that has the connection, and what it says to what came.
    pub fn hear<L: Link>(&mut self, link: &mut L, now: u64) -> LinkRead
        requires { IsHearing self.old.at }
        ensures holds { (T : Teller H) → HoldsBy (voice_of H.Hijack) T (L.seen link.old) self.old → HoldsBy (voice_of H.Hijack) T (L.seen link.new) self.new }
        ensures reads { HearsBy result (shows self.old) (shows self.new) (L.seen link.old) (L.seen link.new) }
        ensures once { ReadsOnce result (shows self.old) (shows self.new) (L.seen link.old) (L.seen link.new) }
        ensures keeps { Keeps now (Read result) (shows self.old) (shows self.new) }
    {
        let read = self.unfed.read(link);
        match read {
            LinkRead::Bytes(n) => {
                self.taken = self.taken.saturating_add(n as u64);
                let at = mem::replace(&mut self.at, At::Refusing);
                let at = hand_on(at, &mut self.unfed, &mut self.ring);
                put(&mut self.at, at);
                self.moments.filled = filled(!self.ring.is_empty(), now, self.moments.filled);
                LinkRead::Bytes(n)
            }
            LinkRead::NotYet => LinkRead::NotYet,
            LinkRead::End => {
                let at = mem::replace(&mut self.at, At::Refusing);
                let at = end_on(at, &mut self.ring);
                put(&mut self.at, at);
                self.moments.filled = filled(!self.ring.is_empty(), now, self.moments.filled);
                LinkRead::End
            }
            LinkRead::Failed => {
                put(&mut self.at, At::Over(Why::ReadFailed));
                LinkRead::Failed
            }
        }
    }
}
