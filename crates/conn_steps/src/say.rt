// What is owed is said.
ghost use Rattle.std.specs.Prelude.{◌≡◌, ◌≢◌, IsTrue};
ghost use Rattle.rack_outside.specs.Link.{Seen};
ghost use Rattle.talk_core.specs.Tail.{voice_of};
ghost use Rattle.talk_core.specs.Teller.{Teller};
ghost use Rattle.conn_steps.specs.Holds.{HoldsBy};
ghost use Rattle.conn_steps.specs.Inner.{Says, SaysOnce, FillsShown, IsFilledAt};
ghost use Rattle.conn_steps.specs.At.{IsSaying};
ghost use Rattle.conn_steps.specs.Shown.{shows};

use crate::at::{At, is_saying, put};
use crate::budget::SayStep;
use crate::inside::Inside;
use crate::moments::filled;
use crate::send::send;
use crate::steps::{begins, complete, fill};
use hijack_core::Hijack;
use rack_outside::{Link, LinkWrite};
use rack_types::Body;
use talk_core::Why;

impl<B: Body, H: Hijack + Drop> Inside<B, H> {
    // Fills the ring from the reply that is under way, if there is one, and tells whether memory sufficed.
    fn fill(&mut self, now: u64) -> bool
        requires { IsSaying self.old.at }
        ensures holds { (T : Teller H) (s : Seen) → HoldsBy (voice_of H.Hijack) T s self.old → HoldsBy (voice_of H.Hijack) T s self.new }
        ensures fills { FillsShown now result (shows self.old) (shows self.new) }
        ensures some { IsTrue result → IsFilledAt self.new.at self.new.ring.items }
    {
        let empty = self.ring.is_empty();
        fill(&mut self.at, &mut self.ring);
        let _few = self.ring.len();
        let goes_on = is_saying(&self.at);
        self.moments.filled = filled(goes_on & empty, now, self.moments.filled);
        goes_on
    }

    // One write. Where it took all that was owed, the connection ends or goes on behind it.
    fn write<L: Link>(&mut self, link: &mut L, now: u64) -> SayStep
        requires { IsFilledAt self.old.at self.old.ring.items }
        ensures holds { (T : Teller H) → HoldsBy (voice_of H.Hijack) T (L.seen link.old) self.old → HoldsBy (voice_of H.Hijack) T (L.seen link.new) self.new }
        ensures says { Says result (shows self.old) (shows self.new) (L.seen link.old) (L.seen link.new) }
        ensures once { SaysOnce now result (shows self.old) (shows self.new) (L.seen link.old) (L.seen link.new) }
        ensures wrote { result ≢ SayStep.Unwritten }
    {
        match send(link, &mut self.ring) {
            LinkWrite::Took(_) => {
                self.moments.took = Some(now);
                if self.ring.is_empty() {
                    let at = complete(
                        &mut self.at,
                        &mut self.intake,
                        &mut self.unfed,
                        &mut self.ring,
                        self.ending.late,
                    );
                    self.moments.begun = begins(&at, &self.intake, None, now);
                    put(&mut self.at, at);
                    self.moments.filled = filled(!self.ring.is_empty(), now, self.moments.filled);
                    SayStep::Wrote
                } else {
                    SayStep::Wrote
                }
            }
            LinkWrite::NotYet => SayStep::Waits,
            LinkWrite::Failed => {
                put(&mut self.at, At::Over(Why::WriteFailed));
                SayStep::Wrote
            }
            LinkWrite::NoMemory => {
                put(&mut self.at, At::Over(Why::NoMemory));
                SayStep::Wrote
            }
        }
    }

    /// Fills the ring and writes once. Where the link took all that was owed, goes on behind it.
    pub fn say<L: Link>(&mut self, link: &mut L, now: u64) -> SayStep
        requires { IsSaying self.old.at }
        ensures holds { (T : Teller H) → HoldsBy (voice_of H.Hijack) T (L.seen link.old) self.old → HoldsBy (voice_of H.Hijack) T (L.seen link.new) self.new }
        ensures says { Says result (shows self.old) (shows self.new) (L.seen link.old) (L.seen link.new) }
        ensures once { SaysOnce now result (shows self.old) (shows self.new) (L.seen link.old) (L.seen link.new) }
    {
        if self.fill(now) {
            self.write(link, now)
        } else {
            SayStep::Unwritten
        }
    }
}
