// Laws over the definitions. A function without a result does nothing: its contract is the law.
ghost use Rattle.std.specs.Prelude.{ℕ, List, Bool, Option};
ghost use Rattle.talk_core.specs.Laws.{IsOneTalk, HasTalk, Stays, PartlyStands, AreReadAgain};
ghost use Rattle.talk_core.specs.Tail.{Voice};
ghost use Rattle.talk_core.specs.Teller.{Fates, Stacks, tell};
ghost use Rattle.talk_core.specs.declared.ended.Life.{Life};
ghost use Rattle.rack_types.specs.declared.peer.Local.{Local};

/// At most one talk is on these bytes: what was asked, how it stopped, and what is left.
pub fn one_talk_is_on_the_bytes()
    ensures { (fates : Fates) (given : List ℕ) → IsOneTalk fates given }
{}

/// No bytes are without a talk: it isn't so that there is none. So what is said of each talk on some bytes is never said
/// of nothing.
pub fn no_bytes_are_without_a_talk()
    ensures { (fates : Fates) (given : List ℕ) → ¬ (¬ (HasTalk fates given)) }
{}

/// A talk that stopped for good, refused, by a reply that closes, or at a hijack, is not changed by any
/// bytes that come behind: only its rest grows.
pub fn talk_that_stopped_stays()
    ensures { (fates : Fates) (given more : List ℕ) → Stays fates given more }
{}

/// What stands in part stands for the talk on its bytes, over any stacks: there are no more runs than
/// requests, all replies but the last were sent whole, and what was sent begins the talk's text.
pub fn what_was_sent_stands_for_the_talk<H>()
    ensures { (V : Voice H) (S : Stacks H) (lives : List Life) (local : Local) (peer : List ℕ) (over : Bool) (given sent : List ℕ) (calls : ℕ)
        (closing : Option ℕ) → PartlyStands V (tell S lives local peer closing) over given sent calls closing }
{}

/// What the framer prints in chunks of pieces with at most 1,048,576 bytes in all is read by the reader of
/// requests as one body in chunks, whose bytes are the pieces joined.
pub fn chunks_are_read_again()
    ensures { (pieces : List (List ℕ)) → AreReadAgain pieces }
{}
