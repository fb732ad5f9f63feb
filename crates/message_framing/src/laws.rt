//! Laws above the definitions of a request and of a refusal, and the calls that tell them.
ghost use Rattle.std.specs.Prelude.{◌≡◌, ◌≤◌, ℕ, List, [], ◌++◌, length, IfOk, IsErr};
ghost use Rattle.rack_types.specs.declared.fault.Fault.{Fault};
ghost use Rattle.rack_types.specs.Request.{Parts};
ghost use Rattle.rack_types.specs.Sound.{IsSound};
ghost use Rattle.message_framing.specs.declared.intake.Feed.{Feed};
ghost use Rattle.message_framing.specs.Request.{IsRequest, Begins, Begun, Refusal, Wanting, waiting_limit};
ghost use Rattle.message_framing.specs.Intake.{Fed, IsRight, LacksRightly};

use crate::{Feed, Intake};
use rack_types::NoMemory;

/// Whatever the bytes are, at most one thing stands: one request of one length begins them, or one
/// refusal stands, and not both. So exactly one of three holds: a request, a refusal, or neither.
/// Which one it is `what_stands` tells.
pub fn one_thing_stands()
    ensures request { (bytes : List ℕ) (n m : ℕ) (r q : Parts) → Begins bytes n r → Begins bytes m q → (n ≡ m) × (r ≡ q) }
    ensures refusal { (bytes : List ℕ) (f g : Fault) → Refusal bytes f → Refusal bytes g → f ≡ g }
    ensures apart { (bytes : List ℕ) (n : ℕ) (r : Parts) (f : Fault) → Begins bytes n r → ¬ (Refusal bytes f) }
{}

/// What stands stays, whatever follows; and no request is a proper prefix of another.
pub fn what_stands_stays()
    ensures refusal { (bytes more : List ℕ) (f : Fault) → Refusal bytes f → Refusal (bytes ++ more) f }
    ensures request { (bytes more : List ℕ) (n : ℕ) (r : Parts) → Begins bytes n r → Begins (bytes ++ more) n r }
    ensures prefix { (bytes more : List ℕ) (r q : Parts) → IsRequest bytes r → IsRequest (bytes ++ more) q → more ≡ [] }
{}

/// At most one answer of `feed` is right. Behind a whole request the right one is `Whole(0)`, and behind a
/// refusal that refusal.
pub fn one_answer_is_right()
    ensures same { (bytes piece : List ℕ) (a b : Feed) → IsRight a bytes piece → IsRight b bytes piece → a ≡ b }
    ensures whole { (bytes piece : List ℕ) (r : Parts) (a : Feed) → IsRequest bytes r → IsRight a bytes piece → a ≡ Feed.Whole 0 }
    ensures refused { (bytes piece : List ℕ) (f : Fault) (a : Feed) → Refusal bytes f → IsRight a bytes piece → a ≡ Feed.Refused f }
{}

/// Each request has what the rules of an environment rest on.
pub fn request_is_sound()
    ensures { (bytes : List ℕ) (r : Parts) → IsRequest bytes r → IsSound r }
{}

/// Reading ends: bytes in which nothing stands are at most so many. They are a head, chunks of one byte
/// with the longest size lines, and what came of a last size line and of the trailer behind it.
pub fn waiting_is_bounded()
    ensures { (bytes : List ℕ) → Wanting bytes → length bytes ≤ waiting_limit }
{}

/// Where want of memory is right, a head is whole, so the request has begun.
pub fn lacking_has_begun()
    ensures { (bytes piece : List ℕ) → LacksRightly bytes piece → Begun (bytes ++ piece) }
{}

/// What stands in these bytes, by an intake that was fed nothing, where memory suffices: one of the
/// three always does.
pub fn what_stands(mut intake: Intake, bytes: &[u8]) -> Result<Feed, NoMemory>
    requires { Fed intake [] }
    ensures right { IfOk result (λ answer. IsRight answer [] bytes.now) }
    ensures lacks { IsErr result → LacksRightly [] bytes.now }
{
    intake.feed(bytes)
}
