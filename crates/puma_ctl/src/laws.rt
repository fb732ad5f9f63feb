//! Laws above the definitions. Each function does nothing: its contract is the law.
ghost use Rattle.std.specs.Prelude.{◌≡◌, ◌⊎◌, ℕ, List, [], ◌∷◌, ◌++◌, Some, true, codes};
ghost use Rattle.rack_outside.specs.Link.{Seen, Tells};
ghost use Rattle.puma_ctl.specs.Dial.{DialSeen};
ghost use Rattle.puma_ctl.specs.Order.{GivesReply, IsExcused, Order, Ordered, OutSeen, outcome_of, printed};
ghost use Rattle.puma_ctl.specs.Reply.{BeginsReply, IsNoReply, IsReply};
ghost use Rattle.message_framing.specs.Request.{IsRequest};
ghost use Rattle.puma_ctl.specs.Wish.{is_control_token, order_query, wish_bytes, wish_parts};
ghost use Rattle.form_urlencoded.specs.Form.{parse};
ghost use Rattle.puma_ctl.specs.declared.wish.Wish.{Wish};
ghost use Rattle.puma_ctl.specs.declared.order.Outcome.{Outcome};

/// The request of an order is a request, whole: one of GET for the order's path, whose query has one pair, the token.
pub fn a_wish_is_a_request()
    ensures request { (token : List ℕ) (wish : Wish) → is_control_token token ≡ true → IsRequest (wish_bytes token wish) (wish_parts token wish) }
    ensures query { (token : List ℕ) → is_control_token token ≡ true → parse (order_query token) ≡ (codes "token", token) ∷ [] }
{}

/// At most one reply begins the bytes, and none that never do; what stands stays, whatever follows.
pub fn one_reply_begins()
    ensures one { (b : List ℕ) (s t : ℕ) (body other : List ℕ) → BeginsReply b s body → BeginsReply b t other → (s ≡ t) × (body ≡ other) }
    ensures apart { (b : List ℕ) (s : ℕ) (body : List ℕ) → IsNoReply b → ¬ (BeginsReply b s body) }
    ensures itself { (b : List ℕ) (s : ℕ) (body : List ℕ) → IsReply b s body → BeginsReply b s body }
    ensures stays { (b more : List ℕ) (s : ℕ) (body : List ℕ) → BeginsReply b s body → BeginsReply (b ++ more) s body }
    ensures never { (b more : List ℕ) → IsNoReply b → IsNoReply (b ++ more) }
{}

/// Over a link that gives a reply and then ends, an order prints that reply's body and ends as its status says, unless
/// memory was refused, a count of faults rose, or the link had to wait too often.
pub fn a_given_reply_is_printed()
    ensures { (outcome : Outcome) (order : Order) (old new : DialSeen) (before out : OutSeen) (link : Seen) (reply : List ℕ) (status : ℕ) (body : List ℕ)
        → Ordered outcome order old new before out → new.back ≡ Some link → IsReply reply status body → GivesReply link reply
        → IsExcused outcome link old new before out ⊎ ((outcome ≡ outcome_of status) × Tells out.written (printed body)) }
{}
