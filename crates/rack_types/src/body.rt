// The body of an answer.
ghost use Rattle.std.specs.Prelude.{◌≡◌, List, ℕ, IfSome};
ghost use Rattle.rack_types.specs.Body.{Content, HasLength, StepsTo};

use super::NoMemory;

/// What one `next` of a body gave.
#[derive(Clone, Copy, Debug, PartialEq, Eq)]
pub enum Step {
    /// A piece, which `piece` lends.
    Piece,
    /// The body has ended well.
    End,
    /// The body has raised.
    Raised,
}

/// How an application made a body.
#[derive(Clone, Copy, Debug, PartialEq, Eq)]
pub enum Kind {
    /// It is gone through piece by piece.
    Enumerable,
    /// It writes to a stream.
    Streaming,
}

/// The body of an answer: pieces of any bytes, taken one at a time, and how it ends behind them.
///
/// A body need not have `Drop`. It is spent by `close`, which may come at any time.
pub trait Body {
    /// The pieces that are left, how the body ends behind them, and what else is known of it.
    ghost content: { Self → Content };
    /// The piece that was taken last; nothing before the first.
    ghost taken: { Self → List ℕ };

    /// Takes the first piece that is left, or tells the end; behind the end it tells the same again.
    ///
    /// A refused call takes no piece and leaves what is to come as it was. A body that is `sure` refuses
    /// none. Behind a call that took no piece, what `piece` lends is not said.
    fn next(&mut self) -> Result<Step, NoMemory>
        ensures { StepsTo result (content self.old) (taken self.new) (content self.new) };

    /// Lends the piece that was taken last.
    fn piece(&self) -> &[u8]
        ensures { result.now ≡ taken self.now };

    /// How many bytes the pieces that are left have in all, where that is known. A body that raises
    /// behind them has no known length.
    fn known_length(&self) -> Option<u64>
        ensures known { result ≡ (content self.now).known }
        ensures right { IfSome result (λ n. HasLength n (content self.now)) };

    /// How the application made it.
    fn kind(&self) -> Kind
        ensures { result ≡ (content self.now).kind };

    /// Spends the body, whatever is left of it.
    fn close(self);
}
