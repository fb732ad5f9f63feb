// The request that says an order.
ghost use Rattle.std.specs.Prelude.{◌≡◌, ◌++◌, IsTrue, OnOk, OnErr};
ghost use Rattle.std.specs.Char.{is_ascii_alphanumeric};
ghost use Rattle.std.specs.List.{list_all};
ghost use Rattle.puma_ctl.specs.Wish.{is_control_token, order_path, wish_bytes};

use rack_types::NoMemory;

/// What the control server is asked for.
#[derive(Clone, Copy, Debug, PartialEq, Eq)]
pub enum Wish {
    /// What the slots do.
    Stats,
    /// That the stack is replaced, slot by slot.
    Phased,
    /// That the server ends behind the connections that it has.
    Stop,
    /// That the server ends at once.
    Halt,
}

impl Wish {
    // The path that asks for it.
    fn path(self) -> &'static [u8]
        ensures { result.now ≡ order_path self }
    {
        match self {
            Wish::Stats => b"/stats",
            Wish::Phased => b"/phased-restart",
            Wish::Stop => b"/stop",
            Wish::Halt => b"/halt",
        }
    }
}

/// Whether this may be a control token: 1 to 64 letters and digits.
pub fn is_control_token(text: &[u8]) -> bool
    ensures { result ≡ is_control_token text.now }
{
    if text.is_empty() || text.len() > 64 {
        return false;
    }
    has_letters_alone(text)
}

// Whether all of it are letters and digits.
fn has_letters_alone(text: &[u8]) -> bool
    ensures { result ≡ list_all is_ascii_alphanumeric text.now }
{
    text.iter().all(|byte| byte.is_ascii_alphanumeric())
}

// What stands before the path, between it and the token, and behind the token.
const BEFORE: &[u8] = b"GET ";

const BETWEEN: &[u8] = b"?token=";

const BEHIND: &[u8] = b" HTTP/1.1\r\nHost: localhost\r\nConnection: close\r\n\r\n";

/// Appends the request that asks for this with this token. It takes memory, and a refused call leaves `out` as it was.
pub fn write_wish(token: &[u8], wish: Wish, out: &mut Vec<u8>) -> Result<(), NoMemory>
    requires { IsTrue (is_control_token token.now) }
    ensures ok { OnOk result (out.new.items ≡ out.old.items ++ wish_bytes token.now wish) }
    ensures err { OnErr result (out.new.items ≡ out.old.items) }
{
    let path = wish.path();
    out.reserve(BEFORE.len() + path.len() + BETWEEN.len() + token.len() + BEHIND.len())?;
    out.extend_from_slice(BEFORE)?;
    out.extend_from_slice(path)?;
    out.extend_from_slice(BETWEEN)?;
    out.extend_from_slice(token)?;
    out.extend_from_slice(BEHIND)?;
    Ok(())
}
