// Tokens, and words whose case does not count.
ghost use Rattle.std.specs.Prelude.{◌≡◌, ◌↔◌, IsTrue};
ghost use Rattle.httparse.specs.Grammar as grammar;
ghost use Rattle.rack_text.specs.Case as spec;

/// Whether the text is a token: one `tchar` or more, and nothing else (RFC 9110, section 5.6.2).
pub fn is_token(text: &[u8]) -> bool
    ensures { result ≡ grammar.is_token text.now }
{
    httparse::is_token(text)
}

/// Whether the texts are equal but for the case of ASCII letters, as the names of options and
/// codings are compared (RFC 9110, sections 7.6.1 and 8.4.1).
pub fn same_ignoring_case(a: &[u8], b: &[u8]) -> bool
    ensures value { result ≡ spec.same_ignoring_case a.now b.now }
    ensures same { IsTrue result ↔ (spec.lowered a.now ≡ spec.lowered b.now) }
{
    a.eq_ignore_ascii_case(b)
}
