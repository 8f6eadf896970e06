ghost use Rattle.std.specs.Prelude.{IfSome, IfNone};
ghost use Rattle.ecp_command.specs.Input.Cuts.{IsClear, IsCut};

use memchr::memchr;

/// What stands before the first such byte and what stands after it, or None where there is none.
pub(crate) fn cut(text: &[u8], byte: u8) -> Option<(&[u8], &[u8])>
    ensures some { IfSome result (λ p. IsCut byte text.now p.0.now p.1.now) }
    ensures none { IfNone result (IsClear byte text.now) }
{
    match memchr(byte, text) {
        Some(at) => Some((&text[..at], &text[at + 1..])),
        None => None,
    }
}
