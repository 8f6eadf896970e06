ghost use Rattle.std.specs.Prelude.{◌≡◌, ◌≤◌, ◌<◌, ◌+◌, ◌∷◌, length, IfSome, IfNone};
ghost use Rattle.ecp_shape.specs.declared.limits.TheConstants.{MAX_INPUT};
ghost use Rattle.ecp_command.specs.Input.Lines.{lines, numbered, is_skipped, ArePartsOf, HasNoRule};

use crate::input::cuts::cut;
use crate::input::parts::Parts;

// The line between the head and the script.
const RULE: &[u8] = b"---";

/// Divides an input at its first rule, or None where it has none.
pub(crate) fn divide(bytes: &[u8]) -> Option<Parts<'_>>
    requires { length bytes.now ≤ MAX_INPUT }
    ensures some { IfSome result (λ p.
        ArePartsOf bytes.now (record { head = p.head.now; script = numbered p.first (lines p.script.now) })) }
    ensures room { IfSome result (λ p. p.first + length p.script.now ≤ length bytes.now + 2) }
    ensures none { IfNone result (HasNoRule bytes.now) }
{
    let mut rest = bytes;
    let mut first = 2;
    'lines: while let Some((line, after)) = cut(rest, b'\n') {
        if line == RULE {
            let head = &bytes[..bytes.len() - rest.len()];
            return Some(Parts {
                head,
                script: after,
                first,
            });
        }
        rest = after;
        first += 1;
    }
    if rest == RULE {
        let head = &bytes[..bytes.len() - rest.len()];
        Some(Parts {
            head,
            script: &[],
            first,
        })
    } else {
        None
    }
}

/// The first line of a text that is not empty, and what stands behind it.
pub(crate) fn next_line(text: &[u8]) -> (&[u8], &[u8])
    requires { 0 < length text.now }
    ensures line { lines text.now ≡ result.0.now ∷ lines result.1.now }
    ensures shorter { length result.1.now < length text.now }
{
    match cut(text, b'\n') {
        Some(parts) => parts,
        None => (text, &[]),
    }
}

/// Whether the line is empty or a comment.
pub(crate) fn is_skipped(line: &[u8]) -> bool
    ensures { result ≡ is_skipped line.now }
{
    match line.first() {
        Some(first) => *first == b'#',
        None => true,
    }
}
