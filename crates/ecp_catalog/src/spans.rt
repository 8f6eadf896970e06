//! The spans of the files that have stripes, in rising order.

ghost use Rattle.std.specs.Prelude.{◌≡◌, ℕ, ◌+◌, ◌-◌, ◌<◌, ◌≤◌, if◌then◌else◌, find, take, drop, length, vec_capacity, vec_len, All, Some, None, true};
ghost use Rattle.ecp_catalog.specs.declared.limits.TheConstants.{END_OF_STRIPES};
ghost use Rattle.ecp_catalog.specs.Kept.{IsSpread, covers, span_of, spanned};

use crate::span::Span;
use ecp_history::File;

/// The span that has a stripe, if there is one.
pub(crate) fn span_with(spans: &[Span], stripe: u32) -> Option<Span>
    requires { IsSpread 0 END_OF_STRIPES spans.now }
    ensures { result ≡ find (covers stripe) spans.now }
{
    let at = ended_by(spans, stripe);
    match spans.get(at) {
        Some(span) => {
            if span.first <= stripe {
                Some(*span)
            } else {
                None
            }
        }
        None => None,
    }
}

/// How many spans end at a stripe number or before it: they are the first ones.
fn ended_by(spans: &[Span], stripe: u32) -> usize
    requires { IsSpread 0 END_OF_STRIPES spans.now }
    ensures within { result ≤ length spans.now }
    ensures before { All (λ x. x.end ≤ stripe) (take result spans.now) }
    ensures behind { All (λ x. stripe < x.end) (drop result spans.now) }
{
    spans.partition_point(|span| span.end <= stripe)
}

/// Puts the span of a file at its place, if the file has stripes. There is room for it, and no other file has one of its
/// numbers.
pub(crate) fn put_file(spans: &mut Vec<Span>, file: &File, at: usize)
    requires room { vec_len spans.old < vec_capacity spans.old }
    requires spread { IsSpread 0 END_OF_STRIPES spans.old.items }
    requires below { file.now.first + file.now.stripes ≤ END_OF_STRIPES }
    requires fresh { (s : ℕ) → covers s (span_of file.now at) ≡ true → find (covers s) spans.old.items ≡ None }
    ensures spread { IsSpread 0 END_OF_STRIPES spans.new.items }
    ensures found { (s : ℕ) → find (covers s) spans.new.items ≡ (if covers s (span_of file.now at) then Some (span_of file.now at) else find (covers s) spans.old.items) }
    ensures files { (n : ℕ) → at < n → All (λ x. x.file < n) spans.old.items → All (λ x. x.file < n) spans.new.items }
    ensures total { spanned spans.new.items ≡ spanned spans.old.items + file.now.stripes }
    ensures len { vec_len spans.new ≤ vec_len spans.old + 1 }
    ensures room { vec_capacity spans.old ≤ vec_capacity spans.new }
{
    if file.stripes > 0 {
        let span = Span {
            first: file.first,
            end: file.first + file.stripes,
            file: at,
        };
        put_span(spans, span);
    }
}

/// Puts a span at its place. There is room for it, and no other has one of its numbers.
fn put_span(spans: &mut Vec<Span>, span: Span)
    requires room { vec_len spans.old < vec_capacity spans.old }
    requires spread { IsSpread 0 END_OF_STRIPES spans.old.items }
    requires some { span.first < span.end }
    requires below { span.end ≤ END_OF_STRIPES }
    requires fresh { (s : ℕ) → span.first ≤ s → s < span.end → find (covers s) spans.old.items ≡ None }
    ensures spread { IsSpread 0 END_OF_STRIPES spans.new.items }
    ensures found { (s : ℕ) → find (covers s) spans.new.items ≡ (if covers s span then Some span else find (covers s) spans.old.items) }
    ensures files { (n : ℕ) → span.file < n → All (λ x. x.file < n) spans.old.items → All (λ x. x.file < n) spans.new.items }
    ensures total { spanned spans.new.items ≡ spanned spans.old.items + (span.end - span.first) }
    ensures len { vec_len spans.new ≡ vec_len spans.old + 1 }
    ensures room { vec_capacity spans.old ≤ vec_capacity spans.new }
{
    let at = ended_by(spans, span.first);
    let put: Result<_, _> = spans.insert(at, span);
    let _ = put.unwrap();
}
