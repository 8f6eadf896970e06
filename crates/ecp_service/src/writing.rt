ghost use Rattle.ecp_service.specs.Sinks.{Appends, Delivers};

use ecp_store::{Failed, Sink};

/// Appends the whole text. After a failure the sink has a beginning of it.
pub(crate) fn push_all<W: Sink>(sink: &mut W, text: &[u8]) -> Result<(), Failed>
    ensures { Appends W.Sink result sink.old sink.new text.now }
{
    let mut pushed = 0;
    while pushed < text.len() {
        pushed += sink.push(&text[pushed..])?;
    }
    Ok(())
}

/// Appends the whole text and flushes it. After a failure the sink has a beginning of it.
pub(crate) fn write_all<W: Sink>(sink: &mut W, text: &[u8]) -> Result<(), Failed>
    ensures { Delivers W.Sink result sink.old sink.new text.now }
{
    push_all(sink, text)?;
    sink.flush()
}
