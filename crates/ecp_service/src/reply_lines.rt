ghost use Rattle.std.specs.Prelude.{◌≡◌, ◌≤◌, ◌++◌, [], codes, length, take};
ghost use Rattle.hex.specs.Hex.{encode_lower};
ghost use Rattle.ecp_entry.specs.ReplyText.{reply_line, reply_start};
ghost use Rattle.ecp_entry.specs.declared.reply.Reply.TheVariants as reply;
ghost use Rattle.ecp_service.specs.Sinks.{Writes};

use crate::buffer::Buffer;
use ecp_history::{Reply, put_reply};
use ecp_store::{Failed, Sink};
use ecp_text::LineBuffer;
use ecp_text::bytes::LINE_ROOM;
use hex::encode_to_slice;

/// How many bytes are put into hexadecimal at once.
const PIECE: usize = 256;

/// Puts bytes in lower-case hexadecimal into the front of `out`, and answers where they end.
fn put_hex(bytes: &[u8], out: &mut [u8; LINE_ROOM]) -> usize
    requires { length bytes.now ≤ PIECE }
    ensures short { result ≤ LINE_ROOM }
    ensures text { take result out.new ≡ encode_lower bytes.now }
{
    let end = 2 * bytes.len();
    encode_to_slice(bytes, &mut out[..end]).unwrap();
    end
}

/// Writes bytes in lower-case hexadecimal.
fn write_hex<W: Sink>(buffer: &mut Buffer, out: &mut W, bytes: &[u8]) -> Result<(), Failed>
    ensures { Writes W.Sink result (out.old, buffer.old) (out.new, buffer.new) (encode_lower bytes.now) }
{
    let mut text = [0; LINE_ROOM];
    let mut rest = bytes;
    while !rest.is_empty() {
        let (piece, behind) = rest.split_at(rest.len().min(PIECE));
        let end = put_hex(piece, &mut text);
        buffer.write(out, &text[..end])?;
        rest = behind;
    }
    Ok(())
}

/// Writes a reply line up to its hexadecimal, or with its line end where it has none.
pub(crate) fn write_start<W: Sink>(
    buffer: &mut Buffer,
    out: &mut W,
    reply: &Reply,
) -> Result<(), Failed>
    ensures { Writes W.Sink result (out.old, buffer.old) (out.new, buffer.new) (reply_start reply.now) }
{
    let mut text = LineBuffer::new();
    put_reply(&mut text, reply);
    buffer.write(out, text.bytes())
}

/// Writes a reply line that ends in hexadecimal: of these bytes.
fn write_with_hex<W: Sink>(
    buffer: &mut Buffer,
    out: &mut W,
    reply: &Reply,
    bytes: &[u8],
) -> Result<(), Failed>
    ensures { Writes W.Sink result (out.old, buffer.old) (out.new, buffer.new) (reply_start reply.now ++ (encode_lower bytes.now ++ codes "\n")) }
{
    write_start(buffer, out, reply)?;
    write_hex(buffer, out, bytes)?;
    buffer.write(out, b"\n")
}

/// Writes the reply line that answers the bytes of a block.
pub(crate) fn write_data<W: Sink>(
    buffer: &mut Buffer,
    out: &mut W,
    bytes: &[u8],
) -> Result<(), Failed>
    ensures { Writes W.Sink result (out.old, buffer.old) (out.new, buffer.new) (reply_line reply.Data bytes.now []) }
{
    write_with_hex(buffer, out, &Reply::Data, bytes)
}

/// Writes the reply line that answers the digest of a block.
pub(crate) fn write_sum<W: Sink>(
    buffer: &mut Buffer,
    out: &mut W,
    digest: &[u8; 32],
) -> Result<(), Failed>
    ensures { Writes W.Sink result (out.old, buffer.old) (out.new, buffer.new) (reply_line reply.Sum [] digest.now) }
{
    write_with_hex(buffer, out, &Reply::Sum, digest)
}

/// Writes the reply line that answers the length of a file, and its digest.
pub(crate) fn write_file<W: Sink>(
    buffer: &mut Buffer,
    out: &mut W,
    len: u32,
    digest: &[u8; 32],
) -> Result<(), Failed>
    ensures { Writes W.Sink result (out.old, buffer.old) (out.new, buffer.new) (reply_line (reply.File len) [] digest.now) }
{
    write_with_hex(buffer, out, &Reply::File { len }, digest)
}
