//! The lines that a table is printed as.

ghost use Rattle.std.specs.Prelude.{◌≡◌, ◌+◌, ◌<◌, ◌≤◌, ◌++◌, true, false, [], not, length, map, position, IfOk, OnErr, OnOk};
ghost use Rattle.std.specs.List.{list_all};
ghost use Rattle.std.specs.Vec.{vec_len, vec_capacity};
ghost use Rattle.std.specs.Io.KnownBytes.{Appends};
ghost use Rattle.streams.specs.State.{LosesRest, TakesFront};
ghost use Rattle.table_lines.specs.Lines.{is_unescaped, hex_digit, printed_byte, printed, line, lines, EndsOnce};
ghost use Rattle.table_lines.specs.Output.{Sends, SendsAllBut};

use std::alloc::Allocator;
use std::io::Write;
use streams::{Failed, Sink};

/// The room that a buffer before a sink wants, in bytes.
pub const BUFFER_SIZE: usize = 65536;

/// Whether a byte is printed as it is.
#[inline(always)]
fn is_unescaped(byte: u8) -> bool
    ensures { result ≡ is_unescaped byte }
{
    matches!(byte, 0x21..=0x7e) && byte != b'%' && byte != b'='
}

/// The upper-case hexadecimal digit of a number below sixteen.
fn hex_digit(digit: u8) -> u8
    requires { digit < 16 }
    ensures { result ≡ hex_digit digit }
{
    if digit < 10 {
        b'0' + digit
    } else {
        b'A' - 10 + digit
    }
}

/// Whether all of the bytes are printed as they are.
fn are_unescaped(bytes: &[u8]) -> bool
    ensures { result ≡ list_all is_unescaped bytes.now }
{
    let mut so_far = true;
    // It doesn't end early, so that the processor tests many bytes at once.
    for byte in bytes {
        so_far &= is_unescaped(*byte);
    }
    so_far
}

/// The index of the first byte that is escaped.
fn first_escaped(bytes: &[u8]) -> Option<usize>
    ensures { result ≡ position (λ byte. not (is_unescaped byte)) bytes.now }
{
    bytes.iter().position(|byte| !is_unescaped(*byte))
}

/// Hands what waits in the buffer to the sink, and empties the buffer. The sink isn't flushed, and one
/// that has failed before is not written.
///
/// # Errors
///
/// A write failed, now or before. The sink took a front of what waited, not all.
pub fn pass_on<A: Allocator, W: Write>(
    buffer: &mut Vec<u8, A>,
    sink: &mut Sink<W>,
) -> Result<(), Failed>
    ensures writes_all { OnOk result
        (Appends sink.old.taken sink.new.taken buffer.old.items) }
    ensures empties_buffer { OnOk result (buffer.new.items ≡ []) }
    ensures keeps_room { vec_capacity buffer.new ≡ vec_capacity buffer.old }
    ensures loses_rest { OnErr result
        (LosesRest sink.old.taken sink.new.taken buffer.old.items) }
    ensures keeps_flag { OnOk result (sink.new.failed ≡ sink.old.failed) }
    ensures sets_flag { OnErr result (sink.new.failed ≡ true) }
{
    sink.send(buffer)?;
    buffer.clear();
    Ok(())
}

/// Puts bytes into the room that the buffer has.
fn collect<A: Allocator>(buffer: &mut Vec<u8, A>, bytes: &[u8])
    requires { vec_len buffer.old + length bytes.now ≤ vec_capacity buffer.old }
    ensures { buffer.new.items ≡ buffer.old.items ++ bytes.now }
{
    // There is room for them.
    let _ = buffer.extend_from_slice(bytes);
}

/// Puts bytes behind those that wait in the buffer. Where there is no room, those that wait go to
/// the sink first; what the buffer can't hold goes to the sink itself. Takes no memory.
///
/// # Errors
///
/// A write failed, now or before. The sink took a front of what waited and of the bytes behind
/// it, not all.
#[tactic(auto, using(crate::proofs::Sending::front_waited, crate::proofs::Sending::lost_past))]
pub fn put<A: Allocator, W: Write>(
    buffer: &mut Vec<u8, A>,
    sink: &mut Sink<W>,
    bytes: &[u8],
) -> Result<(), Failed>
    ensures sends { OnOk result (Sends sink.old.taken sink.new.taken
        buffer.old.items buffer.new.items bytes.now) }
    ensures loses_rest { OnErr result (LosesRest sink.old.taken sink.new.taken
        (buffer.old.items ++ bytes.now)) }
    ensures keeps_flag { OnOk result (sink.new.failed ≡ sink.old.failed) }
    ensures sets_flag { OnErr result (sink.new.failed ≡ true) }
{
    if bytes.len() <= buffer.capacity() - buffer.len() {
        collect(buffer, bytes);
        return Ok(());
    }
    pass_on(buffer, sink)?;
    if bytes.len() > buffer.capacity() {
        return sink.send(bytes);
    }
    collect(buffer, bytes);
    Ok(())
}

/// Puts `%` and a byte's two digits.
fn put_escape<A: Allocator, W: Write>(
    buffer: &mut Vec<u8, A>,
    sink: &mut Sink<W>,
    byte: u8,
) -> Result<(), Failed>
    requires { is_unescaped byte ≡ false }
    ensures sends { OnOk result (Sends sink.old.taken sink.new.taken
        buffer.old.items buffer.new.items (printed_byte byte)) }
    ensures loses_rest { OnErr result (LosesRest sink.old.taken sink.new.taken
        (buffer.old.items ++ printed_byte byte)) }
    ensures keeps_flag { OnOk result (sink.new.failed ≡ sink.old.failed) }
    ensures sets_flag { OnErr result (sink.new.failed ≡ true) }
{
    put(
        buffer,
        sink,
        &[b'%', hex_digit(byte / 16), hex_digit(byte % 16)],
    )
}

/// Puts the unescaped bytes at the front, and the escape of the byte behind them, if there is one.
/// Gives the bytes that are left.
fn put_run<'a, A: Allocator, W: Write>(
    buffer: &mut Vec<u8, A>,
    sink: &mut Sink<W>,
    bytes: &'a [u8],
) -> Result<&'a [u8], Failed>
    requires { 0 < length bytes.now }
    ensures sends { IfOk result (λ rest. SendsAllBut sink.old.taken sink.new.taken
        buffer.old.items buffer.new.items (printed rest.now) (printed bytes.now)) }
    ensures shorter { IfOk result (λ rest. length rest.now < length bytes.now) }
    ensures loses_rest { OnErr result (LosesRest sink.old.taken sink.new.taken
        (buffer.old.items ++ printed bytes.now)) }
    ensures keeps_flag { OnOk result (sink.new.failed ≡ sink.old.failed) }
    ensures sets_flag { OnErr result (sink.new.failed ≡ true) }
{
    let Some(escaped) = first_escaped(bytes) else {
        put(buffer, sink, bytes)?;
        return Ok(&bytes[bytes.len()..]);
    };
    put(buffer, sink, &bytes[..escaped])?;
    put_escape(buffer, sink, bytes[escaped])?;
    Ok(&bytes[escaped + 1..])
}

/// Puts the printed form of the bytes.
fn put_printed<A: Allocator, W: Write>(
    buffer: &mut Vec<u8, A>,
    sink: &mut Sink<W>,
    bytes: &[u8],
) -> Result<(), Failed>
    ensures sends { OnOk result (Sends sink.old.taken sink.new.taken
        buffer.old.items buffer.new.items (printed bytes.now)) }
    ensures loses_rest { OnErr result (LosesRest sink.old.taken sink.new.taken
        (buffer.old.items ++ printed bytes.now)) }
    ensures keeps_flag { OnOk result (sink.new.failed ≡ sink.old.failed) }
    ensures sets_flag { OnErr result (sink.new.failed ≡ true) }
{
    if are_unescaped(bytes) {
        return put(buffer, sink, bytes);
    }
    let mut rest = bytes;
    while !rest.is_empty() {
        rest = put_run(buffer, sink, rest)?;
    }
    Ok(())
}

/// Puts the line of a key and its value, as [`put`] puts bytes.
///
/// # Errors
///
/// A write failed, now or before. The sink took a front of what waited and of the line behind
/// it, not all.
pub fn put_line<A: Allocator, W: Write>(
    buffer: &mut Vec<u8, A>,
    sink: &mut Sink<W>,
    key: &[u8],
    value: &[u8],
) -> Result<(), Failed>
    ensures sends { OnOk result (Sends sink.old.taken sink.new.taken
        buffer.old.items buffer.new.items (line (key.now, value.now))) }
    ensures loses_rest { OnErr result (LosesRest sink.old.taken sink.new.taken
        (buffer.old.items ++ line (key.now, value.now))) }
    ensures keeps_flag { OnOk result (sink.new.failed ≡ sink.old.failed) }
    ensures sets_flag { OnErr result (sink.new.failed ≡ true) }
{
    put_printed(buffer, sink, key)?;
    put(buffer, sink, b"=")?;
    put_printed(buffer, sink, value)?;
    put(buffer, sink, b"\n")
}

/// A law, which does nothing: whatever the key and the value, a line has no line feed but its last
/// byte, so the lines of a table can be told apart.
pub fn line_ends_once(key: &[u8], value: &[u8])
    ensures ends_once { EndsOnce (line (key.now, value.now)) }
{}

/// Writes what waits in the buffer and the line of each row behind it, and flushes the sink. The lines
/// go through the buffer, which never grows and is empty afterwards.
///
/// # Errors
///
/// A write or the flush failed, now or before. The sink took a front of what waited and of the lines
/// behind it, perhaps all.
pub fn write_lines<A: Allocator, W: Write>(
    buffer: &mut Vec<u8, A>,
    sink: &mut Sink<W>,
    rows: &[(&[u8], &[u8])],
) -> Result<(), Failed>
    ensures writes_all { OnOk result (Appends sink.old.taken sink.new.taken
        (buffer.old.items ++ lines (map (λ row. (row.0.now, row.1.now)) rows.now))) }
    ensures empties_buffer { OnOk result (buffer.new.items ≡ []) }
    ensures writes_front { OnErr result (TakesFront sink.old.taken sink.new.taken
        (buffer.old.items ++ lines (map (λ row. (row.0.now, row.1.now)) rows.now))) }
    ensures keeps_flag { OnOk result (sink.new.failed ≡ sink.old.failed) }
    ensures fails_nothing { OnOk result (sink.new.failed ≡ false) }
    ensures sets_flag { OnErr result (sink.new.failed ≡ true) }
{
    for (key, value) in rows {
        put_line(buffer, sink, key, value)?;
    }
    pass_on(buffer, sink)?;
    sink.finish()
}
