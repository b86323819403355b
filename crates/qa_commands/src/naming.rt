//! Lines that end in the name of a file, and texts of several lines.
ghost use Rattle.std.specs.Prelude.{◌≡◌, true, is_err, flat_map};
ghost use Rattle.qa_commands.specs.Names.{is_hidden_in_lines, line_with};
ghost use Rattle.qa_commands.specs.Names.{shown_in_lines, shown_lines};
ghost use Rattle.qa_check.specs.names.Names as names;
ghost use Rattle.qa_check.specs.names.Names.{shown_character, shown_name};
ghost use Rattle.qa_commands.specs.Writes.{Writes};

use qa_check::{AuditFault, Sink, escaped, is_hidden, write_whole};

/// Writes a line: what it begins with, a name as it is shown, and LF. Takes no memory.
pub fn write_line<S: Sink>(beginning: &str, name: &str, sink: &mut S) -> Result<(), AuditFault>
    ensures { Writes (is_err result) (S.held sink.old) (S.held sink.new)
        (S.write_failures sink.old) (S.write_failures sink.new)
        (line_with beginning.now name.now) }
{
    write_bytes(beginning.as_bytes(), sink)?;
    write_name(name, sink)?;
    write_bytes(b"\n", sink)
}

/// Writes the name of a file so that it cannot pass for other lines.
fn write_name<S: Sink>(name: &str, sink: &mut S) -> Result<(), AuditFault>
    ensures { Writes (is_err result) (S.held sink.old) (S.held sink.new)
        (S.write_failures sink.old) (S.write_failures sink.new) (shown_name name.now) }
{
    if is_shown_as_it_is(name) {
        return write_bytes(name.as_bytes(), sink);
    }
    for character in name.chars() {
        write_character(character, sink)?;
    }
    Ok(())
}

/// Whether no character of a name is hidden. Most names are written in one piece.
fn is_shown_as_it_is(name: &str) -> bool
    ensures { result ≡ true → shown_name name.now ≡ name.now }
{
    !name.chars().any(|character| is_hidden(character))
}

/// Writes a character as names show it.
fn write_character<S: Sink>(character: char, sink: &mut S) -> Result<(), AuditFault>
    ensures { Writes (is_err result) (S.held sink.old) (S.held sink.new)
        (S.write_failures sink.old) (S.write_failures sink.new) (shown_character character) }
{
    let mut buffer = [0u8; 4];
    let bytes = character.encode_utf8(&mut buffer).as_bytes();
    if is_hidden(character) {
        write_escaped(bytes, sink)
    } else {
        write_bytes(bytes, sink)
    }
}

/// Writes a text of several lines, each hidden character but LF by its bytes. Takes no memory.
pub fn write_lines<S: Sink>(text: &str, sink: &mut S) -> Result<(), AuditFault>
    ensures { Writes (is_err result) (S.held sink.old) (S.held sink.new)
        (S.write_failures sink.old) (S.write_failures sink.new) (shown_lines text.now) }
{
    if are_shown_as_they_are(text) {
        return write_bytes(text.as_bytes(), sink);
    }
    for character in text.chars() {
        write_in_lines(character, sink)?;
    }
    Ok(())
}

/// Whether no character of a text of several lines is hidden. Most are written in one piece.
fn are_shown_as_they_are(text: &str) -> bool
    ensures { result ≡ true → shown_lines text.now ≡ text.now }
{
    !text.chars().any(|character| is_hidden_in_lines(character))
}

/// Whether a character is hidden, where LF ends a line.
fn is_hidden_in_lines(character: char) -> bool
    ensures { result ≡ is_hidden_in_lines character }
{
    is_hidden(character) && character != '\n'
}

/// Writes a character of a text of several lines.
fn write_in_lines<S: Sink>(character: char, sink: &mut S) -> Result<(), AuditFault>
    ensures { Writes (is_err result) (S.held sink.old) (S.held sink.new)
        (S.write_failures sink.old) (S.write_failures sink.new) (shown_in_lines character) }
{
    let mut buffer = [0u8; 4];
    let bytes = character.encode_utf8(&mut buffer).as_bytes();
    if is_hidden_in_lines(character) {
        write_escaped(bytes, sink)
    } else {
        write_bytes(bytes, sink)
    }
}

/// Writes each byte as `\x` and two digits of base 16.
fn write_escaped<S: Sink>(bytes: &[u8], sink: &mut S) -> Result<(), AuditFault>
    ensures { Writes (is_err result) (S.held sink.old) (S.held sink.new)
        (S.write_failures sink.old) (S.write_failures sink.new)
        (flat_map names.escaped bytes.now) }
{
    for byte in bytes {
        write_bytes(&escaped(*byte), sink)?;
    }
    Ok(())
}

/// Writes all of the bytes.
fn write_bytes<S: Sink>(bytes: &[u8], sink: &mut S) -> Result<(), AuditFault>
    ensures { Writes (is_err result) (S.held sink.old) (S.held sink.new)
        (S.write_failures sink.old) (S.write_failures sink.new) bytes.now }
{
    write_whole(sink, bytes)
}
