//! What the first bytes of a file may be that is no trace.
ghost use Rattle.std.specs.Prelude.{◌≡◌};
ghost use Rattle.qa_why.specs.Hints as text;

/// Whether the bytes begin with these.
fn begins(line: &[u8], part: &[u8]) -> bool
    ensures { result ≡ text.begins line.now part.now }
{
    line.starts_with(part)
}

/// Whether these stand among the bytes.
#[tactic(auto, using(crate::proofs::Among::has_here, crate::proofs::Among::has_later))]
fn has(line: &[u8], part: &[u8]) -> bool
    ensures { result ≡ text.has line.now part.now }
{
    for at in 0..line.len() {
        if begins(&line[at..], part) {
            return true;
        }
    }
    false
}

fn is_utf16(line: &[u8]) -> bool
    ensures { result ≡ text.is_utf16 line.now }
{
    begins(line, b"\xff\xfe") || begins(line, b"\xfe\xff") || has(line, b"\0")
}

fn is_qlog(line: &[u8]) -> bool
    ensures { result ≡ text.is_qlog line.now }
{
    has(line, b"\"qlog_version\"") || has(line, b"\"qlog_format\"") || has(line, b"\"file_schema\"")
}

/// Whether an object begins on the line, and does not end there.
fn is_opened(line: &[u8]) -> bool
    ensures { result ≡ text.is_opened line.now }
{
    begins(line, b"{") && !has(line, b"}")
}

/// What the line may be, which cannot be read and stands before any header; empty where it shows
/// nothing of that.
#[tactic(auto, unfolding(crate::specs::Hints::hint))]
pub fn hint(line: &[u8]) -> &'static str
    ensures { result.now ≡ text.hint line.now }
{
    if begins(line, b"\x1f\x8b") {
        return "  Hint: the file is compressed by gzip. Use zcat FILE | qaudit-why for a trace, zcat FILE | qlog-to-trace | qaudit-why for a qlog.\n";
    }
    if begins(line, b"\x28\xb5\x2f\xfd") {
        return "  Hint: the file is compressed by zstd. Use zstdcat FILE | qaudit-why for a trace, zstdcat FILE | qlog-to-trace | qaudit-why for a qlog.\n";
    }
    if begins(line, b"\xfd7zXZ\0") {
        return "  Hint: the file is compressed by xz. Use xzcat FILE | qaudit-why for a trace, xzcat FILE | qlog-to-trace | qaudit-why for a qlog.\n";
    }
    if begins(line, b"\xef\xbb\xbf") {
        return "  Hint: the file begins with a byte order mark; leave it out.\n";
    }
    if begins(line, b"\x1e") {
        return "  Hint: the file is a JSON text sequence (RFC 7464), as qlog writes; qlog-to-trace reads it.\n";
    }
    if is_qlog(line) {
        return "  Hint: the file is a qlog file; qlog-to-trace makes traces of it.\n";
    }
    if is_utf16(line) {
        return "  Hint: the file seems to be UTF-16; write it as UTF-8.\n";
    }
    if begins(line, b"[") {
        return "  Hint: the file is a JSON array; a trace has one object on each line.\n";
    }
    if is_opened(line) {
        return "  Hint: the object goes over several lines; a trace has one on each line.\n";
    }
    ""
}
