//! Which files are logs, by their beginning.
ghost use Rattle.std.specs.Prelude.{Decides, IfOk};
ghost use Rattle.qa_logs.specs.Files.{Has, HasKeyOfLogs, IsLog};

use memchr::memmem;
use qa_qlog::{Kind, NoLog, kind_of};
use std::alloc::{AllocError, Global};

/// Whether a file that begins with these bytes is a log, and so no trace: by its first line, or if
/// it may be one object, by a key that only logs have.
///
/// `AllocError` comes if it is out of memory, which only a first line takes that is JSON.
pub fn is_log(alloc: Global, beginning: &[u8]) -> Result<bool, AllocError>
    ensures { IfOk result (λ log. Decides log (IsLog beginning.now)) }
{
    match kind_of(alloc, beginning) {
        Ok(Kind::TextSequence | Kind::Lines | Kind::Netlog) => Ok(true),
        Ok(Kind::Document) => Ok(has_key_of_logs(beginning)),
        Err(NoLog::OutOfMemory) => Err(AllocError),
        Err(_) => Ok(false),
    }
}

/// Whether a key that only logs have at their beginning is somewhere in the bytes.
fn has_key_of_logs(bytes: &[u8]) -> bool
    ensures { Decides result (HasKeyOfLogs bytes.now) }
{
    has(bytes, b"\"qlog_version\"")
        || has(bytes, b"\"qlog_format\"")
        || has(bytes, b"\"file_schema\"")
        || has(bytes, b"\"traces\"")
}

/// Whether the text is somewhere in the bytes.
pub(crate) fn has(bytes: &[u8], text: &[u8]) -> bool
    ensures { Decides result (Has bytes.now text.now) }
{
    memmem::find(bytes, text).is_some()
}
