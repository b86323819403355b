//! The text of a warning.
ghost use Rattle.std.specs.Prelude.{◌≡◌, ◌++◌, IfOk, OnOk, string_bytes};
ghost use Rattle.qa_why_command.specs.warnings.Found.{HeaderKey, LargePacket, MetricsKey};
ghost use Rattle.qa_why_command.specs.warnings.Texts as text;

use qa_base::{Event, Key, LineKind, Version};
use qa_check::shown_name;
use qa_explain::text::{push_name, push_number, push_subject, push_words};
use qa_why::{extend, first_bytes, is_key, near, printed};
use std::alloc::{AllocError, Global};

/// What stands behind the name of the file.
#[tactic(auto, unfolding(crate::specs::warnings::Texts::head_tail))]
fn head_tail(alloc: Global, n: u64) -> Result<String, AllocError>
    ensures { IfOk result (λ tail. string_bytes tail ≡ text.head_tail n) }
{
    let mut tail = String::new(alloc);
    push_number(&mut tail, ":", n)?;
    push_words(&mut tail, ": warning: ")?;
    Ok(tail)
}

/// Appends the name of the file, and the line. `AllocError` comes where it is out of memory, here
/// and in all that append.
#[tactic(auto, unfolding(crate::specs::warnings::Texts::head))]
pub fn push_head(alloc: Global, out: &mut Vec<u8>, name: &str, n: u64) -> Result<(), AllocError>
    ensures { OnOk result (out.new.items ≡ out.old.items ++ text.head name.now n) }
{
    let shown = shown_name(alloc, name)?;
    let tail = head_tail(alloc, n)?;
    extend(out, &shown)?;
    extend(out, tail.as_bytes())
}

// ---- of a key

/// The most bytes of a key that are shown.
const SHOWN_OF_KEY: usize = 40;

/// Appends some words and then a key.
#[tactic(auto, unfolding(crate::specs::warnings::Texts::shown_key))]
fn push_key(alloc: Global, out: &mut Vec<u8>, words: &str, key: &str) -> Result<(), AllocError>
    ensures { OnOk result (out.new.items ≡ out.old.items ++ text.shown_key words.now key.now) }
{
    let shown = printed(alloc, first_bytes(key.as_bytes(), SHOWN_OF_KEY))?;
    extend(out, words.as_bytes())?;
    extend(out, &shown)
}

/// The key that is meant, if one is near.
#[tactic(auto, unfolding(crate::specs::warnings::Texts::question))]
fn question(alloc: Global, meant: Option<Key>) -> Result<String, AllocError>
    ensures { IfOk result (λ question. string_bytes question ≡ text.question meant) }
{
    let mut question = String::new(alloc);
    match meant {
        None => push_words(&mut question, "\n")?,
        Some(key) => {
            push_name(&mut question, "; is it ", key.name())?;
            push_words(&mut question, "?\n")?;
        }
    }
    Ok(question)
}

/// That the key does nothing in this version, which a later one has.
#[tactic(auto, unfolding(crate::specs::warnings::Texts::not_yet))]
fn not_yet(alloc: Global, version: Version) -> Result<String, AllocError>
    ensures { IfOk result (λ effect. string_bytes effect ≡ text.not_yet version) }
{
    let mut effect = String::new(alloc);
    push_number(
        &mut effect,
        ", which does nothing in version ",
        version.number(),
    )?;
    push_words(&mut effect, "\n")?;
    Ok(effect)
}

/// Appends that the key does nothing.
#[tactic(auto, unfolding(crate::specs::warnings::Texts::nothing))]
fn push_nothing(
    alloc: Global,
    out: &mut Vec<u8>,
    version: Version,
    kind: LineKind,
    key: &str,
) -> Result<(), AllocError>
    ensures { OnOk result (out.new.items ≡ out.old.items ++ text.nothing version kind key.now) }
{
    let question = question(alloc, near(alloc, version, kind, key)?)?;
    extend(out, b", which does nothing")?;
    extend(out, question.as_bytes())
}

/// Appends what the key of a line does.
#[tactic(auto, unfolding(crate::specs::warnings::Texts::effect))]
fn push_effect(
    alloc: Global,
    out: &mut Vec<u8>,
    version: Version,
    kind: LineKind,
    key: &str,
) -> Result<(), AllocError>
    ensures { OnOk result (out.new.items ≡ out.old.items ++ text.effect version kind key.now) }
{
    if is_key(Version::Three, kind, key) {
        let effect = not_yet(alloc, version)?;
        return extend(out, effect.as_bytes());
    }
    push_nothing(alloc, out, version, kind, key)
}

/// Appends that the header has this key, which does nothing.
pub fn push_header_key(
    alloc: Global,
    out: &mut Vec<u8>,
    version: Version,
    key: &str,
) -> Result<(), AllocError>
    ensures { OnOk result (out.new.items
        ≡ out.old.items ++ text.sentence (HeaderKey version key.now)) }
{
    push_key(alloc, out, "the header has a key ", key)?;
    push_effect(alloc, out, version, LineKind::Header, key)
}

/// Appends that a metrics line has this key, which does nothing.
pub fn push_metrics_key(
    alloc: Global,
    out: &mut Vec<u8>,
    version: Version,
    key: &str,
) -> Result<(), AllocError>
    ensures { OnOk result (out.new.items
        ≡ out.old.items ++ text.sentence (MetricsKey version key.now)) }
{
    push_key(alloc, out, "a metrics line has a key ", key)?;
    push_effect(alloc, out, version, LineKind::Metrics, key)
}

// ---- of a packet

/// That a packet has so many bytes, which are more than these.
#[tactic(auto, unfolding(crate::specs::warnings::Texts::packet_text))]
fn packet_text(alloc: Global, event: &Event, size: u64, most: u64) -> Result<String, AllocError>
    ensures { IfOk result (λ told. string_bytes told ≡ text.packet_text event.now size most) }
{
    let mut told = String::new(alloc);
    push_subject(&mut told, event)?;
    push_number(&mut told, " has ", size)?;
    push_number(&mut told, " bytes, more than max_datagram_size ", most)?;
    push_words(&mut told, "\n")?;
    Ok(told)
}

/// Appends that a packet has so many bytes, which are more than these.
pub fn push_packet(
    alloc: Global,
    out: &mut Vec<u8>,
    event: &Event,
    size: u64,
    most: u64,
) -> Result<(), AllocError>
    ensures { OnOk result (out.new.items
        ≡ out.old.items ++ text.sentence (LargePacket event.now size most)) }
{
    let told = packet_text(alloc, event, size, most)?;
    extend(out, told.as_bytes())
}
