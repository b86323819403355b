//! What is told of a trace, each once.
ghost use Rattle.std.specs.Prelude.{◌≡◌, ◌≤◌, ◌<◌, ◌++◌, [], ◌∷◌, ℕ, List, bytes_eq, length, map};
ghost use Rattle.std.specs.Prelude.{nat_le, OnOk, string_bytes};
ghost use Rattle.std.specs.List.{list_any};
ghost use Rattle.qa_why_command.specs.warnings.Found.{Found, HeaderKey, LargePacket, MetricsKey};
ghost use Rattle.qa_why_command.specs.warnings.Found.{at, of_header, of_metrics, of_packet};
ghost use Rattle.qa_why_command.specs.warnings.Keeping.{Tells};
ghost use Rattle.qa_why_command.specs.warnings.Warnings.{most_warnings};

use crate::warnings::strange::strange_keys;
use crate::warnings::texts::{push_head, push_header_key, push_metrics_key, push_packet};
use qa_base::{Event, LineKind, Version};
use std::alloc::{AllocError, Global};

/// The most warnings of a trace.
const MOST_WARNINGS: u64 = 100;

/// What was told, and of what: the keys of metrics lines, and whether of a packet.
#[derive(Drop)]
pub(crate) struct Told {
    alloc: Global,
    pub(crate) text: Vec<u8>,
    count: u64,
    keys: Vec<String>,
    has_packet: bool,
}

impl Told {
    /// Nothing. Takes no memory.
    pub(crate) fn new(alloc: Global) -> Told
        ensures { (name : List ℕ) → Tells name result [] }
    {
        Told {
            alloc,
            text: Vec::new(alloc),
            count: 0,
            keys: Vec::new(alloc),
            has_packet: false,
        }
    }

    /// Whether no more is told.
    fn is_full(&self) -> bool
        ensures { result ≡ nat_le most_warnings self.now.count }
    {
        MOST_WARNINGS <= self.count
    }

    /// Whether this key of a metrics line was told.
    fn has_key(&self, key: &str) -> bool
        ensures { result ≡ list_any
            (λ told. bytes_eq (string_bytes told) key.now) self.now.keys.items }
    {
        self.keys.iter().any(|told| told.as_str() == key)
    }

    // ---- one

    /// Tells of a key of the header on line n.
    fn tell_header_key(
        &mut self,
        name: &str,
        n: u64,
        version: Version,
        key: &str,
    ) -> Result<(), AllocError>
        ensures { OnOk result ((fs : List Found) → Tells name.now self.old fs
            → Tells name.now self.new (fs ++ at n (HeaderKey version key.now) ∷ [])) }
    {
        if self.is_full() {
            return Ok(());
        }
        push_head(self.alloc, &mut self.text, name, n)?;
        push_header_key(self.alloc, &mut self.text, version, key)?;
        self.count += 1;
        Ok(())
    }

    /// Tells of a key of the metrics line n, unless it was told.
    fn tell_metrics_key(
        &mut self,
        name: &str,
        n: u64,
        version: Version,
        key: &String,
    ) -> Result<(), AllocError>
        ensures { OnOk result ((fs : List Found) → Tells name.now self.old fs
            → Tells name.now self.new
            (fs ++ at n (MetricsKey version (string_bytes key.now)) ∷ [])) }
    {
        if self.is_full() {
            return Ok(());
        }
        if self.has_key(key.as_str()) {
            return Ok(());
        }
        push_head(self.alloc, &mut self.text, name, n)?;
        push_metrics_key(self.alloc, &mut self.text, version, key.as_str())?;
        self.keys.push(key.clone()?)?;
        self.count += 1;
        Ok(())
    }

    /// Tells of the packet on line n that has so many bytes, which are more than these, unless one
    /// was told.
    pub(crate) fn tell_packet(
        &mut self,
        name: &str,
        n: u64,
        event: &Event,
        size: u64,
        most: u64,
    ) -> Result<(), AllocError>
        ensures { OnOk result ((fs : List Found) → Tells name.now self.old fs
            → Tells name.now self.new (fs ++ at n (LargePacket event.now size most) ∷ [])) }
    {
        if self.is_full() {
            return Ok(());
        }
        if self.has_packet {
            return Ok(());
        }
        push_head(self.alloc, &mut self.text, name, n)?;
        push_packet(self.alloc, &mut self.text, event, size, most)?;
        self.has_packet = true;
        self.count += 1;
        Ok(())
    }

    // ---- all of a line

    /// Tells of the keys of the header on line n that do nothing.
    pub(crate) fn tell_header(
        &mut self,
        name: &str,
        n: u64,
        version: Version,
        line: &[u8],
    ) -> Result<(), AllocError>
        ensures { OnOk result ((fs : List Found) → Tells name.now self.old fs
            → Tells name.now self.new (fs ++ map (at n) (of_header version line.now))) }
    {
        if self.is_full() {
            return Ok(());
        }
        let keys = strange_keys(self.alloc, version, LineKind::Header, line)?;
        for key in &keys {
            self.tell_header_key(name, n, version, key.as_str())?;
        }
        Ok(())
    }

    /// Tells of the keys of the metrics line n that do nothing.
    pub(crate) fn tell_metrics(
        &mut self,
        name: &str,
        n: u64,
        version: Version,
        line: &[u8],
    ) -> Result<(), AllocError>
        ensures { OnOk result ((fs : List Found) → Tells name.now self.old fs
            → Tells name.now self.new (fs ++ map (at n) (of_metrics version line.now))) }
    {
        if self.is_full() {
            return Ok(());
        }
        let keys = strange_keys(self.alloc, version, LineKind::Metrics, line)?;
        for key in &keys {
            self.tell_metrics_key(name, n, version, key)?;
        }
        Ok(())
    }
}
