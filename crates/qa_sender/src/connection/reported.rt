//! The window that the sender reports, and what it may be behind persistent congestion (RFC 9002,
//! section 7.6.2).
ghost use Rattle.std.specs.Prelude.{◌≡◌, [], fold};
ghost use Rattle.qa_sender.specs.connection.Reporting as steps;

use qa_base::Header;
use qa_sent_packets::SentPacket;

/// What is kept of the windows that the sender reports.
#[derive(Clone, Copy)]
pub struct ReportedWindow {
    /// The last of them, in bytes; before any, the header's initial window.
    pub window: u64,
    /// The bytes in flight that were newly acknowledged since persistent congestion was last
    /// established; None without it, or where another window was reported since.
    pub acknowledged: Option<u64>,
}

impl ReportedWindow {
    /// Before any event.
    pub(crate) fn start(header: &Header) -> ReportedWindow
        ensures { result ≡ steps.reported_after header.now [] }
    {
        ReportedWindow {
            window: header.initial_window(),
            acknowledged: None,
        }
    }

    /// Persistent congestion was established or not, by a detection that newly acknowledged so many
    /// bytes in flight.
    pub(crate) fn on_persistent_congestion(&mut self, is_persistent: bool, acknowledged: u64)
        ensures { self.new ≡ steps.collapsed_with acknowledged is_persistent self.old }
    {
        if is_persistent {
            self.acknowledged = Some(acknowledged);
        }
    }

    /// These packets were newly acknowledged.
    pub(crate) fn acknowledge(&mut self, packets: &[SentPacket])
        ensures { self.new ≡ steps.acknowledging packets.now self.old }
    {
        if let Some(before) = self.acknowledged {
            self.acknowledged = Some(with_all(before, packets));
        }
    }

    /// The sender reported this window, where it reported one.
    pub(crate) fn report(&mut self, window: Option<u64>)
        ensures { self.new ≡ steps.reporting window self.old }
    {
        let Some(window) = window else {
            return;
        };
        if window != self.window {
            *self = ReportedWindow {
                window,
                acknowledged: None,
            };
        }
    }
}

/// So many bytes with those of a packet, where it is in flight.
fn with_bytes(bytes: u64, packet: &SentPacket) -> u64
    ensures { result ≡ steps.with_bytes bytes packet.now }
{
    if packet.in_flight {
        bytes.saturating_add(packet.size)
    } else {
        bytes
    }
}

/// So many bytes with those of all packets that are in flight.
pub(crate) fn with_all(before: u64, packets: &[SentPacket]) -> u64
    ensures { result ≡ fold steps.with_bytes before packets.now }
{
    let mut bytes = before;
    for packet in packets {
        bytes = with_bytes(bytes, packet);
    }
    bytes
}
