//! Open packets that nothing but an acknowledgment or a discard asks for: they may be set aside, so
//! that they keep none of the packets behind them.
ghost use Rattle.std.specs.Prelude.{◌≡◌, ◌≤◌, ◌<◌, ◌∷◌, ◌++◌, [], false, true, filter, length};
ghost use Rattle.std.specs.Prelude.{◌^◌, OnErr, OnOk};
ghost use Rattle.std.specs.List.{AllByRecursion};
ghost use Rattle.qa_base.specs.declared.space.Space.{Space as ASpace};
ghost use Rattle.qa_base.specs.machine.Numbers.{AreRanges};
ghost use Rattle.qa_base.specs.values.Events.{is_named};
ghost use Rattle.qa_base.specs.values.PerSpace.{of_space, with_space};
ghost use Rattle.qa_sent_packets.specs.Covering.{AreApart, is_between};
ghost use Rattle.qa_sent_packets.specs.Dropping.{is_shed};
ghost use Rattle.qa_sent_packets.specs.Fates.{is_closed, is_open_in};
ghost use Rattle.qa_sent_packets.specs.Naming.{turned};
ghost use Rattle.qa_sent_packets.specs.Strays.{NumbersRise, without, without_number};

use crate::named::NamedNumbers;
use crate::packet::SentPacket;
use crate::packets::SentPackets;
use qa_base::{PerSpace, Space, Span};
use std::alloc::{AllocError, Global};
use std::collections::BTreeMap;
use std::marker::Model;

/// The packets of a space that were set aside, by their numbers. Contracts see them as a list, in
/// which the numbers rise.
#[derive(Drop)]
pub(crate) struct Strays {
    packets: BTreeMap<u64, SentPacket>,
}

impl Model for Strays {
    ghost use Rattle.std.specs.Prelude.{List};
    ghost use Rattle.qa_sent_packets.specs.Strays.{AreFiled, filed};
    ghost use Rattle.qa_sent_packets.specs.declared.packet.SentPacket.{SentPacket as APacket};

    ghost Value = { List APacket };

    ghost view = { λ s. filed s.packets.entries };

    ghost invariant = { λ s. AreFiled s.packets.entries };
}

impl Strays {
    /// None. Takes no memory.
    pub(crate) fn new(alloc: Global) -> Strays
        ensures { result ≡ [] }
    {
        Strays {
            packets: BTreeMap::new(alloc),
        }
    }

    /// Lets go of all.
    pub(crate) fn clear(&mut self)
        ensures { self.new ≡ [] }
    {
        self.packets.clear();
    }

    /// How many they are.
    pub(crate) fn len(&self) -> usize
        ensures len { result ≡ length self.now }
        ensures small { result < 2 ^ 63 }
    {
        self.packets.len()
    }

    /// Puts a packet behind all others. `AllocError` comes where it is out of memory, and leaves
    /// them as they were.
    pub(crate) fn add(&mut self, packet: &SentPacket) -> Result<(), AllocError>
        requires { AllByRecursion (λ q. q.number < packet.now.number) self.old }
        ensures ok { OnOk result (self.new ≡ self.old ++ packet.now ∷ []) }
        ensures err { OnErr result (self.new ≡ self.old) }
    {
        self.packets.insert(packet.number.get(), *packet)?;
        Ok(())
    }

    /// Copies those that some span names behind those that were found. The spans rise, taken from
    /// the first to the last or, where they fall, from the last to the first. `AllocError` comes
    /// where it is out of memory.
    pub(crate) fn copy_named(
        &self,
        spans: &[Span],
        falling: bool,
        found: &mut Vec<SentPacket>,
    ) -> Result<(), AllocError>
        requires apart { AreApart (turned falling spans.now) }
        requires ranges { AreRanges (turned falling spans.now) }
        ensures found { OnOk result (found.new.items
            ≡ found.old.items ++ filter (λ p. is_named spans.now p.number) self.now) }
        ensures rising { NumbersRise self.now }
    {
        // Mostly none were set aside.
        if self.packets.is_empty() {
            return Ok(());
        }
        if self.are_below(spans, falling) {
            return Ok(());
        }
        self.copy_all(spans, falling, found)
    }

    /// Whether all have numbers below those that the spans name, as mostly they have: it is one
    /// search for all spans.
    fn are_below(&self, spans: &[Span], falling: bool) -> bool
        requires apart { AreApart (turned falling spans.now) }
        requires ranges { AreRanges (turned falling spans.now) }
        ensures { result ≡ true
            → filter (λ p. is_named (turned falling spans.now) p.number) self.now ≡ [] }
    {
        if spans.is_empty() {
            return false;
        }
        self.end_below(NamedNumbers::nth(spans, falling, 0).lo().get())
    }

    /// Whether all have numbers below this one.
    fn end_below(&self, number: u64) -> bool
        ensures { result ≡ true → AllByRecursion (λ p. p.number < number) self.now }
    {
        match self.packets.range(number..).next() {
            None => true,
            Some(_) => false,
        }
    }

    /// Copies those that some span names, one span after another.
    #[inline(never)]
    fn copy_all(
        &self,
        spans: &[Span],
        falling: bool,
        found: &mut Vec<SentPacket>,
    ) -> Result<(), AllocError>
        requires apart { AreApart (turned falling spans.now) }
        requires ranges { AreRanges (turned falling spans.now) }
        ensures { OnOk result (found.new.items
            ≡ found.old.items ++ filter (λ p. is_named (turned falling spans.now) p.number)
            self.now) }
    {
        for at in 0..spans.len() {
            self.copy_span(NamedNumbers::nth(spans, falling, at), found)?;
        }
        Ok(())
    }

    /// Copies those that the span names.
    fn copy_span(&self, span: Span, found: &mut Vec<SentPacket>) -> Result<(), AllocError>
        ensures found { OnOk result (found.new.items
            ≡ found.old.items ++ filter (λ p. is_between span.0 span.1 p.number) self.now) }
        ensures rising { NumbersRise self.now }
        ensures order { span.0 ≤ span.1 }
    {
        let lo = span.lo().get();
        let hi = span.hi().get();
        for (_, packet) in self.packets.range(lo..=hi) {
            found.push(*packet)?;
        }
        Ok(())
    }

    /// Removes those that have the number of one of these packets.
    pub(crate) fn remove_all(&mut self, gone: &[SentPacket])
        ensures { self.new ≡ without gone.now self.old }
    {
        for packet in gone {
            self.remove(packet.number.get());
        }
    }

    /// Removes the one with this number, where there is one.
    fn remove(&mut self, number: u64)
        ensures { self.new ≡ without_number number self.old }
    {
        self.packets.remove(&number);
    }
}

impl SentPackets {
    /// Copies the packets of the space that were set aside and that some span names behind those
    /// that were found. `AllocError` comes where it is out of memory.
    pub(crate) fn copy_strays(
        &self,
        space: Space,
        spans: &[Span],
        falling: bool,
        found: &mut Vec<SentPacket>,
    ) -> Result<(), AllocError>
        requires apart { AreApart (turned falling spans.now) }
        requires ranges { AreRanges (turned falling spans.now) }
        ensures found { OnOk result (found.new.items
            ≡ found.old.items
            ++ filter (λ p. is_named spans.now p.number) (of_space space self.now.strays)) }
        ensures rising { NumbersRise (of_space space self.now.strays) }
    {
        self.strays.of(space).copy_named(spans, falling, found)
    }

    /// Those of the space that were set aside and have the number of one of these packets are set
    /// aside no more.
    pub(crate) fn forget_strays(&mut self, space: Space, gone: &[SentPacket])
        ensures { self.new ≡ record self.old {
          strays = with_space space self.old.strays
              (without gone.now (of_space space self.old.strays));
        } }
    {
        self.strays.of_mut(space).remove_all(gone);
    }
}

/// Whether a packet that stands before all others in the queue may leave it: it is closed, or it is
/// bare and is set aside, which is tried where the queue is crowded.
pub(crate) fn may_leave(strays: &mut PerSpace<Strays>, packet: &SentPacket, crowded: bool) -> bool
    requires { AllByRecursion (λ q. q.number < packet.now.number)
        (of_space packet.now.space strays.old) }
    ensures shed { result ≡ true → is_shed packet.now ≡ true }
    ensures aside { result ≡ true → (s : ASpace) → of_space s strays.new
        ≡ of_space s strays.old ++ filter (is_open_in s) (packet.now ∷ []) }
    ensures same { result ≡ false → strays.new ≡ strays.old }
    ensures closed { result ≡ false → is_closed packet.now ≡ false }
{
    if packet.is_closed() {
        return true;
    }
    if !crowded || !packet.is_bare() {
        return false;
    }
    match strays.of_mut(packet.space).add(packet) {
        Ok(()) => true,
        Err(_) => false,
    }
}
