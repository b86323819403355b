//! What carries a ledger that keeps the open packets alone, in one pass over the events.
ghost use Rattle.std.specs.Prelude.{◌≡◌, ◌≤◌, ◌<◌, ◌==◌, ◌++◌, [], ◌∷◌, ◌+◌, ◌&&◌, ◌||◌, List, ℕ};
ghost use Rattle.std.specs.Prelude.{Bool, true, false, not, Contains, Option, Some, None, filter};
ghost use Rattle.std.specs.Prelude.{find, length, nat_lt, reverse, sum_by, take_while};
ghost use Rattle.std.specs.List.{list_any};
ghost use Rattle.qa_base.specs.declared.event.Event.{Event};
ghost use Rattle.qa_base.specs.declared.event.Ack.{Ack as Acknowledgment};
ghost use Rattle.qa_base.specs.declared.event.Event.TheVariants as events;
ghost use Rattle.qa_base.specs.declared.event.SentPacket.{SentPacket};
ghost use Rattle.qa_base.specs.declared.space.TimerKind.{TimerKind};
ghost use Rattle.qa_base.specs.declared.space.Permission.{Permission};
ghost use Rattle.qa_base.specs.declared.space.Space.{Space};
ghost use Rattle.qa_base.specs.declared.space.Space.TheVariants as spaces;
ghost use Rattle.qa_base.specs.machine.Breaches.{has_at_or_above};
ghost use Rattle.qa_base.specs.machine.Kept.{is_kept, kept_count, numbers_of, runs};
ghost use Rattle.qa_base.specs.machine.Estimates.{sampled};
ghost use Rattle.qa_base.specs.machine.Detection.{is_past_threshold};
ghost use Rattle.qa_base.specs.machine.Loss.{bytes_in_flight, is_open, is_owed, is_persistent};
ghost use Rattle.qa_base.specs.machine.Loss.{owed, detection};
ghost use Rattle.qa_base.specs.machine.Packets.{Packet, packet_of, packets, greatest};
ghost use Rattle.qa_base.specs.machine.Packets.{is_acknowledged, is_discarded, is_declared_lost};
ghost use Rattle.qa_base.specs.machine.Packets.{is_newly_acknowledged, is_of, is_some_packet};
ghost use Rattle.qa_base.specs.machine.Packets.{largest_acknowledged, newly_acknowledged};
ghost use Rattle.qa_base.specs.machine.Packets.{packets_of, is_below_largest};
ghost use Rattle.qa_base.specs.machine.Reno.{latest_sent};
ghost use Rattle.qa_base.specs.machine.Rtt.{Estimate, persistent_after};
ghost use Rattle.qa_base.specs.machine.Rules.{IsRun};
ghost use Rattle.qa_base.specs.machine.Timer.{awaits_acknowledgment, loss_due};
ghost use Rattle.qa_base.specs.values.Events.{acknowledges, is_quiet, is_space};
ghost use Rattle.qa_base.specs.values.Settings.{Settings, granularity, is_may};
ghost use Rattle.qa_base.specs.history.Among.{counts_as_end, finds_apart, is_persistent_among};
ghost use Rattle.qa_base.specs.history.Declared.{is_named_free, named_free};
ghost use Rattle.qa_laws.specs.machine.Conduct.{mark_of_first};
ghost use Rattle.qa_laws.specs.machine.Fates.{fate, fate_next, is_unacknowledged};
ghost use Rattle.qa_laws.specs.machine.Latest.{first_if_numbered, is_first_at_or_above};
ghost use Rattle.qa_base.specs.history.Oldest.{NoneFlies, due_of, is_asked, is_flying, is_passed};
ghost use Rattle.qa_base.specs.history.Parts.{AreClosed, AreDropped, AreOf, BeginsKept};
ghost use Rattle.qa_base.specs.history.Sequence.{EachTwo, WasSentBefore};
ghost use Rattle.qa_laws.specs.machine.Useful.{from_first, runs_begun};
ghost use Rattle.qa_base.specs.history.Sums.{asks_of, bytes, bytes_of, counted, discarded};
ghost use Rattle.qa_base.specs.history.Sums.{is_discarded_by, open_sum, within_space};

/// In a run, of two packets of one space the one with the lower number was sent no later and stands
/// no further on, and two with one number are one. All packets stand in the order of sending, the
/// latest first, and in that order the numbers of a space rise, also behind a front (RFC 9002,
/// section 4.2).
pub fn lower_numbers_are_earlier()
    ensures order { (c : Settings) (h : List Event) → IsRun c h → (p q : Packet)
        → Contains (packets h) p → Contains (packets h) q
        → is_of p.space q ≡ true → q.number ≤ p.number → (q.time ≤ p.time) × (q.place ≤ p.place) }
    ensures one { (c : Settings) (h : List Event) → IsRun c h → (p q : Packet)
        → Contains (packets h) p → Contains (packets h) q
        → is_of p.space q ≡ true → q.number ≡ p.number → p ≡ q }
    ensures each_two { (c : Settings) (h : List Event) → IsRun c h
        → EachTwo WasSentBefore (packets h) }
    ensures rise { (c : Settings) (h : List Event) → IsRun c h
        → (s : Space) (gone kept : List Packet) → reverse (packets h) ≡ gone ++ kept
        → EachTwo (λ p q. p.number < q.number) (filter (is_of s) kept) }
{}

/// Where a packet is past a threshold, so is one of its space with a lower number that was sent no
/// later. So it is in a run with each packet of its space that has a lower number (RFC 9002,
/// section 6.1).
pub fn past_threshold_falls()
    ensures any { (c : Settings) (r : Estimate) (h : List Event) (now : ℕ) (largest : Option ℕ)
        (p q : Packet)
        → p.space ≡ q.space
        → q.number ≤ p.number
        → q.time ≤ p.time
        → is_past_threshold c r h now largest p ≡ true
        → is_past_threshold c r h now largest q ≡ true }
    ensures in_run { (c : Settings) (h : List Event) → IsRun c h
        → (r : Estimate) (now : ℕ) (largest : Option ℕ) (p q : Packet)
        → Contains (packets h) p → Contains (packets h) q → is_of p.space q ≡ true
        → q.number ≤ p.number
        → is_past_threshold c r h now largest p ≡ true
        → is_past_threshold c r h now largest q ≡ true }
{}

/// In a run a packet that is not open is not open after one more event, and the packets declared
/// lost after it are those that were, those that were owed, and those that were free and that it
/// names. One that is open stays so unless the event newly acknowledges it, finds it lost, discards
/// its space or names it where it was free. What is below the largest acknowledged number stays
/// below it.
pub fn closed_stays_closed()
    ensures closed { (c : Settings) (e : Event) (h : List Event) → IsRun c (e ∷ h) → (p : Packet)
        → Contains (packets h) p
        → is_open c h p ≡ false → is_open c (e ∷ h) p ≡ false }
    ensures stays { (c : Settings) (e : Event) (h : List Event) → IsRun c (e ∷ h) → (p : Packet)
        → Contains (packets h) p
        → is_newly_acknowledged e h p ≡ false → is_owed c (e ∷ h) p ≡ false
        → is_discarded_by c e h p ≡ false → is_named_free c e h p ≡ false
        → is_open c (e ∷ h) p ≡ is_open c h p }
    ensures covered { (e : Event) (h : List Event) (p : Packet) → Contains (packets h) p
        → is_acknowledged (e ∷ h) p ≡ (acknowledges p.space p.number e || is_acknowledged h p) }
    ensures lost { (c : Settings) (e : Event) (h : List Event) → IsRun c (e ∷ h) → (p : Packet)
        → Contains (packets h) p
        → is_declared_lost (e ∷ h) p
        ≡ (is_owed c h p || is_named_free c e h p || is_declared_lost h p) }
    ensures largest { (e : Event) (h : List Event) (s : Space) (n : ℕ)
        → is_below_largest n (largest_acknowledged h s) ≡ true
        → is_below_largest n (largest_acknowledged (e ∷ h) s) ≡ true }
{}

/// In a run the loss time of a space is that of its oldest packet that is open and in flight: the
/// first, in the order of sending, behind packets none of which is (RFC 9002, section 6.1.2 and
/// A.8).
pub fn oldest_decides_loss_time()
    ensures { (c : Settings) (h : List Event) → IsRun c h → (s : Space) (front rest : List Packet)
        → reverse (packets h) ≡ front ++ rest → NoneFlies c h s front
        → loss_due c h s ≡ due_of c h s (find (λ p. is_of s p && is_flying c h p) rest) }
{}

/// In a run a front with no packet of a space that is open and in flight has none after one more
/// event, so that the oldest only moves on.
pub fn fronts_stay()
    ensures { (c : Settings) (e : Event) (h : List Event) → IsRun c (e ∷ h)
        → (s : Space) (front rest : List Packet) → reverse (packets h) ≡ front ++ rest
        → NoneFlies c h s front → NoneFlies c (e ∷ h) s front }
{}

/// In a run, where no packet of a front is of the space, open and in flight, a detection may begin
/// behind it: what it finds are those past a threshold, up to the first that is not, of the packets
/// of the space that are in flight and unsettled. So one walk finds them that passes packets until
/// the first that is asked of and past no threshold, and none of those that it passes is open and
/// in flight after (RFC 9002, A.10).
pub fn losses_are_a_front()
    ensures late { (c : Settings) (e : Event) (h : List Event) → IsRun c (e ∷ h)
        → (s : Space) (now : ℕ) → detection c (e ∷ h) ≡ Some (s, now)
        → (front rest : List Packet) → reverse (packets h) ≡ front ++ rest → NoneFlies c h s front
        → reverse (owed c (e ∷ h))
        ≡ take_while
        (is_past_threshold c (sampled c (e ∷ h)) (e ∷ h) now
        (largest_acknowledged (e ∷ h) s))
        (filter (is_asked (e ∷ h) s) rest) }
    ensures passed { (c : Settings) (e : Event) (h : List Event) → IsRun c (e ∷ h)
        → (s : Space) (now : ℕ) → detection c (e ∷ h) ≡ Some (s, now)
        → (front rest : List Packet) → reverse (packets h) ≡ front ++ rest → NoneFlies c h s front
        → reverse (owed c (e ∷ h))
        ≡ filter (is_asked (e ∷ h) s)
        (take_while
        (is_passed (e ∷ h) s
        (is_past_threshold c (sampled c (e ∷ h)) (e ∷ h) now
        (largest_acknowledged (e ∷ h) s))) rest) }
    ensures after { (c : Settings) (e : Event) (h : List Event) → IsRun c (e ∷ h)
        → (s : Space) (now : ℕ) → detection c (e ∷ h) ≡ Some (s, now)
        → (front rest : List Packet) → reverse (packets h) ≡ front ++ rest → NoneFlies c h s front
        → NoneFlies c (e ∷ h) s (front
        ++ take_while (is_passed (e ∷ h) s
        (is_past_threshold c (sampled c (e ∷ h)) (e ∷ h) now
        (largest_acknowledged (e ∷ h) s))) rest) }
{}

/// In a run one more event adds the packet that it sends to a sum over the open packets, and takes
/// off those that it newly acknowledges, that it finds lost, whose space it discards, and that were
/// free and that it names.
pub fn sums_after_an_event()
    ensures { (weight : Packet → ℕ) (c : Settings) (e : Event) (h : List Event) → IsRun c (e ∷ h)
        → open_sum weight c (e ∷ h)
        + (sum_by weight (newly_acknowledged (e ∷ h)) + sum_by weight (owed c (e ∷ h))
        + sum_by weight (discarded c e h) + sum_by weight (named_free c e h))
        ≡ open_sum weight c h + sum_by weight (packet_of (length h) e) }
{}

/// In a run, packets before all others that are closed before an event are not newly acknowledged
/// by it, nor found lost, and stay closed. Persistent congestion (RFC 9002, section 7.6) is what
/// the packets behind them establish alone, and what one walk finds over those in the order of
/// sending, where none of them is owed; and whether or not, where losses by number must be
/// declared. Sums over the open packets are theirs. The packet that the event sends stands last.
pub fn closed_are_forgotten()
    ensures newly { (c : Settings) (e : Event) (h : List Event) → IsRun c (e ∷ h)
        → (gone kept : List Packet) → reverse (packets h) ≡ gone ++ kept → AreClosed c h gone
        → reverse (newly_acknowledged (e ∷ h)) ≡ filter (is_newly_acknowledged e h) kept }
    ensures owed { (c : Settings) (e : Event) (h : List Event) → IsRun c (e ∷ h)
        → (gone kept : List Packet) → reverse (packets h) ≡ gone ++ kept → AreClosed c h gone
        → reverse (owed c (e ∷ h)) ≡ filter (is_owed c (e ∷ h)) kept }
    ensures persistent { (c : Settings) (e : Event) (h : List Event) → IsRun c (e ∷ h)
        → (gone kept : List Packet) → reverse (packets h) ≡ gone ++ kept → AreDropped c h gone
        → is_persistent c (e ∷ h)
        ≡ finds_apart (is_acknowledged (e ∷ h)) (counts_as_end c (e ∷ h))
        (persistent_after (granularity c) (sampled c (e ∷ h)) c.max_ack_delay) None kept }
    ensures among { (c : Settings) (e : Event) (h : List Event) → IsRun c (e ∷ h)
        → (kept gone : List Packet) → packets h ≡ kept ++ gone → AreDropped c h gone
        → is_persistent c (e ∷ h) ≡ is_persistent_among c (e ∷ h) kept }
    ensures must_persistent { (c : Settings) (e : Event) (h : List Event) → IsRun c (e ∷ h)
        → (gone kept : List Packet) → reverse (packets h) ≡ gone ++ kept
        → is_may c.options.loss_by_number ≡ false → AreClosed c h gone
        → is_persistent c (e ∷ h)
        ≡ finds_apart (is_acknowledged (e ∷ h)) (counts_as_end c (e ∷ h))
        (persistent_after (granularity c) (sampled c (e ∷ h)) c.max_ack_delay) None kept }
    ensures must_among { (c : Settings) (e : Event) (h : List Event) → IsRun c (e ∷ h)
        → (kept gone : List Packet) → packets h ≡ kept ++ gone
        → is_may c.options.loss_by_number ≡ false → AreClosed c h gone
        → is_persistent c (e ∷ h) ≡ is_persistent_among c (e ∷ h) kept }
    ensures sums { (weight : Packet → ℕ) (c : Settings) (h : List Event) (gone kept : List Packet)
        → reverse (packets h) ≡ gone ++ kept → AreClosed c h gone
        → open_sum weight c h ≡ sum_by (counted (is_open c h) weight) kept }
    ensures closed { (c : Settings) (e : Event) (h : List Event) → IsRun c (e ∷ h)
        → (gone kept : List Packet) → reverse (packets h) ≡ gone ++ kept → AreClosed c h gone
        → AreClosed c (e ∷ h) gone }
    ensures last { (e : Event) (h : List Event) (gone kept : List Packet)
        → reverse (packets h) ≡ gone ++ kept
        → reverse (packets (e ∷ h)) ≡ gone ++ (kept ++ packet_of (length h) e) }
{}

/// Where a front of packets is neither open nor owed and the first behind it is, as many packets of
/// a history are of use as stand behind the front.
pub fn kept_are_counted()
    ensures { (c : Settings) (h : List Event) (gone kept : List Packet)
        → reverse (packets h) ≡ gone ++ kept → AreDropped c h gone → BeginsKept c h kept
        → kept_count c h ≡ length kept }
{}

/// In a run one more event makes a packet acknowledged that it acknowledges, makes one owed that it
/// finds lost, and declares lost one that was owed, or that was free and that it names. A packet is
/// open that is not acknowledged, unless its space was discarded.
pub fn fates_after_an_event()
    ensures fate { (c : Settings) (e : Event) (h : List Event) → IsRun c (e ∷ h) → (p : Packet)
        → Contains (packets h) p
        → fate c (e ∷ h) p
        ≡ fate_next (acknowledges p.space p.number e) (is_owed c (e ∷ h) p) (is_named_free c e h p)
        (fate c h p) }
    ensures opened { (c : Settings) (h : List Event) (p : Packet)
        → is_open c h p ≡ (is_unacknowledged (fate c h p) && not (is_discarded h p.space)) }
{}

/// The bytes in flight are those of the three spaces, and some packet of a space awaits an
/// acknowledgment exactly where their count is not 0. Of a space that was discarded nothing is
/// left.
pub fn sums_by_space()
    ensures bytes { (c : Settings) (h : List Event)
        → bytes_in_flight c h
        ≡ open_sum (bytes_of spaces.Initial) c h + open_sum (bytes_of spaces.Handshake) c h
        + open_sum (bytes_of spaces.App) c h }
    ensures awaits { (c : Settings) (h : List Event) (s : Space)
        → list_any (awaits_acknowledgment c h) (packets_of h s)
        ≡ nat_lt 0 (open_sum (asks_of s) c h) }
    ensures gone { (s : Space) (weight : Packet → ℕ) (c : Settings) (h : List Event)
        → is_discarded h s ≡ true → open_sum (within_space s weight) c h ≡ 0 }
{}

/// What a detection finds is of its space and in flight, and what an acknowledgment newly
/// acknowledges is of its space. Of packets of one space the bytes are those of that space, and no
/// other has any.
pub fn closed_are_of_one_space()
    ensures owed { (c : Settings) (h : List Event) (s : Space) (now : ℕ)
        → detection c h ≡ Some (s, now) → AreOf s (owed c h) }
    ensures sizes { (c : Settings) (h : List Event)
        → sum_by bytes (owed c h) ≡ sum_by (λ p. p.size) (owed c h) }
    ensures newly { (h : List Event) (ack : Acknowledgment)
        → AreOf ack.space (newly_acknowledged (events.Ack ack ∷ h)) }
    ensures within { (s : Space) (ps : List Packet) → AreOf s ps
        → sum_by (bytes_of s) ps ≡ sum_by bytes ps }
    ensures others { (s t : Space) (ps : List Packet) → is_space s t ≡ false → AreOf t ps
        → sum_by (bytes_of s) ps ≡ 0 }
{}

/// In a run an acknowledgment takes off the bytes in flight what it newly acknowledges and what it
/// finds lost, a timer what it finds lost, and a discard what was open in its space (RFC 9002, B.5,
/// B.6 and B.9). Any other event adds the packet that it sends, where it sends one (B.4), and takes
/// off what was free and what it names.
pub fn bytes_after_an_event()
    ensures ack { (c : Settings) (h : List Event) (ack : Acknowledgment)
        → IsRun c (events.Ack ack ∷ h)
        → bytes_in_flight c (events.Ack ack ∷ h)
        + (sum_by bytes (newly_acknowledged (events.Ack ack ∷ h))
        + sum_by bytes (owed c (events.Ack ack ∷ h)))
        ≡ bytes_in_flight c h }
    ensures timer { (c : Settings) (h : List Event) (time : ℕ) (kind : TimerKind) (space : Space)
        → IsRun c (events.Timer time kind space ∷ h)
        → bytes_in_flight c (events.Timer time kind space ∷ h)
        + sum_by bytes (owed c (events.Timer time kind space ∷ h)) ≡ bytes_in_flight c h }
    ensures discard { (c : Settings) (h : List Event) (time : ℕ) (space : Space)
        → IsRun c (events.Discard time space ∷ h)
        → bytes_in_flight c (events.Discard time space ∷ h)
        + sum_by bytes (discarded c (events.Discard time space) h) ≡ bytes_in_flight c h }
    ensures quiet { (c : Settings) (e : Event) (h : List Event) → IsRun c (e ∷ h)
        → is_quiet e ≡ true
        → bytes_in_flight c (e ∷ h) + sum_by bytes (named_free c e h)
        ≡ bytes_in_flight c h + sum_by bytes (packet_of (length h) e) }
{}

/// In a run the latest packet decides: the packet with the largest number of an acknowledgment,
/// where it is newly acknowledged, is the latest of those that are (RFC 9002, section 5.1); a
/// number is at most that of some packet of a space exactly where it is at most that of the latest;
/// and what is owed was last sent when the latest of it was, by time and by order.
pub fn latest_packets_decide()
    ensures sampled { (c : Settings) (h : List Event) → IsRun c h
        → (ack : Acknowledgment)
        → find (λ p. p.number == greatest ack.ranges) (newly_acknowledged (events.Ack ack ∷ h))
        ≡ first_if_numbered (greatest ack.ranges) (newly_acknowledged (events.Ack ack ∷ h)) }
    ensures number { (c : Settings) (h : List Event) → IsRun c h → (s : Space) (n : ℕ)
        → has_at_or_above s n h ≡ is_first_at_or_above n (packets_of h s) }
    ensures owed { (c : Settings) (h : List Event) → IsRun c h
        → latest_sent c (owed c h) ≡ mark_of_first c (owed c h) }
{}

/// As many packets of a history are of use as were sent since the first that is open or owed. In a
/// run a packet that is of no use is of none after one more event, so that what is of use after an
/// event that sends nothing is found among what was, and is no more. It is as much where that is no
/// acknowledgment, timer or discard, nothing was owed, and it names nothing that was free. A packet
/// that is sent is one more.
pub fn kept_after_an_event()
    ensures is { (c : Settings) (h : List Event)
        → kept_count c h ≡ length (from_first (is_kept c h) (reverse (packets h))) }
    ensures dropped { (c : Settings) (e : Event) (h : List Event) → IsRun c (e ∷ h) → (p : Packet)
        → Contains (packets h) p
        → is_kept c h p ≡ false → is_kept c (e ∷ h) p ≡ false }
    ensures sent { (c : Settings) (h : List Event) (packet : SentPacket)
        → IsRun c (events.Sent packet ∷ h)
        → kept_count c (events.Sent packet ∷ h) ≡ kept_count c h + 1 }
    ensures other { (c : Settings) (e : Event) (h : List Event) → IsRun c (e ∷ h)
        → packet_of (length h) e ≡ []
        → (gone kept : List Packet) → reverse (packets h) ≡ gone ++ kept → AreDropped c h gone
        → kept_count c (e ∷ h) ≡ length (from_first (is_kept c (e ∷ h)) kept) }
    ensures falls { (c : Settings) (e : Event) (h : List Event) → IsRun c (e ∷ h)
        → packet_of (length h) e ≡ []
        → kept_count c (e ∷ h) ≤ kept_count c h }
    ensures stays { (c : Settings) (e : Event) (h : List Event) → IsRun c (e ∷ h)
        → is_quiet e ≡ true → packet_of (length h) e ≡ []
        → is_some_packet (owed c h) ≡ false → is_some_packet (named_free c e h) ≡ false
        → kept_count c (e ∷ h) ≡ kept_count c h }
{}

/// In a run a packet that is sent begins one run of numbers more, unless the number before its own
/// was sent in its space. No other event changes how many there are, in a run or not.
pub fn runs_after_an_event()
    ensures sent { (c : Settings) (h : List Event) (packet : SentPacket)
        → IsRun c (events.Sent packet ∷ h)
        → runs (events.Sent packet ∷ h)
        ≡ runs h + runs_begun (numbers_of h packet.space) packet.number }
    ensures other { (e : Event) (h : List Event) → packet_of (length h) e ≡ []
        → runs (e ∷ h) ≡ runs h }
{}
