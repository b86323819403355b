//! What a sender does in every run: what it declares lost, what it sends, and its window.
ghost use Rattle.std.specs.Prelude.{◌≡◌, ◌≢◌, ◌≤◌, ◌<◌, ◌+◌, ◌*◌, ◌++◌, ◌∷◌, [], List, ℕ, Bool};
ghost use Rattle.std.specs.Prelude.{true, false, None, Some, Contains, sum_by, unwrap_or};
ghost use Rattle.std.specs.List.{AllByRecursion, list_any};
ghost use Rattle.qa_base.specs.declared.event.Event.{Event};
ghost use Rattle.qa_base.specs.declared.event.Event.TheVariants as events;
ghost use Rattle.qa_base.specs.declared.event.MetricValues.{MetricValues};
ghost use Rattle.qa_base.specs.declared.event.SentPacket.{SentPacket};
ghost use Rattle.qa_base.specs.declared.space.TimerKind.TheVariants as kinds;
ghost use Rattle.qa_base.specs.declared.space.Permission.TheVariants as leaves;
ghost use Rattle.qa_base.specs.declared.space.Space.{Space};
ghost use Rattle.qa_base.specs.declared.totals.Totals.{Totals};
ghost use Rattle.qa_format.specs.declared.verdict.Verdict.TheVariants as verdicts;
ghost use Rattle.qa_format.specs.format.Lines.{lines};
ghost use Rattle.qa_format.specs.format.Reading.{reading};
ghost use Rattle.qa_base.specs.machine.Breaches.{is_before, is_collapse_missing};
ghost use Rattle.qa_base.specs.machine.Loss.{bytes_in_flight, declared, detection, free, is_owed};
ghost use Rattle.qa_base.specs.machine.Loss.{is_persistent, owed};
ghost use Rattle.qa_base.specs.machine.Moments.{before_last, detection_of};
ghost use Rattle.qa_base.specs.machine.Packets.{Packet, history_of, largest_acknowledged, packets};
ghost use Rattle.qa_base.specs.machine.Reno.{event_mark, is_entry, reno};
ghost use Rattle.qa_base.specs.machine.Detection.{distance_below, is_old};
ghost use Rattle.qa_base.specs.machine.Estimates.{rtt, sampled};
ghost use Rattle.qa_base.specs.machine.Rtt.{loss_delay};
ghost use Rattle.qa_base.specs.machine.Rules.{IsRun};
ghost use Rattle.qa_base.specs.machine.Timer.{Due, deadline};
ghost use Rattle.qa_base.specs.machine.Window.{acknowledged_since_collapse, window, window_in};
ghost use Rattle.qa_base.specs.values.Constants.{minimum_window, probe_datagrams};
ghost use Rattle.qa_base.specs.values.Events.{is_in_flight_by, is_named, time_of};
ghost use Rattle.qa_format.specs.format.Proper.{IsProperEvent};
ghost use Rattle.qa_base.specs.values.Settings.{Settings, AreInRange, granularity, is_may};
ghost use Rattle.qa_base.specs.values.Settings.{is_reported};
ghost use Rattle.qa_format.specs.verdicts.Verdict.{strict, sayings, trace_of, verdict};
ghost use Rattle.qa_base.specs.history.Declared.{IsFarBelow, named_free};
ghost use Rattle.qa_base.specs.history.Oldest.{is_flying};
ghost use Rattle.qa_laws.specs.machine.Conduct.{is_entered_by, HasMoment, IsAmong, IsSenderRule};
ghost use Rattle.qa_laws.specs.machine.Conduct.{IsLostRightly, IsSentAfter, NoCollapse, is_probe};
ghost use Rattle.qa_laws.specs.machine.Conduct.{is_pto_event, is_recovery, probe_bytes};

/// In a run each number that a Lost line names is that of an in-flight packet of its space that was
/// sent before an acknowledged one of the space, and whose number is lower by the packet threshold
/// at least, or which was at least as old as the loss delay when it was looked for (RFC 9002,
/// section 6.1). So it is whether the line names what was owed or what was free.
pub fn losses_are_right()
    ensures { (c : Settings) (h : List Event) (time : ℕ) (space : Space) (ranges : List (ℕ × ℕ))
        → IsRun c (events.Lost time space ranges ∷ h)
        → AllByRecursion IsProperEvent h → (n : ℕ) → is_named ranges n ≡ true
        → IsLostRightly c h space n }
{}

/// In a run a loss timer finds a loss: one is owed behind it (RFC 9002, section 6.1.2).
pub fn loss_timers_find_losses()
    ensures { (c : Settings) (h : List Event) (time : ℕ) (space : Space)
        → IsRun c (events.Timer time kinds.Loss space ∷ h)
        → owed c (events.Timer time kinds.Loss space ∷ h) ≢ [] }
{}

/// In a run, where losses by number must be declared, a packet that is open and in flight, and
/// below the largest acknowledged number of its space, is less than the packet threshold below it
/// (RFC 9002, section 6.1.1): what is at the threshold is found at once. In any case such a packet
/// is not old as of a detection of its space (section 6.1.2).
pub fn open_packets_are_near()
    ensures by_number { (c : Settings) (h : List Event) → is_may c.options.loss_by_number ≡ false
        → IsRun c h → AllByRecursion IsProperEvent h → (p : Packet)
        → Contains (packets h) p → is_flying c h p ≡ true
        → (largest : ℕ) → largest_acknowledged h p.space ≡ Some largest → p.number < largest
        → distance_below c.options.threshold_counts h p.space p.number largest
        < c.options.packet_threshold }
    ensures by_age { (c : Settings) (h : List Event) (p : Packet) (now largest : ℕ)
        → is_flying c h p ≡ true
        → detection c h ≡ Some (p.space, now)
        → largest_acknowledged h p.space ≡ Some largest → p.number < largest
        → is_old c (sampled c h) now p ≡ false }
{}

/// What is free lies below the largest acknowledged number of its space by the packet threshold or
/// more, and is not old, so that it is not owed. In a run it is open and in flight. Nothing is free
/// but behind a detection, and so nothing is behind a Lost line.
pub fn free_packets_are_young()
    ensures young { (c : Settings) (h : List Event) (p : Packet) (space : Space) (now : ℕ)
        → detection c h ≡ Some (space, now) → Contains (free c h) p
        → is_old c (sampled c h) now p ≡ false }
    ensures far { (c : Settings) (h : List Event) (p : Packet) → Contains (free c h) p
        → IsFarBelow c h p }
    ensures apart { (c : Settings) (h : List Event) (p : Packet) → Contains (free c h) p
        → is_owed c h p ≡ false }
    ensures flying { (c : Settings) (h : List Event) (p : Packet) → IsRun c h
        → Contains (free c h) p
        → is_flying c h p ≡ true }
    ensures behind { (c : Settings) (h : List Event) → detection c h ≡ None → free c h ≡ [] }
{}

/// A Lost line of a run takes off the bytes in flight the sizes of the packets that were free and
/// that it names, and no others (RFC 9002, B.6): what was owed left them at its detection.
pub fn lost_lines_take_what_was_free()
    ensures { (c : Settings) (h : List Event) (time : ℕ) (space : Space) (ranges : List (ℕ × ℕ))
        → IsRun c (events.Lost time space ranges ∷ h)
        → bytes_in_flight c (events.Lost time space ranges ∷ h)
        + sum_by (λ p. p.size) (named_free c (events.Lost time space ranges) h)
        ≡ bytes_in_flight c h }
{}

/// In a run a loss timer that goes off before its deadline, as the header may let it, finds only
/// packets that were sent at one time, for which it was set: each is old at the deadline (RFC 9002,
/// section 6.1.2). So it never establishes persistent congestion (section 7.6) by itself.
pub fn early_timers_make_no_collapse()
    ensures one_time { (c : Settings) (h : List Event) (time : ℕ) (space : Space)
        → IsRun c (events.Timer time kinds.Loss space ∷ h) → AllByRecursion IsProperEvent h
        → is_before time (deadline c h) ≡ true → (p q : Packet)
        → Contains (owed c (events.Timer time kinds.Loss space ∷ h)) p
        → Contains (owed c (events.Timer time kinds.Loss space ∷ h)) q → p.time ≡ q.time }
    ensures calm { (c : Settings) (h : List Event) (time : ℕ) (space : Space)
        → IsRun c (events.Timer time kinds.Loss space ∷ h) → AllByRecursion IsProperEvent h
        → is_before time (deadline c h) ≡ true
        → is_persistent c (events.Timer time kinds.Loss space ∷ h) ≡ false }
    ensures old { (c : Settings) (h : List Event) (time : ℕ) (space : Space)
        → IsRun c (events.Timer time kinds.Loss space ∷ h) → AllByRecursion IsProperEvent h
        → is_before time (deadline c h) ≡ true → (p : Packet)
        → Contains (owed c (events.Timer time kinds.Loss space ∷ h)) p → (due : Due)
        → deadline c h ≡ Some due
        → p.time + loss_delay c (rtt c h) ≡ due.time }
{}

/// In a run the bytes in flight are within the window behind an in-flight packet that is sent by
/// leave of the window, be it NewReno's or the one last reported (RFC 9002, section 7); where the
/// header lets the sender overshoot it, they were below the window before. No in-flight packet is
/// marked as a probe before the first probe timeout, and those of any stretch without one have the
/// bytes of two datagrams at most (section 6.2.4). An in-flight packet that is marked for recovery
/// has an entry into recovery before it, and of two such packets an entry stands between (section
/// 7.3.2).
pub fn sends_have_permission()
    ensures within { (c : Settings) (h : List Event) (packet : SentPacket)
        → is_in_flight_by leaves.Window packet ≡ true → c.options.window_overshoot ≡ false
        → IsRun c (events.Sent packet ∷ h)
        → bytes_in_flight c (events.Sent packet ∷ h) ≤ window c (events.Sent packet ∷ h) }
    ensures below { (c : Settings) (h : List Event) (packet : SentPacket)
        → is_in_flight_by leaves.Window packet ≡ true → c.options.window_overshoot ≡ true
        → IsRun c (events.Sent packet ∷ h) → bytes_in_flight c h < window c h }
    ensures no_probe { (c : Settings) (h : List Event) → IsRun c h → list_any is_pto_event h ≡ false
        → list_any is_probe h ≡ false }
    ensures probes { (c : Settings) (between h : List Event) → IsRun c (between ++ h)
        → list_any is_pto_event between ≡ false
        → sum_by probe_bytes between ≤ probe_datagrams * c.max_datagram_size }
    ensures entered { (c : Settings) (e : Event) (h : List Event) → IsRun c (e ∷ h)
        → is_recovery e ≡ true → HasMoment (is_entry c) h }
    ensures between { (c : Settings) (e f : Event) (between h : List Event)
        → IsRun c (e ∷ between ++ f ∷ h) → is_recovery e ≡ true → is_recovery f ≡ true
        → IsAmong (is_entry c) between (f ∷ h) }
{}

/// Of two entries into recovery in a run, by different detections and with no collapse of the
/// window between, the second has a loss that was sent after the detection of the first (RFC 9002,
/// section 7.3.2): by time, or by the order of the lines where the header says that it decides.
/// Where losses by number must be declared, each entry is a detection.
pub fn entries_need_later_losses()
    ensures any { (c : Settings) (e f : Event) (between h : List Event)
        → IsRun c (e ∷ between ++ f ∷ h)
        → is_entry c (f ∷ h) ≡ true
        → is_entry c (e ∷ between ++ f ∷ h) ≡ true
        → detection_of (e ∷ between ++ f ∷ h) ≢ f ∷ h → NoCollapse c between (f ∷ h)
        → IsSentAfter c (event_mark c (detection_of (f ∷ h)))
        (declared c (e ∷ between ++ f ∷ h)) }
    ensures must { (c : Settings) (e f : Event) (between h : List Event)
        → is_may c.options.loss_by_number ≡ false
        → IsRun c (e ∷ between ++ f ∷ h) → is_entry c (f ∷ h) ≡ true
        → is_entry c (e ∷ between ++ f ∷ h) ≡ true → NoCollapse c between (f ∷ h)
        → IsSentAfter c (event_mark c (f ∷ h)) (owed c (e ∷ between ++ f ∷ h)) }
{}

/// An event enters recovery exactly where packets are lost by it, the last of which was sent after
/// recovery began, or there was no recovery (RFC 9002, section 7.3.2, B.6): as of before their
/// detection, which a Lost line may complete. Where losses by number must be declared, that is the
/// event itself.
pub fn entries_are_losses()
    ensures any { (c : Settings) (h : List Event)
        → is_entry c h
        ≡ is_entered_by c (reno c (before_last (detection_of h))).recovery_start_time
        (declared c h) }
    ensures must { (c : Settings) (e : Event) (h : List Event)
        → is_may c.options.loss_by_number ≡ false
        → is_entry c (e ∷ h)
        ≡ is_entered_by c (reno c h).recovery_start_time (owed c (e ∷ h)) }
{}

/// Packets are lost by an event that lowers the window (RFC 9002, sections 7.3.2 and 7.6.2). Where
/// losses by number must be declared, as they must where no window is reported, the event found
/// them lost. Where the sender reports its window, the event is a report of the lower one.
pub fn windows_fall_by_losses()
    ensures own { (c : Settings) (e : Event) (h : List Event)
        → is_reported c.options.controller ≡ false
        → window c (e ∷ h) < window c h → declared c (e ∷ h) ≢ [] }
    ensures must { (c : Settings) (e : Event) (h : List Event)
        → is_may c.options.loss_by_number ≡ false
        → is_reported c.options.controller ≡ false
        → window c (e ∷ h) < window c h → owed c (e ∷ h) ≢ [] }
    ensures in_range { (c : Settings) → AreInRange c → is_reported c.options.controller ≡ false
        → is_may c.options.loss_by_number ≡ false }
    ensures reported { (c : Settings) (e : Event) (h : List Event)
        → is_reported c.options.controller ≡ true
        → window c (e ∷ h) < window c h → window_in e ≡ Some (window c (e ∷ h)) }
{}

/// Where the sender reports its window, that is the initial one before any report, and then the one
/// that was last reported.
pub fn reported_windows_are_reports()
    ensures start { (c : Settings) → is_reported c.options.controller ≡ true
        → window c [] ≡ c.initial_window }
    ensures after { (c : Settings) (e : Event) (h : List Event)
        → is_reported c.options.controller ≡ true
        → window c (e ∷ h) ≡ unwrap_or (window_in e) (window c h) }
{}

/// In a run whose sender reports its window, the first other window that is reported behind
/// persistent congestion is at most two datagrams, the bytes in flight that were newly acknowledged
/// since, and the slack (RFC 9002, section 7.6.2).
pub fn collapses_are_reported()
    ensures { (c : Settings) (h : List Event) (time : ℕ) (values : MetricValues)
        (reported acknowledged : ℕ)
        → is_reported c.options.controller ≡ true → IsRun c (events.Metrics time values ∷ h)
        → acknowledged_since_collapse c h ≡ Some acknowledged → values.window ≡ Some reported
        → reported ≢ window c h
        → reported ≤ minimum_window c.max_datagram_size + c.options.report_slack_bytes
        + acknowledged }
{}

/// The window that NewReno has behind persistent congestion is at most two datagrams with the bytes
/// in flight that were newly acknowledged since (RFC 9002, sections 7.6.2 and 7.3.1): what is asked
/// of a reported window is no more than what appendix B does. So a report of NewReno's window is
/// never refused for it.
pub fn own_window_shows_collapses()
    ensures bound { (c : Settings) (h : List Event) (acknowledged : ℕ) → AreInRange c
        → acknowledged_since_collapse c h ≡ Some acknowledged
        → (reno c h).window ≤ minimum_window c.max_datagram_size + acknowledged }
    ensures admitted { (c : Settings) (h : List Event) (time : ℕ) (values : MetricValues)
        → AreInRange c
        → values.window ≡ Some (reno c h).window
        → is_collapse_missing c h (events.Metrics time values) ≡ false }
{}

/// Where bytes are accepted, their lines say a header and events of which each packet that is
/// declared lost was lost, each packet that is sent past the window has its leave, and the window
/// is halved once for the losses of one flight. The same holds of every run of events that lines
/// can say.
pub fn accepted_conduct()
    ensures runs { (c : Settings) (h : List Event) → IsRun c h → AllByRecursion IsProperEvent h
        → IsSenderRule c h }
    ensures accepted { (bytes : List ℕ) (t : Totals)
        → verdict (strict reading) bytes ≡ verdicts.Accepted t
        → (c : Settings) × (events : List Event)
        × (sayings reading (lines bytes) ≡ trace_of c events) × IsSenderRule c (history_of events) }
{}
