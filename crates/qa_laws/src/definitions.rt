//! Facts over the definitions alone. Each is the contract of a function that does nothing.
ghost use Rattle.std.specs.Prelude.{◌≡◌, ◌≢◌, ◌≤◌, ◌++◌, ◌∷◌, ◌+◌, ◌-◌, ◌*◌, ◌&&◌, ◌↔◌, [], List};
ghost use Rattle.std.specs.Prelude.{length, ℕ, Bool, true, false, not, Some, None, Ok, max, nat_lt};
ghost use Rattle.std.specs.Prelude.{Contains, if◌then◌else◌};
ghost use Rattle.qa_base.specs.declared.event.Event.{Event};
ghost use Rattle.qa_base.specs.declared.event.Event.TheVariants as events;
ghost use Rattle.qa_base.specs.declared.event.SentPacket.{SentPacket};
ghost use Rattle.qa_base.specs.declared.header.Version.{Version};
ghost use Rattle.qa_base.specs.declared.header.Version.TheVariants as versions;
ghost use Rattle.qa_format.specs.declared.line.Line.{Line};
ghost use Rattle.qa_format.specs.declared.line.Line.TheVariants as line;
ghost use Rattle.qa_base.specs.declared.rule.Rule.TheVariants as rules;
ghost use Rattle.qa_base.specs.declared.space.TimerKind.{TimerKind};
ghost use Rattle.qa_base.specs.declared.space.TimerKind.TheVariants as kinds;
ghost use Rattle.qa_base.specs.declared.space.Permission.{Permission};
ghost use Rattle.qa_base.specs.declared.space.Space.{Space};
ghost use Rattle.qa_base.specs.declared.totals.Totals.{Totals};
ghost use Rattle.qa_format.specs.declared.verdict.Verdict.TheVariants as verdicts;
ghost use Rattle.qa_base.specs.values.Events.{fits, is_quiet, time_of};
ghost use Rattle.qa_format.specs.format.AnyOrder.{AreOf, AreOfHeader, text_of};
ghost use Rattle.qa_format.specs.format.Lines.{has_lf, lines};
ghost use Rattle.qa_base.specs.machine.Breaches.{is_before, is_collapse_missing, is_timer_early};
ghost use Rattle.qa_base.specs.machine.Breaches.{is_timer_late};
ghost use Rattle.qa_base.specs.machine.Detection.{is_end, is_old};
ghost use Rattle.qa_base.specs.machine.Estimates.{rtt, sampled, with_sample_of};
ghost use Rattle.qa_base.specs.machine.FirstVersion.{exact_tests, rtt_by_samples};
ghost use Rattle.qa_base.specs.machine.Loss.{bytes_in_flight, declared, detection, free, nameable};
ghost use Rattle.qa_base.specs.machine.Loss.{is_persistent, owed};
ghost use Rattle.qa_base.specs.machine.Moments.{last_time};
ghost use Rattle.qa_base.specs.machine.Numbers.{AreRanges, NamesBetween, NamesOnly, has_all};
ghost use Rattle.qa_base.specs.machine.Numbers.{names_between};
ghost use Rattle.qa_base.specs.machine.Order.{NumbersFall};
ghost use Rattle.qa_base.specs.machine.Packets.{Packet, packets, is_discarded, newly_acknowledged};
ghost use Rattle.qa_format.specs.format.Proper.{IsProperEvent, IsProperLine};
ghost use Rattle.qa_format.specs.format.Reading.{reading};
ghost use Rattle.qa_base.specs.machine.Reno.{event_mark, is_entry, is_outside_recovery, moves};
ghost use Rattle.qa_base.specs.machine.Reno.{sent_mark};
ghost use Rattle.qa_base.specs.machine.Rtt.{Estimate, first_sample, loss_delay, start};
ghost use Rattle.qa_base.specs.machine.Rtt.{with_sample};
ghost use Rattle.qa_base.specs.machine.Metrics.{metric_tests};
ghost use Rattle.qa_base.specs.machine.Rules.{first_broken, IsComplete, IsRun};
ghost use Rattle.qa_base.specs.machine.Slack.{with_slacks};
ghost use Rattle.qa_base.specs.machine.State.{totals};
ghost use Rattle.qa_base.specs.values.Constants.{minimum_window, time_threshold_divisor};
ghost use Rattle.qa_base.specs.values.Limits.{max_packet_size};
ghost use Rattle.qa_base.specs.values.Settings.{Settings, AreInRange, choosing_options};
ghost use Rattle.qa_base.specs.values.Settings.{granularity, is_may, is_reported, no_options};
ghost use Rattle.qa_base.specs.machine.Timer.{deadline, pto_count};
ghost use Rattle.qa_format.specs.verdicts.Verdict.{strict, Reading, IsFixed, IsTraceOfRun, verdict};
ghost use Rattle.qa_format.specs.format.Written.{Pairs, written};
ghost use Rattle.qa_base.specs.machine.Widths.{Fits, IsTimely, acknowledged_count};
ghost use Rattle.qa_base.specs.machine.Window.{ssthresh, window};
ghost use Rattle.qa_laws.specs.machine.Alike.{IsLooser, NothingFree, of_version, where_they_must};
ghost use Rattle.qa_laws.specs.machine.Alike.{NoneAtStarts, with_recovery_by_order};
ghost use Rattle.qa_laws.specs.machine.Alike.{with_time_threshold};
ghost use Rattle.qa_laws.specs.machine.Congested.{NeverPersistent, samples_alone};
ghost use Rattle.qa_base.specs.history.Declared.{named_free};
ghost use Rattle.std.specs.List.{AllByRecursion};

/// No byte that follows changes a verdict that is fixed, whatever the reading of lines.
pub fn fixed_stays()
    ensures { (reading : Reading) (f g : List ℕ) → IsFixed (strict reading) f
        → verdict (strict reading) (f ++ g) ≡ verdict (strict reading) f }
{}

/// What a line is read as is in the ranges of its format: a header's values are, and so are an
/// event's, which fits.
pub fn reading_is_proper()
    ensures { (l : List ℕ) (x : Line) → reading l ≡ Ok x → IsProperLine x }
{}

/// What is written for a line has no LF and is read as that line, where its values are in their
/// ranges. (The text may be longer than a line of a trace may be.)
pub fn written_is_read()
    ensures one_line { (x : Line) → IsProperLine x → has_lf (written x) ≡ false }
    ensures read { (x : Line) → IsProperLine x → reading (written x) ≡ Ok x }
{}

/// An object without white space that has the keys and values of an event is read as that event,
/// in whatever order its keys stand, and so is that of a header of each version, where the values
/// are in their ranges. Keys that have their default may be left out. (The text may be longer than
/// a line of a trace may be.)
pub fn any_order_is_read()
    ensures event { (e : Event) (ps : Pairs) → IsProperEvent e → AreOf e ps
        → reading (text_of ps) ≡ Ok (line.Event e) }
    ensures header { (s : Settings) (ps : Pairs) → AreInRange s → AreOfHeader s ps
        → reading (text_of ps) ≡ Ok (line.Header s) }
{}

/// Bytes are accepted with some totals exactly where their lines say a header and the events of a
/// complete run with those totals, whatever the reading of lines.
pub fn accepted_is_run()
    ensures { (reading : Reading) (bytes : List ℕ) (t : Totals)
        → (verdict (strict reading) bytes ≡ verdicts.Accepted t) ↔ IsTraceOfRun reading
        (lines bytes) t }
{}

/// A prefix of a run is a run.
pub fn prefix_of_run()
    ensures { (c : Settings) (more h : List Event) → IsRun c (more ++ h) → IsRun c h }
{}

/// Where nothing is owed, a packet that is sent adds its size to the bytes in flight; it adds
/// nothing where it is not in flight or its space was discarded.
pub fn sent_adds_its_size()
    ensures { (c : Settings) (h : List Event) (packet : SentPacket) → owed c h ≡ []
        → bytes_in_flight c (events.Sent packet ∷ h)
        ≡ bytes_in_flight c h
        + (if packet.in_flight && not (is_discarded h packet.space) then packet.size else 0) }
{}

/// An event that is no acknowledgment, no timer and no discard, and by which no packet is lost,
/// leaves the RTT, the moves of the window and the PTO count as they were. By such an event none is
/// lost, unless it is a Lost line that names one that was free, and so completes a detection; and
/// none ever is where losses by number must be declared.
pub fn quiet_events_change_little()
    ensures rtt { (c : Settings) (e : Event) (h : List Event) → is_quiet e ≡ true
        → declared c (e ∷ h) ≡ [] → rtt c (e ∷ h) ≡ rtt c h }
    ensures moves { (c : Settings) (e : Event) (h : List Event) → is_quiet e ≡ true
        → declared c (e ∷ h) ≡ [] → moves c (e ∷ h) ≡ moves c h }
    ensures must { (c : Settings) (e : Event) (h : List Event)
        → is_may c.options.loss_by_number ≡ false
        → is_quiet e ≡ true → declared c (e ∷ h) ≡ [] }
    ensures unnamed { (c : Settings) (e : Event) (h : List Event) → is_quiet e ≡ true
        → named_free c e h ≡ [] → declared c (e ∷ h) ≡ [] }
    ensures pto_count { (c : Settings) (e : Event) (h : List Event) → is_quiet e ≡ true
        → pto_count c (e ∷ h) ≡ pto_count c h }
{}

/// In a run the packets of a space have rising numbers in the order of sending, and so have those
/// that an acknowledgment newly acknowledges: both lists have the latest first.
pub fn numbers_rise()
    ensures packets { (c : Settings) (h : List Event) → IsRun c h → NumbersFall (packets h) }
    ensures newly { (c : Settings) (e : Event) (h : List Event) → IsRun c h
        → NumbersFall (newly_acknowledged (e ∷ h)) }
{}

/// The tests of ranges are what they stand for, over all numbers: that no number is named but
/// these, and that all of some are named, and none but some.
pub fn ranges_name()
    ensures only { (numbers : List ℕ) (ranges : List (ℕ × ℕ)) → AreRanges ranges
        → (has_all numbers ranges ≡ true) ↔ NamesOnly ranges numbers }
    ensures between { (ranges : List (ℕ × ℕ)) (least most : List ℕ) → AreRanges ranges
        → (names_between ranges least most ≡ true) ↔ NamesBetween ranges least most }
{}

/// Where losses by number must be declared, nothing is free: a Lost line may name what is owed and
/// no more, and what is lost by an event is what it finds lost.
pub fn losses_must_be_declared()
    ensures free { (c : Settings) (h : List Event) → is_may c.options.loss_by_number ≡ false
        → free c h ≡ [] }
    ensures nameable { (c : Settings) (h : List Event) → is_may c.options.loss_by_number ≡ false
        → nameable c h ≡ owed c h }
    ensures declared { (c : Settings) (e : Event) (h : List Event)
        → is_may c.options.loss_by_number ≡ false
        → declared c (e ∷ h) ≡ owed c (e ∷ h) }
{}

/// Where nothing is free at any time, losses that may be declared are those that must be: the runs
/// are the same, and so are their totals and what they owe.
pub fn may_is_must_where_nothing_is_free()
    ensures runs { (c : Settings) (h : List Event) → NothingFree c h
        → IsRun (where_they_must c) h ↔ IsRun c h }
    ensures totals { (c : Settings) (h : List Event) → NothingFree c h
        → totals (where_they_must c) h ≡ totals c h }
    ensures owed { (c : Settings) (h : List Event) → NothingFree c h
        → owed (where_they_must c) h ≡ owed c h }
{}

/// A packet is old exactly when the loss delay has passed since it was sent. That the loss delay is
/// rounded up changes nothing: so it is by the exact fraction of the RTT, too, which is 9/8 where a
/// header names none.
pub fn old_is_after_loss_delay()
    ensures delay { (c : Settings) (r : Estimate) (now : ℕ) (p : Packet) → (is_old c r now p ≡ true)
        ↔ (loss_delay c r ≤ now - p.time) }
    ensures exact { (c : Settings) (r : Estimate) (now : ℕ) (p : Packet) → (is_old c r now p ≡ true)
        ↔ ((c.options.time_threshold_eighths * max r.latest_rtt r.smoothed_rtt
        ≤ time_threshold_divisor * (now - p.time)) × (granularity c ≤ now - p.time)) }
{}

/// A packet that is old by a time threshold is old by each that is not greater.
pub fn greater_threshold_makes_none_old()
    ensures { (c : Settings) (more : ℕ) (r : Estimate) (now : ℕ) (p : Packet)
        → c.options.time_threshold_eighths ≤ more
        → is_old (with_time_threshold c more) r now p ≡ true → is_old c r now p ≡ true }
{}

/// A sample with no delay of the peer is the same whether the latest RTT is kept less the delay or
/// not.
pub fn no_delay_takes_nothing_off()
    ensures { (less_delay : Bool) (r : Estimate) (latest_rtt now : ℕ)
        → with_sample less_delay r latest_rtt 0 now ≡ with_sample false r latest_rtt 0 now }
{}

/// Recovery is told by times, of packets and of the last event: or by places, of their lines and of
/// the event's, where the header says that the order decides (RFC 9002, B.5 and section 7.3.2).
pub fn marks_are_times_or_places()
    ensures sent_time { (c : Settings) (p : Packet) → c.options.recovery_by_order ≡ false
        → sent_mark c p ≡ p.time }
    ensures event_time { (c : Settings) (h : List Event) → c.options.recovery_by_order ≡ false
        → event_mark c h ≡ last_time h }
    ensures sent_place { (c : Settings) (p : Packet) → c.options.recovery_by_order ≡ true
        → sent_mark c p ≡ p.place }
    ensures event_place { (c : Settings) (e : Event) (h : List Event)
        → c.options.recovery_by_order ≡ true → event_mark c (e ∷ h) ≡ length h }
{}

/// In a run a packet that does not have the time of an event was sent after it by the order of the
/// lines exactly where it was by time. So where recovery began at that event, it is the same
/// whether the header says that the order decides or not. In any case a packet that was sent after
/// it by time was sent after it.
pub fn order_decides_at_one_time()
    ensures compared { (c : Settings) (f : Event) (between h : List Event) (p : Packet)
        → IsRun c (between ++ f ∷ h) → Contains (packets (between ++ f ∷ h)) p
        → p.time ≢ time_of f
        → nat_lt (length h) p.place ≡ nat_lt (time_of f) p.time }
    ensures recovery { (c : Settings) (f : Event) (between h : List Event) (p : Packet)
        → IsRun c (between ++ f ∷ h) → Contains (packets (between ++ f ∷ h)) p
        → p.time ≢ time_of f
        → is_outside_recovery (Some (event_mark c (f ∷ h))) (sent_mark c p)
        ≡ is_outside_recovery (Some (time_of f)) p.time }
    ensures later { (c : Settings) (f : Event) (between h : List Event) (p : Packet)
        → IsRun c (between ++ f ∷ h) → Contains (packets (between ++ f ∷ h)) p
        → is_outside_recovery (Some (time_of f)) p.time ≡ true
        → is_outside_recovery (Some (event_mark c (f ∷ h))) (sent_mark c p) ≡ true }
{}

/// Where no packet of a run has a time at which recovery began, the window and its threshold are
/// the same whether the header says that the order of the lines decides or not, and so is whether
/// the last event enters recovery.
pub fn order_changes_no_window()
    ensures window { (c : Settings) (h : List Event) → IsRun c h
        → NoneAtStarts (with_recovery_by_order c false) (packets h) h
        → window (with_recovery_by_order c true) h
        ≡ window (with_recovery_by_order c false) h }
    ensures ssthresh { (c : Settings) (h : List Event) → IsRun c h
        → NoneAtStarts (with_recovery_by_order c false) (packets h) h
        → ssthresh (with_recovery_by_order c true) h
        ≡ ssthresh (with_recovery_by_order c false) h }
    ensures entry { (c : Settings) (h : List Event) → IsRun c h
        → NoneAtStarts (with_recovery_by_order c false) (packets h) h
        → is_entry (with_recovery_by_order c true) h
        ≡ is_entry (with_recovery_by_order c false) h }
{}

/// Where no event establishes persistent congestion, the estimate is that of the samples, whatever
/// the header has persistent congestion do to it.
pub fn no_congestion_changes_no_estimate()
    ensures { (c : Settings) (h : List Event) → NeverPersistent c h → rtt c h ≡ samples_alone c h }
{}

/// Where the header says that the estimate is reset, it is after persistent congestion what it is
/// before any sample, but for the latest RTT: the next sample is a first one, and until then no
/// packet is an end of persistent congestion.
pub fn reset_begins_again()
    ensures start { (c : Settings) (e : Event) (h : List Event) → c.options.reset_rtt ≡ true
        → is_persistent c (e ∷ h) ≡ true
        → rtt c (e ∷ h) ≡ record (start c.initial_rtt) { latest_rtt = (rtt c (e ∷ h)).latest_rtt } }
    ensures latest { (c : Settings) (e : Event) (h : List Event)
        → (rtt c (e ∷ h)).latest_rtt ≡ (with_sample_of c (e ∷ h) (rtt c h)).latest_rtt }
    ensures sample { (c : Settings) (e : Event) (h : List Event) → c.options.reset_rtt ≡ true
        → is_persistent c (e ∷ h) ≡ true
        → (less_delay : Bool) (latest_rtt ack_delay now : ℕ)
        → with_sample less_delay (rtt c (e ∷ h)) latest_rtt ack_delay now
        ≡ first_sample latest_rtt now }
    ensures ends { (c : Settings) (e : Event) (h : List Event) → c.options.reset_rtt ≡ true
        → is_persistent c (e ∷ h) ≡ true → (p : Packet) → is_end (rtt c (e ∷ h)) p ≡ false }
{}

/// In a run whose times are in their range the PTO count is at most 40: a timeout is not before its
/// deadline, which lies as many doublings of the granularity behind.
pub fn pto_count_is_small()
    ensures { (c : Settings) (h : List Event) → IsRun c h → AllByRecursion IsTimely h
        → pto_count c h ≤ 40 }
{}

/// Where the sender does not report its window, that is at least two datagrams (RFC 9002, section
/// 7.2), and at most the initial window and the greatest size of a packet for each that was
/// acknowledged.
pub fn window_is_bounded()
    ensures low { (c : Settings) (h : List Event) → is_reported c.options.controller ≡ false
        → AreInRange c
        → minimum_window c.max_datagram_size ≤ window c h }
    ensures high { (c : Settings) (h : List Event) → is_reported c.options.controller ≡ false
        → AreInRange c
        → AllByRecursion Fits h
        → window c h ≤ c.initial_window + max_packet_size * acknowledged_count h }
{}

/// The bytes in flight are at most the greatest size of a packet for each event.
pub fn bytes_in_flight_are_bounded()
    ensures { (c : Settings) (h : List Event) → AllByRecursion Fits h
        → bytes_in_flight c h ≤ max_packet_size * length h }
{}

/// A header that asks for no reset and no refresh, and of samples that are kept whole, has the RTT
/// of its samples, one without a limit has no event that shows a late timer, one without a reported
/// window has none that shows no collapse, and one without slack besides compares reported values
/// exactly. So it is with each header of version 1 that is read: it has no options.
pub fn first_version_asks_no_more()
    ensures rtt { (c : Settings) (h : List Event) → c.options.reset_rtt ≡ false
        → c.options.refresh_min_rtt ≡ false → c.options.latest_rtt_less_delay ≡ false
        → rtt c h ≡ rtt_by_samples c h }
    ensures sampled { (c : Settings) (h : List Event) → c.options.reset_rtt ≡ false
        → c.options.refresh_min_rtt ≡ false → c.options.latest_rtt_less_delay ≡ false
        → sampled c h ≡ rtt_by_samples c h }
    ensures timers { (c : Settings) (h : List Event) (e : Event) → c.options.timer_late ≡ None
        → is_timer_late c h e ≡ false }
    ensures late { (c : Settings) (h : List Event) (e : Event) → c.options.timer_late ≡ None
        → first_broken c h e ≢ Some rules.TimerLate }
    ensures persistent_congestions { (c : Settings) (h : List Event) (e : Event)
        → is_reported c.options.controller ≡ false
        → is_collapse_missing c h e ≡ false }
    ensures missing { (c : Settings) (h : List Event) (e : Event)
        → is_reported c.options.controller ≡ false
        → first_broken c h e ≢ Some rules.CollapseMissing }
    ensures metrics { (c : Settings) (h : List Event) (e : Event)
        → is_reported c.options.controller ≡ false
        → c.options.report_slack_us ≡ 0 → c.options.report_slack_bytes ≡ 0
        → metric_tests c h e ≡ exact_tests c h e }
    ensures read { (l : List ℕ) (c : Settings) → reading l ≡ Ok (line.Header c)
        → c.version ≡ versions.One → c.options ≡ no_options }
{}

/// Where a timer may not be early, a loss timer looks for losses when it goes off, and none goes
/// off before its deadline.
pub fn no_tolerance_changes_nothing()
    ensures detection { (c : Settings) (h : List Event) (time : ℕ) (space : Space)
        → c.options.timer_early_us ≡ 0
        → detection c (events.Timer time kinds.Loss space ∷ h) ≡ Some (space, time) }
    ensures timers { (c : Settings) (h : List Event) (time : ℕ) (kind : TimerKind) (space : Space)
        → c.options.timer_early_us ≡ 0
        → is_timer_early c h (events.Timer time kind space) ≡ is_before time (deadline c h) }
{}

/// No rule asks for the version of a header: headers that differ in it alone refuse the same events
/// by the same rules, with the same totals, and have the same complete runs. So a header that is
/// made one of version 3 with the options that it had, as with none of them, asks what it asked.
pub fn version_asks_nothing()
    ensures broken { (c : Settings) (version : Version) (h : List Event) (e : Event)
        → first_broken (of_version c version) h e ≡ first_broken c h e }
    ensures totals { (c : Settings) (version : Version) (h : List Event)
        → totals (of_version c version) h ≡ totals c h }
    ensures runs { (c : Settings) (version : Version) (h : List Event)
        → IsRun (of_version c version) h ↔ IsRun c h }
    ensures complete { (c : Settings) (version : Version) (h : List Event)
        → IsComplete (of_version c version) h ↔ IsComplete c h }
    ensures chosen { (s c : Settings) (h : List Event) (e : Event)
        → choosing_options s s.options ≡ Ok c
        → first_broken c h e ≡ first_broken s h e }
{}

/// A run of events that lines can say is a run, and owes the same losses at its end, under a header
/// that tolerates no less: no limit for late timers or no lesser one, no lesser slacks, timers that
/// may be as early or earlier, a window that may be overshot, be it so before or not, and, where
/// losses by number may be declared, the same packet threshold or a lower one: it decides what is
/// free alone. (Lines say no packet without bytes: that one alone would fit a window that is full,
/// and not overshoot it.)
pub fn tolerance_admits_more()
    ensures runs { (c d : Settings) (h : List Event) → IsLooser c d → AllByRecursion Fits h
        → IsRun c h → IsRun d h }
    ensures owed { (c d : Settings) (h : List Event) → IsLooser c d → IsRun c h
        → owed d h ≡ owed c h }
{}

/// A run is a run of the same events under a header with greater slacks and all else equal.
pub fn slack_admits_more()
    ensures { (c : Settings) (slack_us slack_bytes : ℕ) (h : List Event)
        → c.options.report_slack_us ≤ slack_us → c.options.report_slack_bytes ≤ slack_bytes
        → IsRun c h → IsRun (with_slacks c slack_us slack_bytes) h }
{}
