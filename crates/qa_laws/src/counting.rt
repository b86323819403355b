//! The packet threshold by numbers, and by packets (RFC 9002, section 6.1.1).
ghost use Rattle.std.specs.Prelude.{◌≡◌, ◌≤◌, ◌<◌, ℕ, List, Option, Some, true, Contains};
ghost use Rattle.qa_base.specs.declared.event.Event.{Event};
ghost use Rattle.qa_base.specs.declared.space.Space.{Space};
ghost use Rattle.qa_base.specs.declared.space.ThresholdCounts.TheVariants.{Numbers, Packets};
ghost use Rattle.qa_base.specs.machine.Detection.{distance_below, is_past_threshold};
ghost use Rattle.qa_base.specs.machine.Detection.{may_be_spared};
ghost use Rattle.qa_base.specs.machine.Estimates.{rtt};
ghost use Rattle.qa_base.specs.machine.Kept.{numbers_of};
ghost use Rattle.qa_base.specs.machine.Loss.{nameable, owed};
ghost use Rattle.qa_base.specs.machine.Numbers.{is_in};
ghost use Rattle.qa_base.specs.machine.Packets.{Packet, packets};
ghost use Rattle.qa_base.specs.machine.Rtt.{Estimate};
ghost use Rattle.qa_base.specs.machine.Rules.{first_broken, IsRun};
ghost use Rattle.qa_base.specs.machine.State.{totals};
ghost use Rattle.qa_base.specs.machine.Timer.{deadline};
ghost use Rattle.qa_base.specs.machine.Violations.{violations, IsToleratedRun};
ghost use Rattle.qa_base.specs.values.Settings.{Settings};
ghost use Rattle.qa_laws.specs.machine.Alike.{counting};
ghost use Rattle.qa_laws.specs.machine.Fates.{fate};
ghost use Rattle.qa_laws.specs.machine.Skipped.{SkipsNone};

/// In a run a number lies as far below another by the packets that were sent as by the numbers, or
/// not as far: no number is sent twice. So a packet that is past a threshold where packets are
/// counted is past one where numbers are.
pub fn packets_are_no_more_than_numbers()
    ensures distance { (c : Settings) (h : List Event) → IsRun c h
        → (s : Space) (number largest : ℕ)
        → distance_below Packets h s number largest ≤ distance_below Numbers h s number largest }
    ensures past { (c : Settings) (h : List Event) → IsRun c h
        → (r : Estimate) (now : ℕ) (largest : Option ℕ) (p : Packet)
        → is_past_threshold (counting c Packets) r h now largest p ≡ true
        → is_past_threshold (counting c Numbers) r h now largest p ≡ true }
{}

/// In a run in which the sender skipped no number of the space between the two, they lie as far
/// apart by the packets as by the numbers. So a packet below an acknowledged number, with none
/// skipped between, is past a threshold by both or by neither, and may be spared likewise.
pub fn counts_agree_where_none_is_skipped()
    ensures distance { (c : Settings) (h : List Event) → IsRun c h
        → (s : Space) (number largest : ℕ)
        → ((n : ℕ) → number < n → n ≤ largest → is_in (numbers_of h s) n ≡ true)
        → distance_below Packets h s number largest ≡ distance_below Numbers h s number largest }
    ensures past { (c : Settings) (h : List Event) → IsRun c h
        → (r : Estimate) (now largest : ℕ) (p : Packet)
        → ((n : ℕ) → p.number < n → n ≤ largest → is_in (numbers_of h p.space) n ≡ true)
        → is_past_threshold (counting c Packets) r h now (Some largest) p
        ≡ is_past_threshold (counting c Numbers) r h now (Some largest) p }
    ensures spared { (c : Settings) (h : List Event) → IsRun c h
        → (r : Estimate) (now largest : ℕ) (p : Packet)
        → ((n : ℕ) → p.number < n → n ≤ largest → is_in (numbers_of h p.space) n ≡ true)
        → may_be_spared (counting c Packets) r h now (Some largest) p
        ≡ may_be_spared (counting c Numbers) r h now (Some largest) p }
{}

/// Where the sender skips no number up to an acknowledged one, a history is a run under both counts
/// or under neither. After a run the machine holds the same under both: the totals, the estimate of
/// the RTT, what is owed and what a Lost line may name, what became of each packet, and what the
/// timer is set for.
pub fn counts_make_one_run_where_none_is_skipped()
    ensures by_packets { (c : Settings) (h : List Event) → SkipsNone h
        → IsRun (counting c Numbers) h → IsRun (counting c Packets) h }
    ensures by_numbers { (c : Settings) (h : List Event) → SkipsNone h
        → IsRun (counting c Packets) h → IsRun (counting c Numbers) h }
    ensures totals { (c : Settings) (h : List Event) → SkipsNone h
        → IsRun (counting c Numbers) h
        → totals (counting c Packets) h ≡ totals (counting c Numbers) h }
    ensures estimate { (c : Settings) (h : List Event) → SkipsNone h
        → IsRun (counting c Numbers) h
        → rtt (counting c Packets) h ≡ rtt (counting c Numbers) h }
    ensures owed { (c : Settings) (h : List Event) → SkipsNone h
        → IsRun (counting c Numbers) h
        → owed (counting c Packets) h ≡ owed (counting c Numbers) h }
    ensures nameable { (c : Settings) (h : List Event) → SkipsNone h
        → IsRun (counting c Numbers) h
        → nameable (counting c Packets) h ≡ nameable (counting c Numbers) h }
    ensures fate { (c : Settings) (h : List Event) → SkipsNone h
        → IsRun (counting c Numbers) h
        → (p : Packet) → Contains (packets h) p
        → fate (counting c Packets) h p ≡ fate (counting c Numbers) h p }
    ensures deadline { (c : Settings) (h : List Event) → SkipsNone h
        → IsRun (counting c Numbers) h
        → deadline (counting c Packets) h ≡ deadline (counting c Numbers) h }
{}

/// After a run in which the sender skips no number up to an acknowledged one, an event breaks the
/// same rule first under both counts, and the same rules in all. So it is past violations of sender
/// rules: what goes on under one count goes on under the other, with the same totals.
pub fn counts_violate_the_same_where_none_is_skipped()
    ensures first { (c : Settings) (h : List Event) → SkipsNone h
        → IsRun (counting c Numbers) h
        → (e : Event)
        → first_broken (counting c Packets) h e ≡ first_broken (counting c Numbers) h e }
    ensures all { (c : Settings) (h : List Event) → SkipsNone h
        → IsToleratedRun (counting c Numbers) h
        → (e : Event)
        → violations (counting c Packets) h e ≡ violations (counting c Numbers) h e }
    ensures by_packets { (c : Settings) (h : List Event) → SkipsNone h
        → IsToleratedRun (counting c Numbers) h → IsToleratedRun (counting c Packets) h }
    ensures by_numbers { (c : Settings) (h : List Event) → SkipsNone h
        → IsToleratedRun (counting c Packets) h → IsToleratedRun (counting c Numbers) h }
    ensures totals { (c : Settings) (h : List Event) → SkipsNone h
        → IsToleratedRun (counting c Numbers) h
        → totals (counting c Packets) h ≡ totals (counting c Numbers) h }
{}
