//! Losses that may be declared, in histories that spare none.
ghost use Rattle.std.specs.Prelude.{◌≡◌, [], List, None, true};
ghost use Rattle.qa_base.specs.declared.event.Event.{Event};
ghost use Rattle.qa_base.specs.machine.Loss.{free, nameable, owed};
ghost use Rattle.qa_base.specs.machine.Rules.{IsRun};
ghost use Rattle.qa_base.specs.machine.State.{totals};
ghost use Rattle.qa_base.specs.values.Settings.{Settings, is_reported};
ghost use Rattle.qa_laws.specs.machine.Alike.{where_they_must};
ghost use Rattle.qa_laws.specs.losses.Sparing.{AreAtOnce, NoneSpared};

/// A run in which losses by number must be declared spares none where they may be, and owes what
/// may be declared there. It is a run there too, where each of its Lost lines has the time of the
/// event before it, or the header has no limit of lateness. Back, with no limit of lateness, a run
/// in which losses may be declared and that spares none is one in which they must be. Where nothing
/// is free, the totals are the same.
///
/// With a limit of lateness it need not be one: a packet sets a loss time while it is free, so that
/// a deadline that is there before its detection and behind its Lost line counts anew from that
/// line.
pub fn may_is_must_where_none_is_spared()
    ensures spares { (c : Settings) (h : List Event) → IsRun (where_they_must c) h
        → NoneSpared c h }
    ensures owed { (c : Settings) (h : List Event) → IsRun (where_they_must c) h
        → owed (where_they_must c) h ≡ nameable c h }
    ensures totals { (c : Settings) (h : List Event) → is_reported c.options.controller ≡ true
        → IsRun (where_they_must c) h → free c h ≡ []
        → totals (where_they_must c) h ≡ totals c h }
    ensures at_once { (c : Settings) (h : List Event) → is_reported c.options.controller ≡ true
        → AreAtOnce h → IsRun (where_they_must c) h → IsRun c h }
    ensures no_limit { (c : Settings) (h : List Event) → is_reported c.options.controller ≡ true
        → c.options.timer_late ≡ None → IsRun (where_they_must c) h → IsRun c h }
    ensures back { (c : Settings) (h : List Event) → is_reported c.options.controller ≡ true
        → c.options.timer_late ≡ None → NoneSpared c h → IsRun c h → IsRun (where_they_must c) h }
    ensures back_totals { (c : Settings) (h : List Event) → is_reported c.options.controller ≡ true
        → NoneSpared c h → IsRun c h → free c h ≡ []
        → totals (where_they_must c) h ≡ totals c h }
{}
