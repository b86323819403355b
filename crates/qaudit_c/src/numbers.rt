//! The numbers by which C names spaces, kinds and the like, and rules, faults and keys.
ghost use Rattle.std.specs.Prelude.{◌≡◌};
ghost use Rattle.qa_base.specs.values.Names as names;
ghost use Rattle.qa_format.specs.format.Faults as faults;
ghost use Rattle.qaudit_c.specs.Numbers as numbers;

use qa_base::{
    Controller, Field, Key, LossByNumber, Permission, Role, Rule, Space, ThresholdCounts, TimeUnit,
    TimerKind,
};
use qa_format::Fault;

/// The space of this number.
#[inline(always)]
pub fn space_of(number: u32) -> Option<Space>
    ensures { result ≡ numbers.space_numbered number }
{
    match number {
        0 => Some(Space::Initial),
        1 => Some(Space::Handshake),
        2 => Some(Space::App),
        _ => None,
    }
}

/// The leave of this number.
#[inline(always)]
pub fn permission_of(number: u32) -> Option<Permission>
    ensures { result ≡ numbers.permission_numbered number }
{
    match number {
        0 => Some(Permission::Window),
        1 => Some(Permission::Probe),
        2 => Some(Permission::Recovery),
        _ => None,
    }
}

/// The kind of timer of this number.
#[inline(always)]
pub fn timer_of(number: u32) -> Option<TimerKind>
    ensures { result ≡ numbers.timer_numbered number }
{
    match number {
        0 => Some(TimerKind::Loss),
        1 => Some(TimerKind::Pto),
        _ => None,
    }
}

/// The role of this number.
pub fn role_of(number: u32) -> Option<Role>
    ensures { result ≡ numbers.role_numbered number }
{
    match number {
        0 => Some(Role::Client),
        1 => Some(Role::Server),
        _ => None,
    }
}

/// The unit of this number.
pub fn unit_of(number: u32) -> Option<TimeUnit>
    ensures { result ≡ numbers.unit_numbered number }
{
    match number {
        0 => Some(TimeUnit::Microseconds),
        1 => Some(TimeUnit::Nanoseconds),
        _ => None,
    }
}

/// The controller of this number.
pub fn controller_of(number: u32) -> Option<Controller>
    ensures { result ≡ numbers.controller_numbered number }
{
    match number {
        0 => Some(Controller::NewReno),
        1 => Some(Controller::Reported),
        _ => None,
    }
}

/// What becomes of packets that lie behind, of this number.
pub fn loss_by_number_of(number: u32) -> Option<LossByNumber>
    ensures { result ≡ numbers.loss_by_number_numbered number }
{
    match number {
        0 => Some(LossByNumber::Must),
        1 => Some(LossByNumber::May),
        _ => None,
    }
}

/// What the packet threshold counts, of this number.
pub fn threshold_counts_of(number: u32) -> Option<ThresholdCounts>
    ensures { result ≡ numbers.threshold_counts_numbered number }
{
    match number {
        0 => Some(ThresholdCounts::Numbers),
        1 => Some(ThresholdCounts::Packets),
        _ => None,
    }
}

/// The rule of this number, 1 for V1; V16 with the first field.
pub fn rule_of(number: u32) -> Option<Rule>
    ensures { result ≡ numbers.rule_numbered number }
{
    match number {
        1 => Some(Rule::TimeBack),
        2 => Some(Rule::LossOwed),
        3 => Some(Rule::LossNotOwed),
        4 => Some(Rule::LossSet),
        5 => Some(Rule::SpaceGone),
        6 => Some(Rule::NumberNotHigher),
        7 => Some(Rule::PastWindow),
        8 => Some(Rule::PastProbe),
        9 => Some(Rule::PastRecovery),
        10 => Some(Rule::AckUnsent),
        11 => Some(Rule::TimerNotSet),
        12 => Some(Rule::TimerOther),
        13 => Some(Rule::TimerEarly),
        14 => Some(Rule::ProbeOwed),
        15 => Some(Rule::NotConfirmed),
        16 => Some(Rule::Metric(Field::Window)),
        17 => Some(Rule::OwedAtEnd),
        18 => Some(Rule::TimerLate),
        19 => Some(Rule::CollapseMissing),
        _ => None,
    }
}

/// The number of a reported value, 30 to 36.
pub fn field_number(field: Field) -> u32
    ensures { result ≡ numbers.field_number field }
{
    match field {
        Field::Window => 30,
        Field::Ssthresh => 31,
        Field::BytesInFlight => 32,
        Field::LatestRtt => 33,
        Field::MinRtt => 34,
        Field::SmoothedRtt => 35,
        Field::Rttvar => 36,
    }
}

/// The number of a key, 1 to 41.
pub fn key_number(key: Key) -> u32
    ensures { result ≡ numbers.key_number key }
{
    match key {
        Key::Event => 1,
        Key::Version => 2,
        Key::Role => 3,
        Key::Unit => 4,
        Key::Window => 5,
        Key::MaxDatagramSize => 6,
        Key::MaxAckDelay => 7,
        Key::InitialRtt => 8,
        Key::InitialWindow => 9,
        Key::TimerLateUs => 10,
        Key::RefreshMinRtt => 11,
        Key::ReportSlackUs => 12,
        Key::ReportSlackBytes => 13,
        Key::WindowOvershoot => 14,
        Key::SampleElicitingOnly => 15,
        Key::PacketThreshold => 16,
        Key::TimerEarlyUs => 17,
        Key::LossByNumber => 18,
        Key::Time => 19,
        Key::Space => 20,
        Key::Number => 21,
        Key::Size => 22,
        Key::Eliciting => 23,
        Key::InFlight => 24,
        Key::Leave => 25,
        Key::Ranges => 26,
        Key::Delay => 27,
        Key::Limited => 28,
        Key::Kind => 29,
        Key::Metric(field) => field_number(field),
        Key::LatestRttLessDelay => 37,
        Key::TimeThresholdEighths => 38,
        Key::ThresholdCounts => 39,
        Key::ResetRtt => 40,
        Key::RecoveryByOrder => 41,
    }
}

/// The fault of this number, 1 for F1; F3 to F5 with the first key.
pub fn fault_of(number: u32) -> Option<Fault>
    ensures { result ≡ numbers.fault_numbered number }
{
    match number {
        1 => Some(Fault::NotJson),
        2 => Some(Fault::NotObject),
        3 => Some(Fault::Missing(Key::Event)),
        4 => Some(Fault::WrongKind(Key::Event)),
        5 => Some(Fault::OutOfRange(Key::Event)),
        6 => Some(Fault::UnknownEvent),
        7 => Some(Fault::HeaderPlace),
        8 => Some(Fault::LineTooLong),
        9 => Some(Fault::FlagsClash),
        10 => Some(Fault::Version),
        11 => Some(Fault::TooManyLines),
        _ => None,
    }
}

/// The key of this number.
pub fn key_of(number: u32) -> Option<Key>
    ensures { result ≡ numbers.key_numbered number }
{
    match number {
        1 => Some(Key::Event),
        2 => Some(Key::Version),
        3 => Some(Key::Role),
        4 => Some(Key::Unit),
        5 => Some(Key::Window),
        6 => Some(Key::MaxDatagramSize),
        7 => Some(Key::MaxAckDelay),
        8 => Some(Key::InitialRtt),
        9 => Some(Key::InitialWindow),
        10 => Some(Key::TimerLateUs),
        11 => Some(Key::RefreshMinRtt),
        12 => Some(Key::ReportSlackUs),
        13 => Some(Key::ReportSlackBytes),
        14 => Some(Key::WindowOvershoot),
        15 => Some(Key::SampleElicitingOnly),
        16 => Some(Key::PacketThreshold),
        17 => Some(Key::TimerEarlyUs),
        18 => Some(Key::LossByNumber),
        19 => Some(Key::Time),
        20 => Some(Key::Space),
        21 => Some(Key::Number),
        22 => Some(Key::Size),
        23 => Some(Key::Eliciting),
        24 => Some(Key::InFlight),
        25 => Some(Key::Leave),
        26 => Some(Key::Ranges),
        27 => Some(Key::Delay),
        28 => Some(Key::Limited),
        29 => Some(Key::Kind),
        30 => Some(Key::Metric(Field::Window)),
        31 => Some(Key::Metric(Field::Ssthresh)),
        32 => Some(Key::Metric(Field::BytesInFlight)),
        33 => Some(Key::Metric(Field::LatestRtt)),
        34 => Some(Key::Metric(Field::MinRtt)),
        35 => Some(Key::Metric(Field::SmoothedRtt)),
        36 => Some(Key::Metric(Field::Rttvar)),
        37 => Some(Key::LatestRttLessDelay),
        38 => Some(Key::TimeThresholdEighths),
        39 => Some(Key::ThresholdCounts),
        40 => Some(Key::ResetRtt),
        41 => Some(Key::RecoveryByOrder),
        _ => None,
    }
}

/// The number of a rule, 1 for V1.
pub fn rule_number(rule: Rule) -> u32
    ensures { result ≡ names.rule_number rule }
{
    match rule {
        Rule::TimeBack => 1,
        Rule::LossOwed => 2,
        Rule::LossNotOwed => 3,
        Rule::LossSet => 4,
        Rule::SpaceGone => 5,
        Rule::NumberNotHigher => 6,
        Rule::PastWindow => 7,
        Rule::PastProbe => 8,
        Rule::PastRecovery => 9,
        Rule::AckUnsent => 10,
        Rule::TimerNotSet => 11,
        Rule::TimerOther => 12,
        Rule::TimerEarly => 13,
        Rule::ProbeOwed => 14,
        Rule::NotConfirmed => 15,
        Rule::Metric(_) => 16,
        Rule::OwedAtEnd => 17,
        Rule::TimerLate => 18,
        Rule::CollapseMissing => 19,
    }
}

/// The number of a fault, 1 for F1.
pub fn fault_number(fault: Fault) -> u32
    ensures { result ≡ faults.fault_number fault }
{
    match fault {
        Fault::NotJson => 1,
        Fault::NotObject => 2,
        Fault::Missing(_) => 3,
        Fault::WrongKind(_) => 4,
        Fault::OutOfRange(_) => 5,
        Fault::UnknownEvent => 6,
        Fault::HeaderPlace => 7,
        Fault::LineTooLong => 8,
        Fault::FlagsClash => 9,
        Fault::Version => 10,
        Fault::TooManyLines => 11,
    }
}

/// The number of the key of the reported value that a rule is about; 0 where it is about none.
pub fn rule_subject(rule: Rule) -> u32
    ensures { result ≡ numbers.subject_number (numbers.rule_subject rule) }
{
    match rule.field() {
        Some(field) => field_number(field),
        None => 0,
    }
}

/// The number of the key that a fault is about; 0 where it is about none.
pub fn fault_subject(fault: Fault) -> u32
    ensures { result ≡ numbers.subject_number (faults.key_of fault) }
{
    key_subject(fault.key())
}

/// The number of a key; 0 where there is none.
pub fn key_subject(key: Option<Key>) -> u32
    ensures { result ≡ numbers.subject_number key }
{
    match key {
        Some(key) => key_number(key),
        None => 0,
    }
}
