//! Which keys a line has, by the tables of the format.
ghost use Rattle.std.specs.Prelude.{◌≡◌};
ghost use Rattle.qa_why.specs.suggest.KeyTables as spec;

use qa_base::{Field, Key, LineKind, Version};

/// The keys of a header.
fn header_keys(version: Version) -> &'static [Key]
    ensures { result.now ≡ spec.header_keys version }
{
    match version {
        Version::One => &[
            Key::Event,
            Key::Version,
            Key::Role,
            Key::MaxDatagramSize,
            Key::MaxAckDelay,
            Key::InitialRtt,
            Key::InitialWindow,
        ],
        Version::Two => &[
            Key::Event,
            Key::Version,
            Key::Role,
            Key::MaxDatagramSize,
            Key::MaxAckDelay,
            Key::InitialRtt,
            Key::InitialWindow,
            Key::TimerLateUs,
            Key::RefreshMinRtt,
            Key::ReportSlackUs,
            Key::ReportSlackBytes,
        ],
        Version::Three => &[
            Key::Event,
            Key::Version,
            Key::Role,
            Key::MaxDatagramSize,
            Key::MaxAckDelay,
            Key::InitialRtt,
            Key::InitialWindow,
            Key::TimerLateUs,
            Key::RefreshMinRtt,
            Key::ReportSlackUs,
            Key::ReportSlackBytes,
            Key::Unit,
            Key::Window,
            Key::WindowOvershoot,
            Key::SampleElicitingOnly,
            Key::PacketThreshold,
            Key::TimerEarlyUs,
            Key::LossByNumber,
            Key::ThresholdCounts,
            Key::ResetRtt,
            Key::LatestRttLessDelay,
            Key::TimeThresholdEighths,
            Key::RecoveryByOrder,
        ],
    }
}

/// The keys of a line of this kind, in the order of its table, where the header has this version.
pub fn keys_of(version: Version, kind: LineKind) -> &'static [Key]
    ensures { result.now ≡ spec.keys_of version kind }
{
    match kind {
        LineKind::Header => header_keys(version),
        LineKind::Sent => &[
            Key::Event,
            Key::Time,
            Key::Space,
            Key::Number,
            Key::Size,
            Key::Eliciting,
            Key::InFlight,
            Key::Leave,
        ],
        LineKind::Ack => &[
            Key::Event,
            Key::Time,
            Key::Space,
            Key::Ranges,
            Key::Delay,
            Key::Limited,
        ],
        LineKind::Lost => &[Key::Event, Key::Time, Key::Space, Key::Ranges],
        LineKind::Timer => &[Key::Event, Key::Time, Key::Kind, Key::Space],
        LineKind::Discard => &[Key::Event, Key::Time, Key::Space],
        LineKind::Confirmed | LineKind::Keys => &[Key::Event, Key::Time],
        LineKind::Metrics => &[
            Key::Event,
            Key::Time,
            Key::Metric(Field::Window),
            Key::Metric(Field::Ssthresh),
            Key::Metric(Field::BytesInFlight),
            Key::Metric(Field::LatestRtt),
            Key::Metric(Field::MinRtt),
            Key::Metric(Field::SmoothedRtt),
            Key::Metric(Field::Rttvar),
        ],
    }
}

/// Whether one of these keys has this name.
fn is_among(keys: &[Key], name: &str) -> bool
    ensures { result ≡ spec.is_among keys.now name.now }
{
    keys.iter().any(|key| name == key.name())
}

/// Whether a line of this kind has a key of this name, where the header has this version.
pub fn is_key(version: Version, kind: LineKind, name: &str) -> bool
    ensures { result ≡ spec.is_key version kind name.now }
{
    is_among(keys_of(version, kind), name)
}
