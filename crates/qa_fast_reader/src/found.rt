//! What was found at the keys of an object.
ghost use Rattle.std.specs.Prelude.{◌≡◌, IfNone, IfSome, codes};
ghost use Rattle.serde_json.specs.Data as json;
ghost use Rattle.qa_base.specs.values.Names.{field_name, key_name};
ghost use Rattle.qa_format.specs.format.Written as written;
ghost use Rattle.qa_fast_reader.specs.Found.{Keeps, Puts, Takes, nothing};

use crate::keys::event_key;
use crate::names::{line_kind, permission, space, timer_kind};
use crate::ranges::ranges;
use crate::unknown::unknown_member;
use qa_base::{Field, Key, LineKind, MetricValues, Permission, Space, Spans, TimerKind};
use qa_scan::{boolean, integer, null};
use std::alloc::Global;

/// What was found at the keys of an object.
#[derive(Drop)]
pub struct Found {
    pub event: Option<LineKind>,
    pub time: Option<u64>,
    pub space: Option<Space>,
    pub number: Option<u64>,
    pub size: Option<u64>,
    pub eliciting: Option<bool>,
    pub in_flight: Option<bool>,
    pub permission: Option<Permission>,
    pub ranges: Option<Spans>,
    pub delay: Option<u64>,
    pub app_limited: Option<bool>,
    pub kind: Option<TimerKind>,
    pub values: MetricValues,
}

impl Found {
    /// Before any key is found.
    #[inline(always)]
    pub fn nothing() -> Found
        ensures { result ≡ nothing }
    {
        Found {
            event: None,
            time: None,
            space: None,
            number: None,
            size: None,
            eliciting: None,
            in_flight: None,
            permission: None,
            ranges: None,
            delay: None,
            app_limited: None,
            kind: None,
            values: MetricValues {
                window: None,
                ssthresh: None,
                bytes_in_flight: None,
                latest_rtt: None,
                min_rtt: None,
                smoothed_rtt: None,
                rttvar: None,
            },
        }
    }

    /// A key and its value are found; gives what follows them. A key that no event has is passed
    /// over.
    #[inline(always)]
    pub fn member<'a>(&mut self, alloc: Global, bytes: &'a [u8]) -> Option<&'a [u8]>
        ensures { IfSome result (λ rest. Takes self.old self.new bytes.now rest.now) }
    {
        let Some((key, rest)) = event_key(bytes) else {
            let rest = unknown_member(bytes)?;
            return Some(rest);
        };
        self.value_or_null(alloc, key, rest)
    }

    /// The value of a key is found, or null, which counts as absent; gives what follows it.
    #[inline(always)]
    fn value_or_null<'a>(&mut self, alloc: Global, key: Key, bytes: &'a [u8]) -> Option<&'a [u8]>
        ensures { IfSome result (λ rest. Puts (key_name key) self.old self.new bytes.now rest.now) }
    {
        if let Some(rest) = self.value(alloc, key, bytes) {
            return Some(rest);
        }
        let rest = self.null_at(key, bytes)?;
        Some(rest)
    }

    /// The value of a key is found; gives what follows it.
    #[inline(always)]
    fn value<'a>(&mut self, alloc: Global, key: Key, bytes: &'a [u8]) -> Option<&'a [u8]>
        ensures found { IfSome result
            (λ rest. Puts (key_name key) self.old self.new bytes.now rest.now) }
        ensures kept { IfNone result (self.new ≡ self.old) }
    {
        match key {
            Key::Event => self.event(bytes),
            Key::Time => self.time(bytes),
            Key::Space => self.space(bytes),
            Key::Number => self.number(bytes),
            Key::Size => self.size(bytes),
            Key::Eliciting => self.eliciting(bytes),
            Key::InFlight => self.in_flight(bytes),
            Key::Leave => self.permission(bytes),
            Key::Ranges => self.ranges(alloc, bytes),
            Key::Delay => self.delay(bytes),
            Key::Limited => self.app_limited(bytes),
            Key::Kind => self.kind(bytes),
            Key::Metric(field) => self.metric_value(field, bytes),
            _ => None,
        }
    }

    /// Null is found at a key: nothing is given there, also where something was before. It stands
    /// apart, since few lines have null.
    #[inline(never)]
    fn null_at<'a>(&mut self, key: Key, bytes: &'a [u8]) -> Option<&'a [u8]>
        ensures { IfSome result (λ rest. Puts (key_name key) self.old self.new bytes.now rest.now) }
    {
        let rest = null(bytes)?;
        self.forget(key)?;
        Some(rest)
    }

    /// Nothing is found at the key of an event. None at other keys.
    fn forget(&mut self, key: Key) -> Option<()>
        ensures { IfSome result (λ _. Keeps (key_name key) json.null self.old self.new) }
    {
        match key {
            Key::Event => self.event = None,
            Key::Time => self.time = None,
            Key::Space => self.space = None,
            Key::Number => self.number = None,
            Key::Size => self.size = None,
            Key::Eliciting => self.eliciting = None,
            Key::InFlight => self.in_flight = None,
            Key::Leave => self.permission = None,
            Key::Ranges => self.ranges = None,
            Key::Delay => self.delay = None,
            Key::Limited => self.app_limited = None,
            Key::Kind => self.kind = None,
            Key::Metric(field) => self.forget_metric(field),
            _ => return None,
        }
        Some(())
    }

    /// Nothing is found at the key of a reported value.
    fn forget_metric(&mut self, field: Field)
        ensures { Keeps (field_name field) json.null self.old self.new }
    {
        match field {
            Field::Window => self.values.window = None,
            Field::Ssthresh => self.values.ssthresh = None,
            Field::BytesInFlight => self.values.bytes_in_flight = None,
            Field::LatestRtt => self.values.latest_rtt = None,
            Field::MinRtt => self.values.min_rtt = None,
            Field::SmoothedRtt => self.values.smoothed_rtt = None,
            Field::Rttvar => self.values.rttvar = None,
        }
    }

    /// The kind of the event is found.
    #[inline(always)]
    fn event<'a>(&mut self, bytes: &'a [u8]) -> Option<&'a [u8]>
        ensures found { IfSome result
            (λ rest. Puts (codes "event") self.old self.new bytes.now rest.now) }
        ensures kept { IfNone result (self.new ≡ self.old) }
    {
        let (kind, rest) = line_kind(bytes)?;
        self.event = Some(kind);
        Some(rest)
    }

    /// The time is found.
    #[inline(always)]
    fn time<'a>(&mut self, bytes: &'a [u8]) -> Option<&'a [u8]>
        ensures found { IfSome result
            (λ rest. Puts (codes "time") self.old self.new bytes.now rest.now) }
        ensures kept { IfNone result (self.new ≡ self.old) }
    {
        let (value, rest) = integer(bytes)?;
        self.time = Some(value);
        Some(rest)
    }

    /// The packet number space is found.
    #[inline(always)]
    pub fn space<'a>(&mut self, bytes: &'a [u8]) -> Option<&'a [u8]>
        ensures found { IfSome result
            (λ rest. Puts (codes "space") self.old self.new bytes.now rest.now) }
        ensures kept { IfNone result (self.new ≡ self.old) }
    {
        let (found, rest) = space(bytes)?;
        self.space = Some(found);
        Some(rest)
    }

    /// The packet number is found.
    #[inline(always)]
    fn number<'a>(&mut self, bytes: &'a [u8]) -> Option<&'a [u8]>
        ensures found { IfSome result
            (λ rest. Puts (codes "number") self.old self.new bytes.now rest.now) }
        ensures kept { IfNone result (self.new ≡ self.old) }
    {
        let (value, rest) = integer(bytes)?;
        self.number = Some(value);
        Some(rest)
    }

    /// The size of the packet is found.
    #[inline(always)]
    fn size<'a>(&mut self, bytes: &'a [u8]) -> Option<&'a [u8]>
        ensures found { IfSome result
            (λ rest. Puts (codes "size") self.old self.new bytes.now rest.now) }
        ensures kept { IfNone result (self.new ≡ self.old) }
    {
        let (value, rest) = integer(bytes)?;
        self.size = Some(value);
        Some(rest)
    }

    /// Whether the packet is ack-eliciting is found.
    #[inline(always)]
    fn eliciting<'a>(&mut self, bytes: &'a [u8]) -> Option<&'a [u8]>
        ensures found { IfSome result
            (λ rest. Puts (codes "eliciting") self.old self.new bytes.now rest.now) }
        ensures kept { IfNone result (self.new ≡ self.old) }
    {
        let (value, rest) = boolean(bytes)?;
        self.eliciting = Some(value);
        Some(rest)
    }

    /// Whether the packet is in flight is found.
    #[inline(always)]
    fn in_flight<'a>(&mut self, bytes: &'a [u8]) -> Option<&'a [u8]>
        ensures found { IfSome result
            (λ rest. Puts (codes "in_flight") self.old self.new bytes.now rest.now) }
        ensures kept { IfNone result (self.new ≡ self.old) }
    {
        let (value, rest) = boolean(bytes)?;
        self.in_flight = Some(value);
        Some(rest)
    }

    /// Why the packet was allowed to leave is found.
    #[inline(always)]
    pub fn permission<'a>(&mut self, bytes: &'a [u8]) -> Option<&'a [u8]>
        ensures found { IfSome result
            (λ rest. Puts (codes "leave") self.old self.new bytes.now rest.now) }
        ensures kept { IfNone result (self.new ≡ self.old) }
    {
        let (found, rest) = permission(bytes)?;
        self.permission = Some(found);
        Some(rest)
    }

    /// The ranges are found.
    #[inline(always)]
    pub fn ranges<'a>(&mut self, alloc: Global, bytes: &'a [u8]) -> Option<&'a [u8]>
        ensures found { IfSome result
            (λ rest. Puts (codes "ranges") self.old self.new bytes.now rest.now) }
        ensures kept { IfNone result (self.new ≡ self.old) }
    {
        let mut spans = Spans::new(alloc);
        let rest = ranges(&mut spans, bytes)?;
        self.ranges = Some(spans);
        Some(rest)
    }

    /// The delay of the acknowledgment is found.
    #[inline(always)]
    fn delay<'a>(&mut self, bytes: &'a [u8]) -> Option<&'a [u8]>
        ensures found { IfSome result
            (λ rest. Puts (codes "delay") self.old self.new bytes.now rest.now) }
        ensures kept { IfNone result (self.new ≡ self.old) }
    {
        let (value, rest) = integer(bytes)?;
        self.delay = Some(value);
        Some(rest)
    }

    /// Whether the sender was limited by the application is found.
    #[inline(always)]
    fn app_limited<'a>(&mut self, bytes: &'a [u8]) -> Option<&'a [u8]>
        ensures found { IfSome result
            (λ rest. Puts (codes "limited") self.old self.new bytes.now rest.now) }
        ensures kept { IfNone result (self.new ≡ self.old) }
    {
        let (value, rest) = boolean(bytes)?;
        self.app_limited = Some(value);
        Some(rest)
    }

    /// The kind of the timer is found.
    #[inline(always)]
    fn kind<'a>(&mut self, bytes: &'a [u8]) -> Option<&'a [u8]>
        ensures found { IfSome result
            (λ rest. Puts (codes "kind") self.old self.new bytes.now rest.now) }
        ensures kept { IfNone result (self.new ≡ self.old) }
    {
        let (found, rest) = timer_kind(bytes)?;
        self.kind = Some(found);
        Some(rest)
    }

    /// A reported value is found. The call is made in a function of its own, so that room for its
    /// result is made ready here alone.
    #[inline(always)]
    fn metric_value<'a>(&mut self, field: Field, bytes: &'a [u8]) -> Option<&'a [u8]>
        ensures found { IfSome result
            (λ rest. Puts (field_name field) self.old self.new bytes.now rest.now) }
        ensures kept { IfNone result (self.new ≡ self.old) }
    {
        let rest = self.reported(field, bytes)?;
        Some(rest)
    }

    /// The same. It stands apart, since few lines have such a value.
    #[inline(never)]
    fn reported<'a>(&mut self, field: Field, bytes: &'a [u8]) -> Option<&'a [u8]>
        ensures found { IfSome result
            (λ rest. Puts (field_name field) self.old self.new bytes.now rest.now) }
        ensures kept { IfNone result (self.new ≡ self.old) }
    {
        let (value, rest) = integer(bytes)?;
        self.metric(field, value);
        Some(rest)
    }

    /// A reported value is put in its place.
    #[inline(always)]
    pub fn metric(&mut self, field: Field, value: u64)
        ensures { Keeps (field_name field) (written.integer value) self.old self.new }
    {
        match field {
            Field::Window => self.values.window = Some(value),
            Field::Ssthresh => self.values.ssthresh = Some(value),
            Field::BytesInFlight => self.values.bytes_in_flight = Some(value),
            Field::LatestRtt => self.values.latest_rtt = Some(value),
            Field::MinRtt => self.values.min_rtt = Some(value),
            Field::SmoothedRtt => self.values.smoothed_rtt = Some(value),
            Field::Rttvar => self.values.rttvar = Some(value),
        }
    }
}
