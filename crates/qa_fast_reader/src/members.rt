//! Members of an object without white space, each found where it comes next. The bytes in front of
//! a value are known and are compared at once; an integer or a literal is not looked behind, since
//! what comes next ends it.
ghost use Rattle.std.specs.Prelude.{◌≡◌, ◌∷◌, [], ℕ, List, IfSome, codes, true};
ghost use Rattle.qa_fast_reader.specs.Found.{Closes, Continues, EndsIf, IsEnd, Puts, PutsIf, Reads};
ghost use Rattle.qa_fast_reader.specs.Found.{nothing};

use crate::found::Found;
use crate::ranges::exact_ranges;
use crate::unknown::unknown_next;
use qa_base::{LineKind, Spans};
use qa_format::Line;
use qa_scan::{after, is_last, open_boolean, open_integer, open_integer_at};
use std::alloc::Global;

/// Whether these bytes end the object, after members at most whose key no event has.
#[inline(always)]
fn closes(bytes: &[u8]) -> bool
    ensures { result ≡ true → Closes bytes.now }
{
    if is_end(bytes) {
        return true;
    }
    closes_behind(bytes)
}

/// The same, behind such members.
#[inline(never)]
fn closes_behind(bytes: &[u8]) -> bool
    ensures { result ≡ true → Closes bytes.now }
{
    let mut rest = bytes;
    for i in 0..u64::MAX {
        let Some(more) = unknown_next(rest) else {
            return is_end(rest);
        };
        rest = more;
    }
    false
}

/// Whether these bytes are a brace alone, or with CR behind it, as in lines that end with CR LF.
#[inline(always)]
fn is_end(bytes: &[u8]) -> bool
    ensures { result ≡ true → IsEnd bytes.now }
{
    if is_last(bytes, b'}') {
        return true;
    }
    is_before_return(bytes)
}

/// Whether these bytes are a brace and CR.
#[inline(always)]
fn is_before_return(bytes: &[u8]) -> bool
    ensures { result ≡ true → bytes.now ≡ 125 ∷ 13 ∷ [] }
{
    if bytes.len() != 2 {
        return false;
    }
    bytes[0] == b'}' && bytes[1] == b'\r'
}

impl Found {
    /// The time is found, where it comes next; gives what follows it.
    #[inline(always)]
    pub fn time_next<'a>(&mut self, bytes: &'a [u8]) -> Option<&'a [u8]>
        ensures { IfSome result (λ rest. Continues self.old self.new bytes.now rest.now) }
    {
        after(bytes, b",\"time\":")?;
        let (value, rest) = open_integer_at(bytes, 8)?;
        self.time = Some(value);
        Some(rest)
    }

    /// The packet number is found, where it comes next; gives what follows it.
    #[inline(always)]
    pub fn number_next<'a>(&mut self, bytes: &'a [u8]) -> Option<&'a [u8]>
        ensures { IfSome result (λ rest. Continues self.old self.new bytes.now rest.now) }
    {
        let (value, rest) = open_integer(after(bytes, b",\"number\":")?)?;
        self.number = Some(value);
        Some(rest)
    }

    /// The size of the packet is found, where it comes next; gives what follows it.
    #[inline(always)]
    pub fn size_next<'a>(&mut self, bytes: &'a [u8]) -> Option<&'a [u8]>
        ensures { IfSome result (λ rest. Continues self.old self.new bytes.now rest.now) }
    {
        let (value, rest) = open_integer(after(bytes, b",\"size\":")?)?;
        self.size = Some(value);
        Some(rest)
    }

    /// The delay of the acknowledgment is found; what follows is to end it.
    #[inline(always)]
    pub fn open_delay<'a>(&mut self, bytes: &'a [u8]) -> Option<&'a [u8]>
        ensures { IfSome result
            (λ rest. PutsIf (codes "delay") self.old self.new bytes.now rest.now) }
    {
        let (value, rest) = open_integer(bytes)?;
        self.delay = Some(value);
        Some(rest)
    }

    /// Whether the packet is ack-eliciting is found, where it comes next; gives what follows it.
    #[inline(always)]
    pub fn eliciting_next<'a>(&mut self, bytes: &'a [u8]) -> Option<&'a [u8]>
        ensures { IfSome result (λ rest. Continues self.old self.new bytes.now rest.now) }
    {
        let (value, rest) = open_boolean(after(bytes, b",\"eliciting\":")?)?;
        self.eliciting = Some(value);
        Some(rest)
    }

    /// Whether the packet is in flight is found, where it comes next; gives what follows it.
    #[inline(always)]
    pub fn in_flight_next<'a>(&mut self, bytes: &'a [u8]) -> Option<&'a [u8]>
        ensures { IfSome result (λ rest. Continues self.old self.new bytes.now rest.now) }
    {
        let (value, rest) = open_boolean(after(bytes, b",\"in_flight\":")?)?;
        self.in_flight = Some(value);
        Some(rest)
    }

    /// Whether the packet is ack-eliciting is found, where it comes first; gives what follows it.
    #[inline(always)]
    pub fn eliciting_first<'a>(&mut self, bytes: &'a [u8]) -> Option<&'a [u8]>
        requires { self.old ≡ nothing }
        ensures { IfSome result (λ rest. EndsIf self.new bytes.now rest.now) }
    {
        let (value, rest) = open_boolean(after(bytes, b"{\"eliciting\":")?)?;
        self.eliciting = Some(value);
        Some(rest)
    }

    /// Whether the sender was limited by the application is found; what follows is to end it.
    #[inline(always)]
    pub fn open_limited<'a>(&mut self, bytes: &'a [u8]) -> Option<&'a [u8]>
        ensures { IfSome result
            (λ rest. PutsIf (codes "limited") self.old self.new bytes.now rest.now) }
    {
        let (value, rest) = open_boolean(bytes)?;
        self.app_limited = Some(value);
        Some(rest)
    }

    /// The packet number space is found, where it comes next; gives what follows it.
    #[inline(always)]
    pub fn space_next<'a>(&mut self, bytes: &'a [u8]) -> Option<&'a [u8]>
        ensures { IfSome result (λ rest. Continues self.old self.new bytes.now rest.now) }
    {
        self.space(after(bytes, b",\"space\":")?)
    }

    /// The ranges are found, without white space, where they come next; gives what follows them.
    #[inline(always)]
    pub fn ranges_next<'a>(&mut self, alloc: Global, bytes: &'a [u8]) -> Option<&'a [u8]>
        ensures { IfSome result (λ rest. Continues self.old self.new bytes.now rest.now) }
    {
        let mut spans = Spans::new(alloc);
        let rest = exact_ranges(&mut spans, after(bytes, b",\"ranges\":")?)?;
        self.ranges = Some(spans);
        Some(rest)
    }

    /// The kind `sent` is found, where it comes next; gives what follows it.
    #[inline(always)]
    pub fn sent_next<'a>(&mut self, bytes: &'a [u8]) -> Option<&'a [u8]>
        ensures { IfSome result (λ rest. Continues self.old self.new bytes.now rest.now) }
    {
        let rest = after(bytes, b",\"event\":\"sent\"")?;
        self.event = Some(LineKind::Sent);
        Some(rest)
    }

    /// The kind `ack` is found, where it comes next; gives what follows it.
    #[inline(always)]
    fn ack_next<'a>(&mut self, bytes: &'a [u8]) -> Option<&'a [u8]>
        ensures { IfSome result (λ rest. Continues self.old self.new bytes.now rest.now) }
    {
        let rest = after(bytes, b",\"event\":\"ack\"")?;
        self.event = Some(LineKind::Ack);
        Some(rest)
    }

    /// The kind `sent` is found, where it comes first; gives what follows it.
    #[inline(always)]
    pub fn sent_first<'a>(&mut self, bytes: &'a [u8]) -> Option<&'a [u8]>
        requires { self.old ≡ nothing }
        ensures { IfSome result (λ rest. EndsIf self.new bytes.now rest.now) }
    {
        let rest = after(bytes, b"{\"event\":\"sent\"")?;
        self.event = Some(LineKind::Sent);
        Some(rest)
    }

    /// The kind `ack` is found, where it comes first; gives what follows it.
    #[inline(always)]
    pub fn ack_first<'a>(&mut self, bytes: &'a [u8]) -> Option<&'a [u8]>
        requires { self.old ≡ nothing }
        ensures { IfSome result (λ rest. EndsIf self.new bytes.now rest.now) }
    {
        let rest = after(bytes, b"{\"event\":\"ack\"")?;
        self.event = Some(LineKind::Ack);
        Some(rest)
    }

    /// The kind `lost` is found, where it comes first; gives what follows it.
    #[inline(always)]
    pub fn lost_first<'a>(&mut self, bytes: &'a [u8]) -> Option<&'a [u8]>
        requires { self.old ≡ nothing }
        ensures { IfSome result (λ rest. EndsIf self.new bytes.now rest.now) }
    {
        let rest = after(bytes, b"{\"event\":\"lost\"")?;
        self.event = Some(LineKind::Lost);
        Some(rest)
    }

    /// The kind `ack` is found, with the delay before it where there is one; gives what follows it.
    #[inline(always)]
    pub fn ack_begun<'a>(&mut self, bytes: &'a [u8]) -> Option<&'a [u8]>
        requires { self.old ≡ nothing }
        ensures { IfSome result (λ rest. EndsIf self.new bytes.now rest.now) }
    {
        let Some(behind) = after(bytes, b"{\"delay\":") else {
            return self.ack_first(bytes);
        };
        let rest = self.open_delay(behind)?;
        self.ack_next(rest)
    }

    /// The line, where the object ends here.
    #[inline(always)]
    pub fn ended(&mut self, bytes: &[u8]) -> Option<Line>
        ensures { (whole : List ℕ) → EndsIf self.old whole bytes.now → Reads whole result }
    {
        if !closes(bytes) {
            return None;
        }
        self.line_of()
    }

    /// Why the packet was allowed to leave is found, where it comes next; gives what follows.
    #[inline(always)]
    pub fn permission_if<'a>(&mut self, bytes: &'a [u8]) -> Option<&'a [u8]>
        ensures { IfSome result (λ rest. Continues self.old self.new bytes.now rest.now) }
    {
        let Some(behind) = after(bytes, b",\"leave\":") else {
            return Some(bytes);
        };
        self.permission(behind)
    }

    /// The delay of the acknowledgment is found, where it comes next; gives what follows.
    #[inline(always)]
    pub fn delay_if<'a>(&mut self, bytes: &'a [u8]) -> Option<&'a [u8]>
        ensures { IfSome result (λ rest. Continues self.old self.new bytes.now rest.now) }
    {
        let Some(behind) = after(bytes, b",\"delay\":") else {
            return Some(bytes);
        };
        self.open_delay(behind)
    }

    /// Whether the sender was limited by the application is found, where it comes next; gives what
    /// follows.
    #[inline(always)]
    pub fn limited_if<'a>(&mut self, bytes: &'a [u8]) -> Option<&'a [u8]>
        ensures { IfSome result (λ rest. Continues self.old self.new bytes.now rest.now) }
    {
        let Some(behind) = after(bytes, b",\"limited\":") else {
            return Some(bytes);
        };
        self.open_limited(behind)
    }
}
