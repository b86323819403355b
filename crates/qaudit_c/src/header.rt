//! The header that the struct of C says.
ghost use Rattle.std.specs.Prelude.{◌≡◌};
ghost use Rattle.qaudit_c.specs.Events as said;

use crate::events::given;
use crate::numbers::{controller_of, loss_by_number_of, role_of, threshold_counts_of, unit_of};
use crate::structs::TraceHeader;
use qa_base::constants::{DEFAULT_PACKET_THRESHOLD, DEFAULT_TIME_THRESHOLD_EIGHTHS};
use qa_base::{
    ConnectionValues, Controller, Header, LossByNumber, Options, Role, ThresholdCounts, TimeUnit,
};

/// The header of version 3 with these values.
pub fn header_of(header: &TraceHeader) -> Option<Header>
    ensures { result ≡ said.header_said header.now }
{
    let role = role_of(header.role)?;
    let unit = unit_of(header.unit)?;
    let controller = controller_of(header.window)?;
    let loss_by_number = loss_by_number_of(header.loss_by_number)?;
    let counts = threshold_counts_of(header.threshold_counts)?;
    let plain = plain_header(header, role, unit)?;
    plain
        .choosing(options_of(header, controller, loss_by_number, counts))
        .ok()
}

/// The header with these values and no options.
fn plain_header(header: &TraceHeader, role: Role, unit: TimeUnit) -> Option<Header>
    ensures { result ≡ said.plain_said header.now role unit }
{
    let values = ConnectionValues {
        role,
        max_datagram_size: header.max_datagram_size,
        max_ack_delay: given(header.has_max_ack_delay, header.max_ack_delay),
        initial_rtt: given(header.has_initial_rtt, header.initial_rtt),
        initial_window: given(header.has_initial_window, header.initial_window),
    };
    Header::in_unit(unit, values).ok()
}

/// The options of the header.
fn options_of(
    header: &TraceHeader,
    controller: Controller,
    loss_by_number: LossByNumber,
    threshold_counts: ThresholdCounts,
) -> Options
    ensures { result ≡ said.options_of header.now controller loss_by_number threshold_counts }
{
    Options {
        timer_late: given(header.has_timer_late_us, header.timer_late_us),
        refresh_min_rtt: header.refresh_min_rtt,
        report_slack_us: header.report_slack_us,
        report_slack_bytes: header.report_slack_bytes,
        controller,
        window_overshoot: header.window_overshoot,
        sample_eliciting_only: header.sample_eliciting_only,
        packet_threshold: threshold_of(header),
        timer_early_us: header.timer_early_us,
        loss_by_number,
        threshold_counts,
        reset_rtt: header.reset_rtt,
        latest_rtt_less_delay: header.latest_rtt_less_delay,
        time_threshold_eighths: eighths_of(header),
        recovery_by_order: header.recovery_by_order,
    }
}

/// The packet threshold of the header.
fn threshold_of(header: &TraceHeader) -> u64
    ensures { result ≡ (said.options_of header.now Controller.NewReno
        LossByNumber.Must ThresholdCounts.Numbers).packet_threshold }
{
    if header.has_packet_threshold {
        header.packet_threshold
    } else {
        DEFAULT_PACKET_THRESHOLD
    }
}

/// The time threshold of the header, in eighths of the RTT.
fn eighths_of(header: &TraceHeader) -> u64
    ensures { result ≡ (said.options_of header.now Controller.NewReno
        LossByNumber.Must ThresholdCounts.Numbers).time_threshold_eighths }
{
    if header.has_time_threshold_eighths {
        header.time_threshold_eighths
    } else {
        DEFAULT_TIME_THRESHOLD_EIGHTHS
    }
}
