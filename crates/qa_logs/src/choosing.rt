//! Which trace of a log is converted.
ghost use Rattle.std.specs.Prelude.{◌≡◌, ◌++◌, IfOk, OnOk, nat_lt};
ghost use Rattle.qa_logs.specs.Choosing as choosing;
ghost use Rattle.qa_logs.specs.Choosing.{IsChosen, IsCounted};

use crate::fault::LogFault;
use qa_base::Role;
use qa_convert::{Choices, Dialect};
use std::alloc::{AllocError, Global};

/// What is asked of the trace of a log.
#[derive(Clone, Copy)]
pub struct Request {
    /// Of which endpoint it is, if the log has both or says neither.
    pub vantage: Option<Role>,
    /// Which of the traces that are of this endpoint, from 1 on; of a log with one, which of its
    /// connections.
    pub connection: Option<u64>,
    /// The kind of log, if the log does not say it.
    pub dialect: Option<Dialect>,
    /// What its header says.
    pub choices: Choices,
    /// Whether each line says where in the log it is from.
    pub has_places: bool,
}

/// The trace of a log that is converted.
#[derive(Clone, Copy)]
pub(crate) struct Chosen {
    /// Its number among all traces, from 1.
    pub(crate) trace: u64,
    /// Of which endpoint it is.
    pub(crate) role: Role,
    /// How many traces it could be, and which of these it is, from 1.
    pub(crate) count: u64,
    pub(crate) number: u64,
    /// Which of its connections is converted, from 1.
    pub(crate) connection: u64,
}

/// Which trace of a log is meant, by the endpoints of which its traces are.
pub(crate) fn choose(
    alloc: Global,
    roles: &[Option<Role>],
    request: &Request,
) -> Result<Chosen, LogFault>
    ensures { IfOk result (λ it. IsChosen roles.now request.now it) }
{
    if roles.is_empty() {
        return Err(LogFault::NoTraces);
    }
    let fitting = fitting_of(alloc, roles, request.vantage)?;
    let count = fitting.len() as u64;
    let (number, connection) = counted(count, request.connection)?;
    let at = number.saturating_sub(1) as usize;
    let Some(fit) = fitting.as_slice().get(at) else {
        return Err(lack_of(request.vantage));
    };
    Ok(Chosen {
        trace: fit.trace,
        role: fit.role,
        count,
        number,
        connection,
    })
}

/// Which of so many traces is meant, and which of its connections.
fn counted(count: u64, asked: Option<u64>) -> Result<(u64, u64), LogFault>
    ensures { IfOk result (λ both. IsCounted (nat_lt count 2) count asked both.0 both.1) }
{
    if count < 2 {
        return Ok((1, asked.unwrap_or(1)));
    }
    match numbered(count, asked) {
        Some(number) => Ok((number, 1)),
        None => Err(LogFault::NoTraceOf(count, asked.unwrap_or(1))),
    }
}

/// The number that is asked for, or 1, if there are so many.
fn numbered(count: u64, asked: Option<u64>) -> Option<u64>
    ensures { result ≡ choosing.numbered count asked }
{
    let number = asked.unwrap_or(1);
    if 1 <= number && number <= count {
        Some(number)
    } else {
        None
    }
}

/// A trace that could be meant.
#[derive(Clone, Copy)]
struct Fit {
    trace: u64,
    role: Role,
}

/// The traces that could be meant: those of the endpoint that is asked for, or of any; if there are
/// none, the first that does not say of which it is.
fn fitting_of(
    alloc: Global,
    roles: &[Option<Role>],
    asked: Option<Role>,
) -> Result<Vec<Fit>, AllocError>
    ensures { IfOk result (λ fits. fits.items ≡ choosing.fitting asked roles.now) }
{
    let fits = saying(alloc, roles, asked)?;
    if fits.is_empty() {
        unsaid(alloc, roles, asked)
    } else {
        Ok(fits)
    }
}

/// Those that say it.
fn saying(
    alloc: Global,
    roles: &[Option<Role>],
    asked: Option<Role>,
) -> Result<Vec<Fit>, AllocError>
    ensures { IfOk result (λ fits. fits.items ≡ choosing.saying 1 asked roles.now) }
{
    let mut fits = Vec::new(alloc);
    let mut trace: u64 = 0;
    for role in roles {
        trace = trace.saturating_add(1);
        add_fit(&mut fits, trace, of_role(*role, asked))?;
    }
    Ok(fits)
}

/// One more, if it could be meant.
fn add_fit(fits: &mut Vec<Fit>, trace: u64, role: Option<Role>) -> Result<(), AllocError>
    ensures { OnOk result (fits.new.items ≡ fits.old.items ++ choosing.fit trace role) }
{
    let Some(role) = role else {
        return Ok(());
    };
    fits.push(Fit { trace, role })?;
    Ok(())
}

/// The first that does not say of which endpoint it is, if one is asked for.
fn unsaid(
    alloc: Global,
    roles: &[Option<Role>],
    asked: Option<Role>,
) -> Result<Vec<Fit>, AllocError>
    ensures { IfOk result (λ fits. fits.items
        ≡ choosing.unsaid asked (choosing.first_unsaid 1 roles.now)) }
{
    let mut fits = Vec::new(alloc);
    let (Some(role), Some(trace)) = (asked, first_unsaid(roles)) else {
        return Ok(fits);
    };
    fits.push(Fit { trace, role })?;
    Ok(fits)
}

/// The endpoint of which a trace is, if it could be meant.
fn of_role(role: Option<Role>, asked: Option<Role>) -> Option<Role>
    ensures { result ≡ choosing.of_role role asked }
{
    match (role, asked) {
        (Some(role), Some(asked)) if role != asked => None,
        (role, _) => role,
    }
}

/// The number of the first trace that does not say of which endpoint it is.
fn first_unsaid(roles: &[Option<Role>]) -> Option<u64>
    ensures { result ≡ choosing.first_unsaid 1 roles.now }
{
    let mut trace: u64 = 0;
    for role in roles {
        trace = trace.saturating_add(1);
        if role.is_none() {
            return Some(trace);
        }
    }
    None
}

/// Why no trace could be meant.
fn lack_of(asked: Option<Role>) -> LogFault {
    match asked {
        None => LogFault::NoVantage,
        Some(Role::Client) => LogFault::NoClient,
        Some(Role::Server) => LogFault::NoServer,
    }
}
