//! What a log says beside its records.
ghost use Rattle.std.specs.Prelude.{◌≡◌, ◌≢◌, ◌++◌, [], ◌∷◌, IfOk, None, Ok, OnOk, Some};
ghost use Rattle.json.specs.Find.{BeginsWith, Finds};
ghost use Rattle.json.specs.Json.{Json};
ghost use Rattle.qa_qlog.specs.Documents as documents;
ghost use Rattle.qa_qlog.specs.Kinds.{json_of};
ghost use Rattle.qa_logs.specs.Choosing as choosing;
ghost use Rattle.qa_logs.specs.Choosing.{AreRoles, HasRoles, HasTraces};
ghost use Rattle.qa_logs.specs.Heads as heads;
ghost use Rattle.qa_logs.specs.Heads.{IsDialect, IsHead, in_document, trace_of};
ghost use Rattle.qa_logs.specs.Records.{has_many};
ghost use Rattle.qa_logs.specs.Surveying.{IsAsked, IsDialectBy};

use crate::choosing::{Chosen, Request, choose};
use crate::cutting::Form;
use crate::fault::LogFault;
use crate::naming::dialect_in;
use crate::surveying::Surveying;
use json::{Element, Error as JsonError, Items, Scratch, Tape};
use qa_base::Role;
use qa_convert::{Asked, Dialect, Place};
use qa_qlog::{Head, NoHead, NoValue, head_in, head_of, traces_of};
use std::alloc::{AllocError, Global};

/// What a log says beside its records.
#[derive(Drop)]
pub struct Log {
    pub(crate) alloc: Global,
    pub(crate) form: Form,
    /// Its first text, and where it begins; or of a log that is one object what is beside its
    /// records.
    head: Vec<u8>,
    place: Place,
    /// The byte at which a log that is one object is torn off, if it is.
    pub(crate) torn_at: Option<u64>,
}

impl Log {
    /// A log of many texts whose first one this is, and begins there.
    pub(crate) fn of_texts(alloc: Global, form: Form, head: Vec<u8>, place: Place) -> Log
        ensures form { result.form ≡ form }
        ensures head { result.head.items ≡ head.items }
        ensures torn_at { result.torn_at ≡ None }
    {
        Log {
            alloc,
            form,
            head,
            place,
            torn_at: None,
        }
    }

    /// A log that is one object, which has this beside its records.
    pub(crate) fn of_document(alloc: Global, head: Vec<u8>, torn_at: Option<u64>) -> Log
        ensures form { result.form ≡ Form.Document }
        ensures head { result.head.items ≡ head.items }
        ensures torn_at { result.torn_at ≡ torn_at }
    {
        Log {
            alloc,
            form: Form::Document,
            head,
            place: Place::Byte(0),
            torn_at,
        }
    }

    /// The first reading of the records of one of its traces.
    pub fn survey(&self, request: Request) -> Result<Surveying, LogFault>
        ensures { IfOk result (λ surveying. IsAsked self.now request surveying) }
    {
        let roles = self.roles()?;
        let chosen = choose(self.alloc, roles.as_slice(), &request)?;
        let dialect = self.dialect_or(request.dialect, chosen.trace)?;
        let asked = Asked {
            role: chosen.role,
            dialect,
            connection: chosen.connection,
            choices: request.choices,
            has_places: request.has_places,
        };
        Ok(Surveying::new(self, chosen, self.head(chosen.trace)?, asked))
    }

    /// Whether its first text is its head, and no record.
    pub(crate) fn has_first_text(&self) -> bool
        ensures { result ≡ has_many self.now.form }
    {
        self.form != Form::Document
    }

    /// The endpoints of which its traces are.
    fn roles(&self) -> Result<Vec<Option<Role>>, LogFault>
        ensures { IfOk result (λ roles. AreRoles self.now roles.items) }
    {
        match self.form {
            Form::Texts(_) => one_role(self.alloc, self.head(1)?.role),
            Form::Document => self.trace_roles(),
        }
    }

    /// The same of a log that is one object.
    fn trace_roles(&self) -> Result<Vec<Option<Role>>, LogFault>
        ensures { IfOk result (λ roles. HasRoles (json_of self.now.head.items) roles.items) }
    {
        let mut scratch = Scratch::new(self.alloc);
        let tape = parsed(self.alloc, self.head.as_slice(), &mut scratch)?;
        roles_in(self.alloc, &tape.root())
    }

    /// The head of one of its traces, by its number from 1.
    pub(crate) fn head(&self, trace: u64) -> Result<Head, LogFault>
        ensures { IfOk result (λ head. IsHead self.now trace head) }
    {
        match self.form {
            Form::Texts(_) => match head_of(self.alloc, self.head.as_slice()) {
                Ok(head) => Ok(head),
                Err(NoHead::OutOfMemory) => Err(LogFault::OutOfMemory),
                Err(fault) => Err(LogFault::Head(self.place, fault)),
            },
            Form::Document => self.trace_head(trace),
        }
    }

    /// The same of a log that is one object.
    fn trace_head(&self, trace: u64) -> Result<Head, LogFault>
        ensures { IfOk result (λ head. in_document trace (json_of self.now.head.items)
            ≡ Ok head) }
    {
        let mut scratch = Scratch::new(self.alloc);
        let tape = parsed(self.alloc, self.head.as_slice(), &mut scratch)?;
        let document = tape.root();
        let found = trace_at(&document, trace)?;
        match head_in(self.alloc, &document, &found) {
            Ok(head) => Ok(head),
            Err(fault) => Err(LogFault::of_head(fault)),
        }
    }

    /// The kind of log that is asked for, or that one of its traces is, by its number from 1.
    fn dialect_or(&self, asked: Option<Dialect>, trace: u64) -> Result<Dialect, LogFault>
        ensures { IfOk result (IsDialectBy self.now trace asked) }
    {
        match asked {
            Some(dialect) => Ok(dialect),
            None => self.dialect(trace),
        }
    }

    /// The kind of log that one of its traces is, by its number from 1.
    fn dialect(&self, trace: u64) -> Result<Dialect, LogFault>
        ensures { IfOk result (IsDialect self.now trace) }
    {
        let mut scratch = Scratch::new(self.alloc);
        let tape = parsed(self.alloc, self.head.as_slice(), &mut scratch)?;
        let head = tape.root();
        let found = self.trace_in(&head, trace)?;
        Ok(dialect_in(&head, &found))
    }

    /// What says more of one of its traces than its head, by the number from 1 of the trace.
    fn trace_in<'t, 'a>(
        &self,
        head: &Element<'t, 'a>,
        trace: u64,
    ) -> Result<Option<Element<'t, 'a>>, LogFault>
        ensures { IfOk result (λ found. (j : Json) → BeginsWith head.now j
            → Finds found (heads.trace_in self.now.form trace j)) }
    {
        match self.form {
            Form::Texts(_) => Ok(head.get("trace")),
            Form::Document => trace_at(head, trace),
        }
    }
}

/// A text as JSON.
fn parsed<'a>(
    alloc: Global,
    bytes: &'a [u8],
    scratch: &'a mut Scratch,
) -> Result<Tape<'a>, LogFault>
    ensures { IfOk result (λ tape. (j : Json) × (json_of bytes.now ≡ Some j) × BeginsWith tape j) }
{
    let Ok(text) = str::from_utf8(bytes) else {
        return Err(LogFault::NotJson);
    };
    match Tape::parse(text, scratch, Vec::new(alloc)) {
        Ok(tape) => Ok(tape),
        Err(JsonError::Invalid) => Err(LogFault::NotJson),
        Err(_) => Err(LogFault::OutOfMemory),
    }
}

/// The endpoint of the one trace.
fn one_role(alloc: Global, role: Option<Role>) -> Result<Vec<Option<Role>>, LogFault>
    ensures { IfOk result (λ roles. roles.items ≡ role ∷ []) }
{
    let mut roles = Vec::new(alloc);
    add_role(&mut roles, role)?;
    Ok(roles)
}

/// One more endpoint.
fn add_role(roles: &mut Vec<Option<Role>>, role: Option<Role>) -> Result<(), AllocError>
    ensures { OnOk result (roles.new.items ≡ roles.old.items ++ role ∷ []) }
{
    roles.push(role)?;
    Ok(())
}

/// The endpoints of the traces of a document; None of one whose head does not say it, or cannot be
/// read.
fn roles_in(alloc: Global, document: &Element<'_, '_>) -> Result<Vec<Option<Role>>, LogFault>
    ensures { IfOk result (λ roles. (j : Json) → BeginsWith document.now j
        → roles.items ≡ choosing.roles_in j) }
{
    let mut roles = Vec::new(alloc);
    let Some(traces) = traces_in(document)? else {
        return Ok(roles);
    };
    let mut traces = traces;
    while let Some(trace) = traces.next() {
        let role = role_in(alloc, document, trace)?;
        add_role(&mut roles, role)?;
    }
    Ok(roles)
}

/// The endpoint of a trace.
fn role_in(
    alloc: Global,
    document: &Element<'_, '_>,
    trace: Element<'_, '_>,
) -> Result<Option<Role>, LogFault>
    ensures { IfOk result (λ role. (d t : Json) → BeginsWith document.now d
        → BeginsWith trace.entry t → role ≡ choosing.role_of d t) }
{
    match head_in(alloc, document, &Some(trace)) {
        Ok(head) => Ok(head.role),
        Err(fault) => no_role(fault),
    }
}

/// That a head that cannot be read says no endpoint.
fn no_role(fault: NoHead) -> Result<Option<Role>, LogFault>
    ensures { IfOk result (λ role. (role ≡ None) × (fault ≢ NoHead.OutOfMemory)) }
{
    match fault {
        NoHead::OutOfMemory => Err(LogFault::OutOfMemory),
        _ => Ok(None),
    }
}

/// The traces of a document.
fn traces_in<'t, 'a>(document: &Element<'t, 'a>) -> Result<Option<Items<'t, 'a>>, LogFault>
    ensures { IfOk result (λ found. (j : Json) → BeginsWith document.now j
        → HasTraces found (choosing.or_none (documents.traces j))) }
{
    match traces_of(document) {
        Ok(traces) => Ok(traces),
        Err(NoValue::Missing(_)) => Ok(None),
        Err(fault) => Err(LogFault::Traces(fault)),
    }
}

/// A trace of a document, by its number from 1.
fn trace_at<'t, 'a>(
    document: &Element<'t, 'a>,
    number: u64,
) -> Result<Option<Element<'t, 'a>>, LogFault>
    ensures { IfOk result (λ found. (j : Json) → BeginsWith document.now j
        → Finds found (trace_of number j)) }
{
    traces_in(document)?;
    let Some(traces) = document.get("traces") else {
        return Ok(None);
    };
    Ok(traces.at(number.saturating_sub(1) as usize))
}
