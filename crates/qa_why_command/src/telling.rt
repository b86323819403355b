//! What is told of a trace, with warnings of what does nothing silently in it where they are
//! wanted.
ghost use Rattle.std.specs.Prelude.{◌≡◌};
ghost use Rattle.qa_arguments.specs.why.Asked.{wanted};
ghost use Rattle.qa_arguments.specs.declared.why.arguments.Told.TheVariants.{All, Why};
ghost use Rattle.qa_why_command.specs.Noted.{WasWarned, unnoted};
ghost use Rattle.qa_why_command.specs.Streams.{streams};
ghost use Rattle.qa_why_command.specs.Telling.{TellsRead, manner as manner_of};

use crate::warnings::Warnings;
use qa_arguments::why::{Inquiry, Told};
use qa_check::{AuditFault, Outcome, Sink, Source, write_whole};
use qa_format::Form;
use qa_sender::Running;
use qa_violations::{Manner, rows_all, why_all, why_around};
use qa_why::{NoNotes, rows};
use std::alloc::Global;

/// Tells of the trace of this name that is read, and of its warnings on the error stream, whose
/// failure changes nothing.
pub fn tell_read<R: Source, O: Sink, E: Sink>(
    alloc: Global,
    inquiry: &Inquiry<'_>,
    name: &str,
    reader: &mut R,
    output: &mut O,
    error: &mut E,
) -> Result<Outcome, AuditFault>
    ensures { TellsRead inquiry.now.told (wanted inquiry.now) name.now result
        (streams (R.left reader.old, R.last_read reader.old, R.read_failures reader.old)
        (O.held output.old, O.write_failures output.old)
        (E.held error.old, E.write_failures error.old))
        (streams (R.left reader.new, R.last_read reader.new, R.read_failures reader.new)
        (O.held output.new, O.write_failures output.new)
        (E.held error.new, E.write_failures error.new)) }
{
    match inquiry.told {
        Told::Why(form) => tell_why(alloc, inquiry, form, name, reader, output, error),
        Told::All(form) => tell_all(alloc, inquiry, form, name, reader, output, error),
        Told::Rows => rows::<Running, R, O>(alloc, reader, output),
        Told::AllRows => rows_all::<Running, R, O>(alloc, reader, output),
    }
}

/// How it is told in this form.
fn manner(inquiry: &Inquiry<'_>, form: Form) -> Manner
    ensures { result ≡ manner_of form (wanted inquiry.now) }
{
    Manner {
        form,
        quiet: inquiry.quiet,
        around: inquiry.around,
    }
}

/// Tells of a trace why it is refused, with the lines before where they are wanted.
fn tell_why<R: Source, O: Sink, E: Sink>(
    alloc: Global,
    inquiry: &Inquiry<'_>,
    form: Form,
    name: &str,
    reader: &mut R,
    output: &mut O,
    error: &mut E,
) -> Result<Outcome, AuditFault>
    ensures { TellsRead (Why form) (wanted inquiry.now) name.now result
        (streams (R.left reader.old, R.last_read reader.old, R.read_failures reader.old)
        (O.held output.old, O.write_failures output.old)
        (E.held error.old, E.write_failures error.old))
        (streams (R.left reader.new, R.last_read reader.new, R.read_failures reader.new)
        (O.held output.new, O.write_failures output.new)
        (E.held error.new, E.write_failures error.new)) }
{
    let manner = manner(inquiry, form);
    if inquiry.warn {
        let warnings = Warnings::new(alloc);
        let noted = why_around::<Running, Warnings, R, O>(
            alloc, manner, name, warnings, reader, output,
        );
        return warned(noted, error);
    }
    let told = why_around::<Running, NoNotes, R, O>(alloc, manner, name, NoNotes, reader, output);
    without_notes(told)
}

/// Tells of all violations of a trace, with the lines before where they are wanted.
fn tell_all<R: Source, O: Sink, E: Sink>(
    alloc: Global,
    inquiry: &Inquiry<'_>,
    form: Form,
    name: &str,
    reader: &mut R,
    output: &mut O,
    error: &mut E,
) -> Result<Outcome, AuditFault>
    ensures { TellsRead (All form) (wanted inquiry.now) name.now result
        (streams (R.left reader.old, R.last_read reader.old, R.read_failures reader.old)
        (O.held output.old, O.write_failures output.old)
        (E.held error.old, E.write_failures error.old))
        (streams (R.left reader.new, R.last_read reader.new, R.read_failures reader.new)
        (O.held output.new, O.write_failures output.new)
        (E.held error.new, E.write_failures error.new)) }
{
    let manner = manner(inquiry, form);
    if inquiry.warn {
        let warnings = Warnings::new(alloc);
        let noted = why_all::<Running, Warnings, R, O>(
            alloc, manner, name, warnings, reader, output,
        );
        return warned(noted, error);
    }
    let told = why_all::<Running, NoNotes, R, O>(alloc, manner, name, NoNotes, reader, output);
    without_notes(told)
}

/// The kind of the verdict alone.
fn without_notes(noted: Result<(Outcome, NoNotes), AuditFault>) -> Result<Outcome, AuditFault>
    ensures { result ≡ unnoted noted }
{
    match noted {
        Ok((outcome, _)) => Ok(outcome),
        Err(fault) => Err(fault),
    }
}

/// Writes the warnings of a trace that has a verdict on the error stream, whose failure changes
/// nothing.
fn warned<E: Sink>(
    noted: Result<(Outcome, Warnings), AuditFault>,
    error: &mut E,
) -> Result<Outcome, AuditFault>
    ensures outcome { result ≡ unnoted noted }
    ensures told { WasWarned noted (E.held error.old, E.write_failures error.old)
        (E.held error.new, E.write_failures error.new) }
{
    match noted {
        Ok((outcome, warnings)) => {
            let _begun = write_whole(error, warnings.text());
            Ok(outcome)
        }
        Err(fault) => Err(fault),
    }
}
