//! Checkpoint and restart of pthread programs: does what its words ask for, on standard input, output and error. Where there are names
//! beside an image or a disk, the lines of listings and reports have them behind their addresses.
#![tactic(auto)]

mod asked;
mod beside;
mod giving;
mod keeping;
mod kept;
mod rules;
mod snapshots;
mod threads;
mod words;

use asked::{form_of, names_asked};
use beside::{Beside, Refusal, Trouble, copy_of};
use ckrt_cli::run_words;
use ckrt_cli_files::{OutputReason, ProgramWords, RealDisk, SystemSources, ToldWriter};
use ckrt_cli_names::{Form, NamedWriter, Names};
use ckrt_cli_reports::{SystemMeter, WrittenReport};
use ckrt_cli_words::{Job, Keeping, read_keeping, read_names, read_words};
use ckrt_disk::Calls;
use ckrt_look_recording::Rule;
use giving::Giving;
use keeping::{
    WrongKeeping, history_of, next_offset, without_last_line, words_without_history, wrong_keeping,
};
use kept::KeptWriter;
use rules::rules_for;
use snapshots::snapshots_for;
use std::cell::Cell;
use std::env;
use std::io::{self, ErrorKind, Write};
use std::marker::Brand;
use std::process::ExitCode;
use threads::{tell_driven, tell_looked_at};
use words::{
    WrongWords, guest_arguments, guest_variables, job_words, names_with_words, program_words,
    wrong_words,
};

/// How many bytes of reports are held, so that memory which is refused later takes none away. A job reports some lines.
const REPORT_ROOM: usize = 65_536;

/// How a job keeps a history whose words say nothing of it.
const NOTHING_KEPT: Keeping = Keeping {
    snapshots: None,
    may_end: false,
};

/// What a job is done with: its words, how it keeps a history, those that its program gets, the snapshots beside the history that it looks at, a
/// place for why an output failed, where it is known the job, and the rules by which it finds callers.
#[derive(Clone, Copy)]
struct Task<'a, 'j> {
    words: &'a [&'a str],
    keeping: Keeping,
    program: Option<ProgramWords<'a>>,
    snapshots: &'a str,
    why: &'a Cell<OutputReason>,
    job: Option<&'j Job<'a>>,
    rules: &'j [Rule],
}

/// Writes what was reported on standard error, with its names. Of a drive the line of its end tells the threads of its disk.
fn write_report(rt: &HostRuntime, task: Task<'_, '_>, status: u8, names: Names, bytes: &[u8]) {
    let mut names = names;
    if let Some(job) = task.job {
        let _ = tell_driven(rt, task.why, job, status, &mut names);
    }
    let mut report = NamedWriter::new(rt.alloc(), names, rt.stderr());
    if report.write_all(bytes).is_err() || report.flush().is_err() {
        // Without the memory for a line with names it is told without them.
        let _ = rt.stderr().write_all(bytes);
    }
}

/// The names that a hunt prints with, once more; none for another job, or where memory is refused.
fn names_of_kept(rt: &HostRuntime, task: Task<'_, '_>, printed: &Names) -> Names {
    let alloc = rt.alloc();
    if !matches!(task.job, Some(Job::Hunt(_))) {
        return Names::none(alloc);
    }
    match copy_of(alloc, printed) {
        Ok(bytes) => Names::parse(alloc, bytes).unwrap_or(Names::none(alloc)),
        Err(_) => Names::none(alloc),
    }
}

/// The path of the file that a job puts output in, where it does.
fn output_of<'a>(job: Option<&Job<'a>>) -> Option<&'a str> {
    match job {
        Some(Job::Drive(job)) => job.output,
        _ => None,
    }
}

/// The files of the system, with what lies beside the file that a job is about: its output, or the snapshots of its history.
fn sources_of<'a>(
    rt: &'a HostRuntime,
    task: Task<'a, '_>,
) -> SystemSources<'a, HostRuntime, RealDisk<'a, Brand>> {
    let sources = SystemSources::new(rt, task.why, Calls::new());
    if task.snapshots.is_empty() {
        sources.with_output(output_of(task.job))
    } else {
        sources.with_snapshots(task.snapshots)
    }
}

/// What a job came to: its status, what was reported, and, where the history of its drive failed, below which offset its output was put out.
#[derive(Drop)]
struct Ran {
    status: u8,
    report: Vec<u8>,
    history_ended: Option<u64>,
}

/// The job of these words on the standard streams; nothing where memory is refused.
fn run_once<'a>(
    rt: &'a HostRuntime,
    task: Task<'a, '_>,
    (printed, form): (Names, Form),
) -> Option<Ran> {
    let room = Vec::with_capacity(rt.alloc(), REPORT_ROOM).ok()?;
    let told = ToldWriter::new(io::writer(rt), task.why);
    let again = names_of_kept(rt, task, &printed);
    let named = NamedWriter::in_form(rt.alloc(), printed, form, told);
    let mut writer = KeptWriter::new(rt, task.why, again, named);
    let mut reporter = WrittenReport::new(room);
    let mut meter = SystemMeter::new(rt).saving_snapshots(task.keeping.snapshots);
    let sources = sources_of(rt, task);
    let status = run_words::<HostRuntime, Brand, _, _, _, _>(
        rt.alloc(),
        task.words,
        task.rules,
        &mut sources.with_words(rt.alloc(), task.program),
        &mut rt.reader(),
        &mut writer,
        &mut reporter,
        &mut meter,
    );
    let _ = writer.flush();
    Some(Ran {
        status,
        report: reporter.into_writer(),
        history_ended: meter.history_ended(),
    })
}

/// Writes what was reported of a job that was done; the answer is the program's status.
fn report(rt: &HostRuntime, task: Task<'_, '_>, reported: Names, ran: Option<Ran>) -> u8 {
    match ran {
        Some(ran) => {
            write_report(rt, task, ran.status, reported, &ran.report);
            ran.status
        }
        None => refuse_memory(rt),
    }
}

/// Says that the history of a drive has ended, and why.
fn tell_ended(rt: &HostRuntime, task: Task<'_, '_>, report: &[u8]) {
    let _ = rt.stderr().write_all(without_last_line(report));
    let history = history_of(task.job).unwrap_or("");
    let _ = eprintln!(rt; "the history {history} has ended; the drive goes on without it");
}

/// Does a drive again without its history, whose output was put out below this offset; the answer is the program's status.
fn go_on(rt: &HostRuntime, task: Task<'_, '_>, reported: Names, put_out: u64) -> u8 {
    let alloc = rt.alloc();
    let offset = match next_offset(task.job, put_out) {
        Some(offset) => match format!(in alloc; "{offset}") {
            Ok(text) => Some(text),
            Err(_) => return refuse_memory(rt),
        },
        None => None,
    };
    let offset = match &offset {
        Some(text) => Some(text.as_str()),
        None => None,
    };
    let Ok(words) = words_without_history(alloc, task.words, offset) else {
        return refuse_memory(rt);
    };
    let why = Cell::new(OutputReason::Other);
    let task = Task {
        words: &words,
        keeping: NOTHING_KEPT,
        why: &why,
        ..task
    };
    let ran = run_once(rt, task, (Names::none(alloc), Form::Notes));
    report(rt, task, reported, ran)
}

/// The job of these words on the standard streams; the answer is the program's status. Where the history of its drive fails, and may, the drive
/// goes on without it.
fn run<'a>(rt: &'a HostRuntime, task: Task<'a, '_>, printed: (Names, Form), reported: Names) -> u8 {
    let ran = run_once(rt, task, printed);
    match &ran {
        Some(
            Ran {
                report,
                history_ended: Some(put_out),
                ..
            },
        ) if task.keeping.may_end => {
            tell_ended(rt, task, report);
            return go_on(rt, task, reported, *put_out);
        }
        _ => {}
    }
    report(rt, task, reported, ran)
}

/// A task without names.
fn run_plain<'a>(rt: &'a HostRuntime, task: Task<'a, '_>) -> u8 {
    let alloc = rt.alloc();
    let printed = (Names::none(alloc), Form::Notes);
    run(rt, task, printed, Names::none(alloc))
}

/// Says why names can't be used; the answer is the program's status.
fn refuse(rt: &HostRuntime, refusal: Refusal<'_>) -> u8 {
    let Refusal { path, trouble } = refusal;
    let text = trouble.text();
    let name = trouble.name();
    let _ = eprintln!(rt; "the names {path}.names: {text}\nckrt: {name}");
    1
}

/// Says that memory was refused; the answer is the program's status.
fn refuse_memory(rt: &HostRuntime) -> u8 {
    let _ = eprintln!(rt; "the system refused memory\nckrt: OutOfMemory");
    1
}

/// A job, with the names beside its files, which what it makes gets too. Where memory is refused it makes none.
fn run_with<'a>(rt: &'a HostRuntime, task: Task<'a, '_>, job: &Job<'a>, names: Beside<'a>) -> u8 {
    let Beside {
        mut printed,
        reported,
        unused,
        gift,
    } = names;
    let _ = tell_looked_at(rt, task.why, job, &mut printed);
    if let Some(Refusal { path, trouble }) = unused {
        let text = trouble.text();
        let _ = eprintln!(rt; "the names {path}.names: {text}; this goes on without them");
    }
    let Ok(rules) = rules_for(rt.alloc(), job, &printed) else {
        return refuse_memory(rt);
    };
    let giving = match (gift, task.program) {
        (Some(bytes), Some(words)) => {
            let bytes = names_with_words(rt, rt.alloc(), job, &words, bytes);
            Giving::begin(rt, rt.alloc(), job, bytes).ok()
        }
        (Some(bytes), None) => Giving::begin(rt, rt.alloc(), job, bytes).ok(),
        (None, _) => None,
    };
    let task = Task {
        job: Some(job),
        rules: rules.as_slice(),
        ..task
    };
    let status = run(rt, task, (printed, form_of(job)), reported);
    if let Some(giving) = giving {
        let _ = giving.end(rt, job, status);
    }
    status
}

/// Says that the names of `--names` can't be used; the answer is the program's status.
fn refuse_asked(rt: &HostRuntime, path: &str, trouble: Trouble) -> u8 {
    let text = trouble.text();
    let name = trouble.name();
    let _ = eprintln!(rt; "the names {path}: {text}\nckrt: {name}");
    1
}

/// A job, with the names of a file in place of those beside its files.
fn run_asked<'a>(rt: &'a HostRuntime, task: Task<'a, '_>, job: &Job<'a>, path: &str) -> u8 {
    match names_asked(rt, rt.alloc(), job, path) {
        Ok(names) => run_with(rt, task, job, names),
        Err(trouble) => refuse_asked(rt, path, trouble),
    }
}

/// A job, where its names can be used.
fn run_named<'a>(rt: &'a HostRuntime, task: Task<'a, '_>, job: &Job<'a>) -> u8 {
    match read_names(rt.alloc(), task.words) {
        Ok(Some(path)) => return run_asked(rt, task, job, path),
        Ok(None) => {}
        Err(_) => return refuse_asked(rt, "FILE", Trouble::OutOfMemory),
    }
    match beside::before(rt, rt.alloc(), job) {
        Ok(names) => run_with(rt, task, job, names),
        Err(refusal) => refuse(rt, refusal),
    }
}

/// Says what is wrong with the words on how a history is kept; the answer is the program's status.
fn refuse_keeping(rt: &HostRuntime, wrong: WrongKeeping) -> u8 {
    let text = wrong.text();
    let _ = eprintln!(rt; "error: {text}");
    2
}

/// Says what is wrong with the words for a program; the answer is the program's status.
fn refuse_words(rt: &HostRuntime, wrong: WrongWords<'_>) -> u8 {
    let _ = match wrong {
        WrongWords::NotAVariable(text) => {
            eprintln!(rt; "error: --env '{text}' isn't NAME=VALUE")
        }
        WrongWords::NoImage => {
            eprintln!(rt; "error: words after -- and --env go into an image: give it by --image")
        }
    };
    2
}

/// The words of a job, with those for its guest.
fn run_given<'a>(
    rt: &'a HostRuntime,
    words: &'a [&'a str],
    arguments: &'a [&'a str],
    variables: &'a [&'a str],
    snapshots: &'a str,
    why: &'a Cell<OutputReason>,
) -> u8 {
    let task = Task {
        words,
        keeping: NOTHING_KEPT,
        program: program_words(arguments, variables),
        snapshots,
        why,
        job: None,
        rules: &[],
    };
    let Ok(job) = read_words(rt.alloc(), words) else {
        return run_plain(rt, task);
    };
    let Ok(keeping) = read_keeping(rt.alloc(), words) else {
        return refuse_memory(rt);
    };
    if let Some(wrong) = wrong_keeping(keeping, &job) {
        return refuse_keeping(rt, wrong);
    }
    match wrong_words(task.program, &job) {
        Some(wrong) => refuse_words(rt, wrong),
        None => run_named(rt, Task { keeping, ..task }, &job),
    }
}

/// The job of the arguments after the program's name.
fn run_arguments(rt: &HostRuntime) -> io::Result<u8> {
    let arguments: Vec<String> = env::args(rt)?.collect(rt.alloc())?;
    let words = job_words(rt.alloc(), arguments.as_slice())?;
    let given = guest_arguments(rt.alloc(), arguments.as_slice())?;
    let variables = guest_variables(rt.alloc(), arguments.as_slice())?;
    let snapshots = snapshots_for(rt, &words);
    let why = Cell::new(OutputReason::Other);
    let paths = snapshots.as_str();
    Ok(run_given(rt, &words, &given, &variables, paths, &why))
}

/// How the program is used; the answer is its status.
fn show_usage<'a>(rt: &'a HostRuntime, words: &'a [&'a str], why: &'a Cell<OutputReason>) -> u8 {
    let task = Task {
        words,
        keeping: NOTHING_KEPT,
        program: None,
        snapshots: "",
        why,
        job: None,
        rules: &[],
    };
    run_plain(rt, task)
}

fn main(rt: HostRuntime) -> ExitCode {
    match run_arguments(&rt) {
        Ok(status) => ExitCode::from(status),
        Err(error) if error.kind() == ErrorKind::OutOfMemory => ExitCode::from(refuse_memory(&rt)),
        Err(_) => {
            let _ = eprintln!(rt; "error: an argument isn't text\n");
            let why = Cell::new(OutputReason::Other);
            ExitCode::from(show_usage(&rt, &["--help"], &why))
        }
    }
}
