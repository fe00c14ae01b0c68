//! The program, as it is run for an order other than `log` and `race`.

ghost use Rattle.std.specs.Prelude.{◌≡◌, ◌↔◌, IfOk};
ghost use Rattle.cq_program.specs.Starts.{IsBasic, IsDoneAtOnce, IsForOne};

use crate::checking::print_news;
use crate::fault::StartFault;
use crate::making::{make_folder, remove_made};
use crate::output::Output;
use crate::starting::Terminals;
use cq_advice::{Explained, explain};
use cq_commands::Took;
use cq_folder::{Folder, LOG_FILE};
use cq_following::{FolderChanges, Pipe, Watch, follow, take_waiting};
use cq_logged::{LogFault, LogNews, LoggedFolder, SystemLock};
use cq_names::names;
use cq_new::{init_line, settings_of};
use cq_orders::{
    InitSettings, InputForm, NewSettings, Order, ReadSettings, TakeSettings, WriteSettings,
};
use cq_points::moment_now;
use cq_progress::{Progress, with_progress};
use cq_real_folder::RealFolder;
use cq_repair::repair;
use cq_running::run;
use cq_text::print;
use cq_trim::trim;
use cq_writing::{Batch, Begun, write_by};
use std::alloc::{AllocError, Global};
use std::fs::File;
use std::io;
use std::rt::{Clock, Files};
use std::sync::Wait;
use std::thread::Threads;

/// What a command came to that did not fail.
#[derive(Clone, Copy)]
pub(crate) enum Outcome {
    /// It was done.
    Done,
    /// There was nothing to take.
    Nothing,
}

/// What a terminal shows of a command that works or waits.
const AT_WORK: &str = "at work, or waiting for another command in the folder";

/// The same of one that reads its input.
const AT_INPUT: &str = "at work, or waiting for its input or another command";

/// The program, with what its start was given.
#[derive(Drop)]
pub(crate) struct Program<'a, R, E> {
    /// The system.
    pub rt: &'a R,
    /// Where errors are printed.
    pub errors: &'a E,
    /// The number of the process.
    pub process: u32,
    /// Which streams are terminals.
    pub terminals: Terminals,
    /// The line that says how long the work has taken. It is erased before anything is printed.
    pub progress: Option<&'a Progress>,
}

impl<'a, R, E> Program<'a, R, E>
where
    R: AllocGlobal
        + Files<File = File>
        + Input
        + Print
        + Eprint
        + Clock
        + Threads
        + Wait
        + Sync
        + Clone,
    E: Eprint,
{
    /// Runs an order, over the folder that it names and the standard streams.
    pub fn run(&self, order: &Order) -> Result<Outcome, StartFault>
        requires { IsBasic order.now }
    {
        match order {
            Order::New { folder, settings } => self.make(folder.as_str(), settings),
            Order::Explain { words } => self.explain(words.as_slice()),
            _ => self.run_for_one(order),
        }
    }

    /// Prints what faults mean.
    fn explain(&self, words: &[String]) -> Result<Outcome, StartFault> {
        match explain(self.rt.alloc(), words, &mut io::writer(self.rt))? {
            Explained::Known => Ok(Outcome::Done),
            Explained::Unknown => Err(StartFault::UnknownFault),
        }
    }

    /// Makes a folder with a queue, and prints the line of `init` that does the same.
    fn make(&self, path: &str, given: &NewSettings) -> Result<Outcome, StartFault> {
        let alloc = self.rt.alloc();
        let settings = settings_of(alloc, given)?;
        let line = line_of(alloc, path, &settings)?;
        self.make_queue(path, settings)?;
        print(&mut io::writer(self.rt), line.as_bytes())?;
        Ok(Outcome::Done)
    }

    /// Makes a folder with a queue of these settings.
    fn make_queue(&self, path: &str, settings: InitSettings) -> Result<(), StartFault> {
        let init = init_order(self.rt.alloc(), path, settings)?;
        let made = self.make_by(&init, path);
        drop(init);
        made
    }

    /// Makes a folder with a queue, by the order to make the queue. A folder that was made is removed again if the queue is refused.
    fn make_by(&self, init: &Order, path: &str) -> Result<(), StartFault>
        requires { IsForOne init.now }
    {
        let is_made = make_folder(self.rt, path)?;
        let made = self.run_for_one(init);
        if is_made && made.is_err() {
            remove_made(self.rt, path);
        }
        made?;
        Ok(())
    }

    /// Runs an order for one caller. On a terminal it says for how long, if it takes long and prints little.
    fn run_for_one(&self, order: &Order) -> Result<Outcome, StartFault>
        requires { IsForOne order.now }
    {
        let Some(words) = lasting(self.terminals, order) else {
            return self.run_seen(order);
        };
        let progress = Progress::new();
        let program = self.with(&progress);
        let work = ||
            requires { IsForOne order.now }
        { program.run_seen(order) };
        with_progress(self.rt, words, &progress, work)
    }

    /// Returns the same program, which erases this line before it prints.
    fn with<'b>(&self, progress: &'b Progress) -> Program<'b, R, E>
    where
        'a: 'b,
    {
        Program {
            rt: self.rt,
            errors: self.errors,
            process: self.process,
            terminals: self.terminals,
            progress: Some(progress),
        }
    }

    /// Erases the line that says how long the work has taken.
    fn quiet(&self) {
        if let Some(progress) = self.progress {
            progress.end(self.rt);
        }
    }

    /// Returns the standard output.
    fn output(&self) -> Output<'a, R> {
        Output {
            rt: self.rt,
            progress: self.progress,
        }
    }

    /// Runs an order for one caller, over a folder that is seen with what its log gives. If the log is not shown, `errors` says so.
    fn run_seen(&self, order: &Order) -> Result<Outcome, StartFault>
        requires { IsForOne order.now }
    {
        let mut folder = self.logged_folder(order.folder().unwrap_or(""))?;
        let done = self.run_and_say(order, &mut folder);
        let (folder, cause) = folder.into_parts();
        let ended = self.end(done, cause);
        drop(folder);
        ended
    }

    /// Runs an order for one caller over such a folder, and prints what it found of the log.
    fn run_and_say(
        &self,
        order: &Order,
        folder: &mut LoggedFolder<RealFolder<'a, R>, SystemLock<'a, R>>,
    ) -> Result<Outcome, StartFault>
        requires { IsForOne order.now }
    {
        let outcome = self.run_in(order, folder)?;
        self.say_news(order, folder.news())?;
        Ok(outcome)
    }

    /// Prints what `check` found of the log, if that is the order and there was something.
    fn say_news(&self, order: &Order, news: Option<LogNews>) -> Result<(), StartFault> {
        match (order, news) {
            (Order::Check { folder: _ }, Some(news)) => {
                Ok(print_news(self.rt.alloc(), &mut self.output(), news)?)
            }
            _ => Ok(()),
        }
    }

    /// Returns the folder of this path, which is seen with what its log gives.
    fn logged_folder(
        &self,
        path: &str,
    ) -> Result<LoggedFolder<RealFolder<'a, R>, SystemLock<'a, R>>, AllocError> {
        let alloc = self.rt.alloc();
        let path = String::from_str(alloc, path)?;
        let lock = SystemLock::new(self.rt, format!(in alloc; "{path}/{LOG_FILE}")?);
        Ok(LoggedFolder::new(alloc, RealFolder::new(self.rt, path, self.process), lock))
    }

    /// Runs an order for one caller over a folder and the standard streams.
    fn run_in<F: Folder>(&self, order: &Order, folder: &mut F) -> Result<Outcome, StartFault>
        requires { IsForOne order.now }
    {
        match order {
            Order::Write { folder: _, moment } => {
                let settings = WriteSettings {
                    moment: Some(*moment),
                    form: InputForm::Lines,
                };
                self.write(folder, settings)
            }
            Order::WriteBy {
                folder: _,
                settings,
            } => self.write(folder, *settings),
            Order::Follow {
                folder: path,
                settings,
                seconds,
            } => self.follow(folder, path.as_str(), settings, *seconds),
            Order::TakeBy {
                folder: path,
                name,
                settings,
            } => self.take_by(folder, path.as_str(), name.as_str(), settings),
            Order::Race { .. } | Order::Log { .. } | Order::New { .. } | Order::Explain { .. } => {
                unreachable!()
            }
            _ => self.run_at_once(order, folder),
        }
    }

    /// Runs an order that appends no message and waits for none.
    fn run_at_once<F: Folder>(&self, order: &Order, folder: &mut F) -> Result<Outcome, StartFault>
        requires { IsDoneAtOnce order.now }
    {
        let alloc = self.rt.alloc();
        let mut output = self.output();
        match order {
            Order::Trim { settings, .. } => trim(alloc, folder, settings, &mut output)?,
            Order::Names { change, .. } => names(alloc, folder, change, &mut output)?,
            Order::Repair { file, dry_run, .. } => {
                repair(alloc, folder, file.as_str(), *dry_run, &mut output)?;
            }
            _ => run(alloc, order, folder, &mut self.rt.reader(), &mut output)?,
        }
        Ok(Outcome::Done)
    }

    /// Appends the messages of the input as options say. Without a moment it is the time of the clock. On a terminal it says which
    /// cycle begins.
    fn write<F: Folder>(
        &self,
        folder: &mut F,
        settings: WriteSettings,
    ) -> Result<Outcome, StartFault> {
        let moment = match settings.moment {
            Some(moment) => moment,
            None => moment_now(self.rt)?,
        };
        let batch = Batch {
            moment,
            form: settings.form,
        };
        let begun = write_by(
            self.rt.alloc(),
            folder,
            batch,
            &mut self.rt.reader(),
            &mut self.output(),
        )?;
        self.say_begun(begun);
        Ok(Outcome::Done)
    }

    /// Says which cycle began, if errors are printed to a terminal. Seconds that were given as milliseconds are seen so.
    fn say_begun(&self, begun: Option<Begun>) {
        if let Some(Begun { name, .. }) = begun
            && self.terminals.errors
        {
            self.quiet();
            let _ = eprintln!(self.errors; "cq: begins cycle {name}");
        }
    }

    /// Prints messages, and goes on as more come.
    fn follow<F: Folder>(
        &self,
        folder: &mut F,
        path: &str,
        settings: &ReadSettings,
        seconds: Option<u64>,
    ) -> Result<Outcome, StartFault> {
        let mut watch = Watch::new(self.rt, FolderChanges::new(self.rt, path)?);
        let mut output = Pipe::new(io::writer(self.rt));
        let followed = follow(&mut watch, folder, settings, seconds, &mut output);
        drop(output);
        drop(watch);
        followed?;
        Ok(Outcome::Done)
    }

    /// Takes messages as options say.
    fn take_by<F: Folder>(
        &self,
        folder: &mut F,
        path: &str,
        name: &str,
        settings: &TakeSettings,
    ) -> Result<Outcome, StartFault> {
        let mut watch = Watch::new(self.rt, FolderChanges::new(self.rt, path)?);
        let took = take_waiting(&mut watch, folder, name, settings, &mut io::writer(self.rt));
        drop(watch);
        Ok(outcome_of(took?))
    }

    /// Returns what an order came to, by why its log kept it out or was not shown. If the log is not shown, `errors` says so.
    fn end(
        &self,
        done: Result<Outcome, StartFault>,
        cause: Option<LogFault>,
    ) -> Result<Outcome, StartFault> {
        let Some(cause) = cause else {
            return done;
        };
        if matches!(cause, LogFault::NotShown(_)) {
            self.quiet();
            let _ = eprintln!(self.errors; "cq: {cause}");
            drop(cause);
            return done;
        }
        done.or(Err(StartFault::Log(cause)))
    }
}

/// Returns what is said of an order while it takes long; `None` if nothing is said. An order that prints messages may wait for whom
/// it prints them to.
fn lasting(terminals: Terminals, order: &Order) -> Option<&'static str> {
    if !terminals.errors {
        return None;
    }
    match order {
        Order::Write { .. } | Order::WriteBy { .. } if !terminals.input => Some(AT_INPUT),
        Order::Init { .. }
        | Order::DropBefore { .. }
        | Order::Trim { .. }
        | Order::Check { .. }
        | Order::Stat { .. }
        | Order::Migrate { .. }
        | Order::Names { .. }
        | Order::Repair { .. } => Some(AT_WORK),
        _ => None,
    }
}

/// Returns the order to make a queue with these settings in the folder of this path.
fn init_order(alloc: Global, path: &str, settings: InitSettings) -> Result<Order, AllocError>
    ensures { IfOk result IsForOne }
{
    let folder = String::from_str(alloc, path)?;
    Ok(Order::Init { folder, settings })
}

/// Returns the line of `init` that makes a queue with these settings in the folder of this path, with its line feed.
fn line_of(alloc: Global, path: &str, settings: &InitSettings) -> Result<String, AllocError> {
    let mut line = init_line(alloc, path, settings)?;
    line.push('\n')?;
    Ok(line)
}

/// Returns what a `take` with options came to.
fn outcome_of(took: Took) -> Outcome
    ensures { result ≡ Outcome.Nothing ↔ took ≡ Took.Nothing }
{
    match took {
        Took::Messages => Outcome::Done,
        Took::Nothing => Outcome::Nothing,
    }
}
