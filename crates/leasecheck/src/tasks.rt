ghost use Rattle.std.specs.Prelude.{◌≡◌, option_map};
ghost use Rattle.leasecheck.specs.Paths.{file_named};

use capture_texts::Side;
use lease_state::Rules;

/// The kinds of bytes that can be shown.
#[derive(Clone, Copy, Debug, PartialEq, Eq)]
pub enum Kind {
    /// The create contexts of a request.
    Ask,
    /// The create contexts of a response.
    Reply,
    /// A lease break notification.
    Break,
    /// A lease break acknowledgment.
    Ack,
    /// A lease break response.
    Response,
}

/// How it is printed what a task finds.
#[derive(Clone, Copy, Debug, PartialEq, Eq)]
pub enum Form {
    /// In lines.
    Lines,
    /// As one JSON object.
    Json,
}

/// What a replay prints of a run besides its facts, and how.
#[derive(Clone, Copy, Debug, PartialEq, Eq)]
pub struct Telling {
    /// Before each fact that speaks of a message a comment line with what is in it.
    pub messages: bool,
    /// For each event that did nothing a comment line with what stood in its way.
    pub idle: bool,
    pub form: Form,
}

/// What is printed of what is found in a capture.
#[derive(Clone, Copy, Debug, PartialEq, Eq)]
pub enum CaptureForm {
    /// The verdict, and a line for each finding.
    Findings,
    /// The record of what the clients cached, and after it the same as comment lines.
    Record,
}

/// What a command line asks for.
#[derive(Debug, PartialEq, Eq, Drop)]
pub enum Task {
    /// The acknowledgment of the break notification whose bytes this argument gives: hexadecimal digits, or `@` and the name
    /// of a file that has the bytes.
    Ack(String),
    /// What the bytes hold that this argument gives in one of these ways.
    Show(Kind, String),
    /// The record of the run that the schedule in this file asks for, with a server of these rules.
    Replay(String, Telling, Rules),
    /// The verdict on the record in this file.
    Judge(String),
    /// The same, and why it is that, in this form.
    Explain(String, Form),
    /// The picture of the record in this file, or of the run of the schedule in it.
    Draw(String),
    /// What the capture in this file shows of leases, and the verdict on it, in these forms. It was made at this side of its
    /// connections.
    Capture(String, Side, CaptureForm, Form),
    /// The version of the program.
    Version,
}

/// What a command line asks for: a task that ends by itself, or machines that answer line by line.
#[derive(Debug, PartialEq, Eq, Drop)]
pub enum Asked {
    Task(Task),
    /// Client machines that speak on standard input and output.
    Clients,
    /// A server that speaks on standard input and output.
    Server,
}

/// The program's name and version, and the line of the kit that it is proved and built with.
pub const VERSION: &str = "leasecheck 0.4.0\nrattle-kit-13f logic dac8208d650f15bf\n";

/// The file that an argument of `ack` or `show` names, which begins with `@`.
pub fn file_named(argument: &str) -> Option<&str>
    ensures { option_map (λ path. path.now) result ≡ file_named argument.now }
{
    argument.strip_prefix('@')
}

impl Task {
    ghost use Rattle.std.specs.Prelude.{◌≡◌, option_map};
    ghost use Rattle.leasecheck.specs.Paths.{path_of};

    /// The file that it reads; a hyphen stands for standard input.
    pub fn path(&self) -> Option<&str>
        ensures { option_map (λ path. path.now) result ≡ path_of self.now }
    {
        match self {
            Task::Ack(argument) | Task::Show(_, argument) => file_named(argument.as_str()),
            Task::Version => None,
            Task::Replay(path, _, _)
            | Task::Judge(path)
            | Task::Explain(path, _)
            | Task::Draw(path)
            | Task::Capture(path, _, _, _) => Some(path.as_str()),
        }
    }
}

/// Why there is no task, with what is printed.
#[derive(Debug, Drop)]
pub enum Usage {
    /// Help was asked for; it goes to standard output.
    Help(String),
    /// The command line is refused; this goes to standard error.
    Refused(String),
    /// There was no memory to read the command line, or for what is said of it.
    Memory,
}
