ghost use Rattle.std.specs.Prelude.{◌≡◌, ◌≢◌, List, codes, false, map, IfErr, IfOk, option_and_then, option_map};
ghost use Rattle.std.specs.String.{string_bytes};
ghost use Rattle.clap.specs.Words.{Text, first_of, found_of, kind_of, new_app, rows_of, rule_of, shape_of, subcommand_rows_of};
ghost use Rattle.clap.specs.Words.{app_of};
ghost use Rattle.clap.specs.declared.builder.command.Command.TheViews.{out-Command as fields_of};
ghost use Rattle.clap.specs.declared.builder.value_parser.ValueParser.{ValueParser};
ghost use Rattle.clap.specs.declared.error.kind.ErrorKind.TheVariants as kind;
ghost use Rattle.leasecheck.specs.CommandLine.{Request, Errs, Parsers, TakesWords, Parses, AsksFor, IsUsageOf, needed, flag};
ghost use Rattle.leasecheck.specs.CommandLine.{kind_rule, kind_words, rules_rule, rules_words, rules_asked};
ghost use Rattle.leasecheck.specs.CommandLine.{ack_app, show_app, replay_app, replay_app_begun, judge_app, draw_app, bare_app, leasecheck_app};
ghost use Rattle.leasecheck.specs.CommandLine.{kind_named, telling_of, is_given, judged, replayed, requested, requested_by};
ghost use Rattle.leasecheck.specs.CommandLine.{request_of, all_words, shown};
ghost use Rattle.leasecheck.specs.CommandLine.{capture_app, captured, form_of, form_told, side_asked, side_named, side_rule, side_words};

use crate::help;
use crate::tasks::{Asked, CaptureForm, Form, Kind, Task, Telling, Usage, VERSION};
use capture_texts::Side;
use clap::error::ErrorKind;
use clap::{Arg, ArgAction, ArgMatches, Command, Error};
use lease_state::Rules;
use lease_texts::rules_in;
use std::alloc::{AllocError, Global};

fn hex_argument<'a>(alloc: Global, help: &'a str) -> Arg<'a>
    ensures rule { rule_of result ≡ needed (codes "HEX") }
    ensures own { result.global ≡ false }
{
    Arg::new(alloc, "HEX").required(true).help(help)
}

// A command without its arguments.
fn command<'a>(
    alloc: Global,
    name: &'a str,
    about: &'a str,
    long_about: &'a str,
    end: &'a str,
) -> Command<'a>
    ensures app { app_of result ≡ new_app name.now }
    ensures own { (fields_of result).has_globals ≡ false }
{
    Command::new(alloc, name)
        .about(about)
        .long_about(long_about)
        .after_long_help(end)
}

fn ack_command<'a>(alloc: Global) -> Result<Command<'a>, AllocError>
    ensures { IfOk result (λ command. (app_of command ≡ ack_app) × ((fields_of command).has_globals ≡ false)) }
{
    let about = "Prints the acknowledgment that a lease break notification asks for";
    let bytes = hex_argument(
        alloc,
        "The notification's bytes as hexadecimal digits, or @FILE",
    );
    command(alloc, "ack", about, help::ACK, help::ACK_END).arg(bytes)
}

const KINDS: &[&str] = &["ask", "reply", "break", "ack", "response"];

fn kind_argument<'a>(alloc: Global) -> Arg<'a>
    ensures rule { (kinds : ValueParser) × TakesWords kind_words kinds × (rule_of result ≡ kind_rule kinds) }
    ensures own { result.global ≡ false }
{
    Arg::new(alloc, "KIND")
        .required(true)
        .value_parser(KINDS)
        .help("ask and reply: create contexts; break, ack and response: break messages")
}

fn show_command<'a>(alloc: Global) -> Result<Command<'a>, AllocError>
    ensures { IfOk result (λ command. (kinds : ValueParser) × TakesWords kind_words kinds × (app_of command ≡ show_app kinds)
        × ((fields_of command).has_globals ≡ false)) }
{
    let about = "Prints what create contexts or a break message hold";
    command(alloc, "show", about, help::SHOW, help::SHOW_END)
        .arg(kind_argument(alloc))?
        .arg(hex_argument(alloc, "The bytes as hexadecimal digits, or @FILE"))
}

fn file_argument<'a>(alloc: Global, help: &'a str) -> Arg<'a>
    ensures rule { rule_of result ≡ needed (codes "FILE") }
    ensures own { result.global ≡ false }
{
    Arg::new(alloc, "FILE").required(true).help(help)
}

fn messages_argument<'a>(alloc: Global) -> Arg<'a>
    ensures rule { rule_of result ≡ flag (codes "messages") }
    ensures own { result.global ≡ false }
{
    Arg::new(alloc, "messages")
        .long("messages")
        .action(ArgAction::SetTrue)
        .help("Says before each message what is in it, in a comment line")
}

const RULES: &[&str] = &[
    "by-client,as-free",
    "by-client,whole",
    "by-key,as-free",
    "by-key,whole",
];

fn rules_argument<'a>(alloc: Global) -> Arg<'a>
    ensures rule { (rules : ValueParser) × TakesWords rules_words rules × (rule_of result ≡ rules_rule rules) }
    ensures own { result.global ≡ false }
{
    Arg::new(alloc, "RULES")
        .long("rules")
        .value_parser(RULES)
        .help("The rules of the server; the profile's are by-client,as-free")
}

// The command without its last two arguments.
fn replay_begun<'a>(alloc: Global) -> Result<Command<'a>, AllocError>
    ensures { IfOk result (λ command. (app_of command ≡ replay_app_begun) × ((fields_of command).has_globals ≡ false)) }
{
    let about = "Prints the record of the run that a schedule asks for";
    let file = file_argument(alloc, "The schedule; - is standard input");
    let messages = messages_argument(alloc);
    let explain = explain_argument(
        alloc,
        "Says of each event that did nothing what stood in its way, in a comment line",
    );
    command(alloc, "replay", about, help::REPLAY, help::REPLAY_END)
        .arg(file)?
        .arg(messages)?
        .arg(explain)
}

fn replay_command<'a>(alloc: Global) -> Result<Command<'a>, AllocError>
    ensures { IfOk result (λ command. (rules : ValueParser) × TakesWords rules_words rules × (app_of command ≡ replay_app rules)
        × ((fields_of command).has_globals ≡ false)) }
{
    replay_begun(alloc)?
        .arg(json_argument(alloc))?
        .arg(rules_argument(alloc))
}

fn explain_argument<'a>(alloc: Global, help: &'a str) -> Arg<'a>
    ensures rule { rule_of result ≡ flag (codes "explain") }
    ensures own { result.global ≡ false }
{
    Arg::new(alloc, "explain")
        .long("explain")
        .action(ArgAction::SetTrue)
        .help(help)
}

fn json_argument<'a>(alloc: Global) -> Arg<'a>
    ensures rule { rule_of result ≡ flag (codes "json") }
    ensures own { result.global ≡ false }
{
    Arg::new(alloc, "json")
        .long("json")
        .action(ArgAction::SetTrue)
        .help("Prints the same as one JSON object, in one line")
}

fn judge_command<'a>(alloc: Global) -> Result<Command<'a>, AllocError>
    ensures { IfOk result (λ command. (app_of command ≡ judge_app) × ((fields_of command).has_globals ≡ false)) }
{
    let about = "Prints whether a record is safe, or where it first is not";
    let file = file_argument(alloc, "The record; - is standard input");
    let explain = explain_argument(alloc, "Says why, by the lines of the facts that make it so");
    command(alloc, "judge", about, help::JUDGE, help::JUDGE_END)
        .arg(file)?
        .arg(explain)?
        .arg(json_argument(alloc))
}

fn draw_command<'a>(alloc: Global) -> Result<Command<'a>, AllocError>
    ensures { IfOk result (λ command. (app_of command ≡ draw_app) × ((fields_of command).has_globals ≡ false)) }
{
    let about = "Prints a picture of a record, or of the run of a schedule, as SVG";
    let file = file_argument(alloc, "The record or the schedule; - is standard input");
    command(alloc, "draw", about, help::DRAW, help::DRAW_END).arg(file)
}

const SIDES: &[&str] = &["client", "server"];

fn side_argument<'a>(alloc: Global) -> Arg<'a>
    ensures rule { (sides : ValueParser) × TakesWords side_words sides × (rule_of result ≡ side_rule sides) }
    ensures own { result.global ≡ false }
{
    Arg::new(alloc, "SIDE").long("at").value_parser(SIDES).help(
        "Where the capture was made; at the server where it isn't said",
    )
}

fn record_argument<'a>(alloc: Global) -> Arg<'a>
    ensures rule { rule_of result ≡ flag (codes "record") }
    ensures own { result.global ≡ false }
{
    Arg::new(alloc, "record")
        .long("record")
        .action(ArgAction::SetTrue)
        .help(
            "Prints what the clients cached as a record, and the verdict and the findings as comment lines after it",
        )
}

fn capture_command<'a>(alloc: Global) -> Result<Command<'a>, AllocError>
    ensures { IfOk result (λ command. (sides : ValueParser) × TakesWords side_words sides × (app_of command ≡ capture_app sides)
        × ((fields_of command).has_globals ≡ false)) }
{
    let about = "Prints whether what a capture shows of leases can have been safe";
    let file = file_argument(alloc, "The capture, as lines; - is standard input");
    command(alloc, "capture", about, help::CAPTURE, help::CAPTURE_END)
        .arg(file)?
        .arg(side_argument(alloc))?
        .arg(record_argument(alloc))?
        .arg(json_argument(alloc))
}

fn client_command<'a>(alloc: Global) -> Command<'a>
    ensures app { app_of result ≡ new_app (codes "client") }
    ensures own { (fields_of result).has_globals ≡ false }
{
    let about = "Runs client machines that speak lines on standard input and output";
    command(alloc, "client", about, help::CLIENT, help::CLIENT_END)
}

fn server_command<'a>(alloc: Global) -> Command<'a>
    ensures app { app_of result ≡ new_app (codes "server") }
    ensures own { (fields_of result).has_globals ≡ false }
{
    let about = "Runs a server that speaks lines on standard input and output";
    command(alloc, "server", about, help::SERVER, help::SERVER_END)
}

fn kind_named(name: &str) -> Option<Kind>
    ensures { result ≡ kind_named name.now }
{
    if name == "ask" {
        Some(Kind::Ask)
    } else if name == "reply" {
        Some(Kind::Reply)
    } else if name == "break" {
        Some(Kind::Break)
    } else if name == "ack" {
        Some(Kind::Ack)
    } else if name == "response" {
        Some(Kind::Response)
    } else {
        None
    }
}

// The program without its commands.
fn bare_program<'a>(alloc: Global) -> Command<'a>
    ensures { app_of result ≡ bare_app }
{
    let about =
        "Reads and answers messages of SMB 2.1 leases, replays schedules and judges records";
    command(alloc, "leasecheck", about, help::PROGRAM, help::PROGRAM_END)
        .version(VERSION)
        .disable_help_subcommand(true)
        .subcommand_required(true)
}

fn program<'a>(alloc: Global) -> Result<Command<'a>, AllocError>
    ensures { IfOk result (λ command. (parsers : Parsers) × (app_of command ≡ leasecheck_app parsers)) }
{
    bare_program(alloc)
        .subcommand(ack_command(alloc)?)?
        .subcommand(show_command(alloc)?)?
        .subcommand(replay_command(alloc)?)?
        .subcommand(judge_command(alloc)?)?
        .subcommand(draw_command(alloc)?)?
        .subcommand(capture_command(alloc)?)?
        .subcommand(client_command(alloc))?
        .subcommand(server_command(alloc))
}

fn parse<'a>(alloc: Global, words: &'a [&'a str]) -> Result<ArgMatches<'a>, Error>
    ensures { Parses (map (λ word. word.now) words.now) result }
{
    program(alloc)?.try_get_matches_from(words)
}

// The words after the program's name, by which usage lines begin.
fn with_name<'a>(alloc: Global, words: &[&'a str]) -> Result<Vec<&'a str>, AllocError>
    ensures { IfOk result (λ all. map (λ word. word.now) all.items ≡ all_words (map (λ word. word.now) words.now)) }
{
    let mut all = Vec::new(alloc);
    all.push("leasecheck")?;
    all.extend_from_slice(words)?;
    Ok(all)
}

// What is told of an error that doesn't ask for the version.
fn usage_of(alloc: Global, error: &Error) -> Usage
    requires { kind_of error.now ≢ kind.DisplayVersion }
    ensures { (words : List Text) → Errs words (kind_of error.now) → IsUsageOf words result }
{
    let Ok(text) = format!(in alloc; "{error}") else {
        return Usage::Memory;
    };
    match error.kind() {
        ErrorKind::OutOfMemory => Usage::Memory,
        ErrorKind::DisplayHelp => Usage::Help(text),
        _ => Usage::Refused(text),
    }
}

// The first word that was found for an argument.
fn word_of<'a>(given: &ArgMatches<'a>, name: &str) -> Option<&'a str>
    ensures { option_map (λ word. word.now) result ≡ first_of name.now (rows_of (found_of given.now)) }
{
    given.get_str(name)
}

fn owned(alloc: Global, given: &ArgMatches, name: &str) -> Result<Option<String>, AllocError>
    ensures { IfOk result (λ text. option_map string_bytes text ≡ first_of name.now (rows_of (found_of given.now))) }
{
    match word_of(given, name) {
        Some(text) => Ok(Some(String::from_str(alloc, text)?)),
        None => Ok(None),
    }
}

fn shown_kind(given: &ArgMatches) -> Option<Kind>
    ensures { result ≡ option_and_then kind_named (first_of (codes "KIND") (rows_of (found_of given.now))) }
{
    match word_of(given, "KIND") {
        Some(name) => kind_named(name),
        None => None,
    }
}

// Whether a flag was given.
fn is_given(given: &ArgMatches, name: &str) -> bool
    ensures { result ≡ is_given (first_of name.now (rows_of (found_of given.now))) }
{
    match word_of(given, name) {
        Some(word) => word == "true",
        None => false,
    }
}

// Lines, where no JSON is wanted.
fn form_told(given: &ArgMatches) -> Form
    ensures { result ≡ form_told (is_given (first_of (codes "json") (rows_of (found_of given.now)))) }
{
    if is_given(given, "json") {
        Form::Json
    } else {
        Form::Lines
    }
}

fn telling_of(given: &ArgMatches) -> Telling
    ensures { result ≡ telling_of (is_given (first_of (codes "messages") (rows_of (found_of given.now))))
        (is_given (first_of (codes "explain") (rows_of (found_of given.now))))
        (is_given (first_of (codes "json") (rows_of (found_of given.now)))) }
{
    Telling {
        messages: is_given(given, "messages"),
        idle: is_given(given, "explain"),
        form: form_told(given),
    }
}

// The rules that are named; the profile's where there are none.
fn rules_given(given: &ArgMatches) -> Option<Rules>
    ensures { result ≡ rules_asked (first_of (codes "RULES") (rows_of (found_of given.now))) }
{
    match word_of(given, "RULES") {
        Some(name) => rules_in(name.as_bytes()),
        None => Some(Rules::profile()),
    }
}

fn side_named(name: &str) -> Option<Side>
    ensures { result ≡ side_named name.now }
{
    if name == "client" {
        Some(Side::Client)
    } else if name == "server" {
        Some(Side::Server)
    } else {
        None
    }
}

// The side that is named; the server's where there is none.
fn side_given(given: &ArgMatches) -> Option<Side>
    ensures { result ≡ side_asked (first_of (codes "SIDE") (rows_of (found_of given.now))) }
{
    match word_of(given, "SIDE") {
        Some(name) => side_named(name),
        None => Some(Side::Server),
    }
}

fn ack_asked(alloc: Global, given: &ArgMatches) -> Result<Option<Asked>, AllocError>
    ensures { IfOk result
        (λ found. option_map request_of found ≡ option_map Request.Ack (first_of (codes "HEX") (rows_of (found_of given.now)))) }
{
    match owned(alloc, given, "HEX")? {
        Some(argument) => Ok(Some(Asked::Task(Task::Ack(argument)))),
        None => Ok(None),
    }
}

fn show_asked(alloc: Global, given: &ArgMatches) -> Result<Option<Asked>, AllocError>
    ensures { IfOk result (λ found. option_map request_of found
        ≡ shown (option_and_then kind_named (first_of (codes "KIND") (rows_of (found_of given.now))))
        (first_of (codes "HEX") (rows_of (found_of given.now)))) }
{
    let Some(kind) = shown_kind(given) else {
        return Ok(None);
    };
    match owned(alloc, given, "HEX")? {
        Some(argument) => Ok(Some(Asked::Task(Task::Show(kind, argument)))),
        None => Ok(None),
    }
}

fn replay_asked(alloc: Global, given: &ArgMatches) -> Result<Option<Asked>, AllocError>
    ensures { IfOk result (λ found. option_map request_of found
        ≡ replayed (telling_of (is_given (first_of (codes "messages") (rows_of (found_of given.now))))
        (is_given (first_of (codes "explain") (rows_of (found_of given.now))))
        (is_given (first_of (codes "json") (rows_of (found_of given.now)))))
        (rules_asked (first_of (codes "RULES") (rows_of (found_of given.now))))
        (first_of (codes "FILE") (rows_of (found_of given.now)))) }
{
    let telling = telling_of(given);
    let Some(rules) = rules_given(given) else {
        return Ok(None);
    };
    match owned(alloc, given, "FILE")? {
        Some(path) => Ok(Some(Asked::Task(Task::Replay(path, telling, rules)))),
        None => Ok(None),
    }
}

fn judge_asked(alloc: Global, given: &ArgMatches) -> Result<Option<Asked>, AllocError>
    ensures { IfOk result (λ found. option_map request_of found
        ≡ judged (is_given (first_of (codes "explain") (rows_of (found_of given.now))))
        (is_given (first_of (codes "json") (rows_of (found_of given.now))))
        (first_of (codes "FILE") (rows_of (found_of given.now)))) }
{
    let (explains, json) = (is_given(given, "explain"), is_given(given, "json"));
    match owned(alloc, given, "FILE")? {
        Some(path) => {
            if json {
                Ok(Some(Asked::Task(Task::Explain(path, Form::Json))))
            } else if explains {
                Ok(Some(Asked::Task(Task::Explain(path, Form::Lines))))
            } else {
                Ok(Some(Asked::Task(Task::Judge(path))))
            }
        }
        None => Ok(None),
    }
}

fn draw_asked(alloc: Global, given: &ArgMatches) -> Result<Option<Asked>, AllocError>
    ensures { IfOk result
        (λ found. option_map request_of found
        ≡ option_map Request.Draw (first_of (codes "FILE") (rows_of (found_of given.now)))) }
{
    match owned(alloc, given, "FILE")? {
        Some(path) => Ok(Some(Asked::Task(Task::Draw(path)))),
        None => Ok(None),
    }
}

fn form_of(given: &ArgMatches) -> CaptureForm
    ensures { result ≡ form_of (is_given (first_of (codes "record") (rows_of (found_of given.now)))) }
{
    if is_given(given, "record") {
        CaptureForm::Record
    } else {
        CaptureForm::Findings
    }
}

fn capture_asked(alloc: Global, given: &ArgMatches) -> Result<Option<Asked>, AllocError>
    ensures { IfOk result (λ found. option_map request_of found
        ≡ captured (form_of (is_given (first_of (codes "record") (rows_of (found_of given.now)))))
        (form_told (is_given (first_of (codes "json") (rows_of (found_of given.now)))))
        (side_asked (first_of (codes "SIDE") (rows_of (found_of given.now))))
        (first_of (codes "FILE") (rows_of (found_of given.now)))) }
{
    let (form, told) = (form_of(given), form_told(given));
    let Some(side) = side_given(given) else {
        return Ok(None);
    };
    match owned(alloc, given, "FILE")? {
        Some(path) => Ok(Some(Asked::Task(Task::Capture(path, side, form, told)))),
        None => Ok(None),
    }
}

#[tactic(auto, unfolding(crate::specs::CommandLine::requested))]
fn asked_of(alloc: Global, name: &str, given: &ArgMatches) -> Result<Option<Asked>, AllocError>
    ensures { IfOk result (λ found. option_map request_of found ≡ requested name.now (rows_of (found_of given.now))) }
{
    if name == "ack" {
        ack_asked(alloc, given)
    } else if name == "show" {
        show_asked(alloc, given)
    } else if name == "replay" {
        replay_asked(alloc, given)
    } else if name == "judge" {
        judge_asked(alloc, given)
    } else if name == "draw" {
        draw_asked(alloc, given)
    } else if name == "capture" {
        capture_asked(alloc, given)
    } else if name == "client" {
        Ok(Some(Asked::Clients))
    } else if name == "server" {
        Ok(Some(Asked::Server))
    } else {
        Ok(None)
    }
}

fn found_in(alloc: Global, matches: &ArgMatches) -> Result<Option<Asked>, AllocError>
    ensures { IfOk result (λ found. option_map request_of found ≡ requested_by (subcommand_rows_of matches.now)) }
{
    match matches.subcommand() {
        Some((name, given)) => asked_of(alloc, name, given),
        None => Ok(None),
    }
}

/// Reads the words of a command line, those after the program's name.
///
/// # Errors
///
/// Help, where the words ask for it; else why they are refused, or that there is no memory to read them.
pub fn asked(alloc: Global, words: &[&str]) -> Result<Asked, Usage>
    ensures asked { IfOk result (λ asked. AsksFor (all_words (map (λ word. word.now) words.now)) (request_of asked)) }
    ensures usage { IfErr result (λ usage. IsUsageOf (all_words (map (λ word. word.now) words.now)) usage) }
{
    let Ok(all) = with_name(alloc, words) else {
        return Err(Usage::Memory);
    };
    let matches = match parse(alloc, all.as_slice()) {
        Ok(matches) => matches,
        Err(error) if error.kind() == ErrorKind::DisplayVersion => return Ok(Asked::Task(
            Task::Version,
        )),
        Err(error) => return Err(usage_of(alloc, &error)),
    };
    match found_in(alloc, &matches) {
        Ok(Some(asked)) => Ok(asked),
        _ => Err(Usage::Memory),
    }
}
