//! What ends a call, and the status and the line that tell of it.
ghost use Rattle.std.specs.Prelude.{◌≡◌, ◌++◌, ◌+◌, ◌≤◌, length, decimal};
ghost use Rattle.arrayvec.specs.ArrayString.{array_string_len};
ghost use Rattle.interproc_top.specs.Cause.{status_by, status_of, line_of, number_of, rule_name, text_rule_name, check_rule_name, place_line, step_line};

use arrayvec::ArrayString;
use itoa::Buffer;
use memory::NoMemory;
use spl_text::{Place, TextRule};
use spl_types::CheckRule;

/// How a call ended. Its number is the status of the process.
#[derive(Clone, Copy, Debug, PartialEq, Eq)]
pub enum Status {
    /// The whole output was written, and each `fail` is unreachable.
    Proved,
    /// The whole output was written, and some `fail` was not shown unreachable.
    Open,
    /// The words are of no form.
    Usage,
    /// A file breaks a rule, or gives no run.
    Refused,
    /// Opening, reading or writing failed.
    Outside,
    /// Memory was wanting.
    NoMemory,
}

impl Status {
    /// The status of the process.
    pub fn number(self) -> u8
        ensures { result ≡ number_of self }
    {
        match self {
            Status::Proved => 0,
            Status::Open => 1,
            Status::Usage => 2,
            Status::Refused => 3,
            Status::Outside => 4,
            Status::NoMemory => 5,
        }
    }
}

/// What a report says of the `fail`s of its program.
#[derive(Clone, Copy, Debug, Drop, PartialEq, Eq)]
pub enum Verdict {
    /// No run comes to any of them.
    AllUnreachable,
    /// For some of them this was not shown.
    SomeNotExcluded,
}

impl Verdict {
    pub fn status(self) -> Status
        ensures { result ≡ status_by self }
    {
        match self {
            Verdict::AllUnreachable => Status::Proved,
            Verdict::SomeNotExcluded => Status::Open,
        }
    }
}

/// A rule that a file may break: of tokens, of the grammar, or of the checks.
#[derive(Clone, Copy, Debug, PartialEq, Eq)]
pub enum Rule {
    Text(TextRule),
    Syntax,
    Check(CheckRule),
}

impl Rule {
    /// The rule by its name.
    fn name(self) -> &'static str
        ensures name { result.now ≡ rule_name self }
        ensures short { length result.now ≤ 19 }
    {
        match self {
            Rule::Text(rule) => text_rule_name(rule),
            Rule::Syntax => "Syntax",
            Rule::Check(rule) => check_rule_name(rule),
        }
    }
}

fn text_rule_name(rule: TextRule) -> &'static str
    ensures name { result.now ≡ text_rule_name rule }
    ensures short { length result.now ≤ 19 }
{
    match rule {
        TextRule::BadByte => "BadByte",
        TextRule::OpenComment => "OpenComment",
        TextRule::BigLiteral => "BigLiteral",
        TextRule::LongName => "LongName",
        TextRule::TooDeep => "TooDeep",
        TextRule::LongRun => "LongRun",
    }
}

fn check_rule_name(rule: CheckRule) -> &'static str
    ensures name { result.now ≡ check_rule_name rule }
    ensures short { length result.now ≤ 19 }
{
    match rule {
        CheckRule::UnsupportedType => "UnsupportedType",
        CheckRule::DuplicateName => "DuplicateName",
        CheckRule::UnknownVariable => "UnknownVariable",
        CheckRule::UnknownProcedure => "UnknownProcedure",
        CheckRule::WrongCount => "WrongCount",
        CheckRule::RepeatedTarget => "RepeatedTarget",
        CheckRule::WrongKind => "WrongKind",
        CheckRule::TooManyVariables => "TooManyVariables",
        CheckRule::TooManyProcedures => "TooManyProcedures",
        CheckRule::TooManyPoints => "TooManyPoints",
    }
}

impl From<NoMemory> for Cause {
    ghost use Rattle.std.specs.Prelude.{◌≡◌};
    ghost use Rattle.interproc_top.specs.declared.cause.Cause.{Cause};

    ghost from_gives = { λ _ cause. cause ≡ Cause.NoMemory };

    fn from(_wanting: NoMemory) -> Cause {
        Cause::NoMemory
    }
}

/// The first event that ends a call before its whole output is written, in the order in which they may come.
#[derive(Clone, Copy, Debug, PartialEq, Eq)]
pub enum Cause {
    Usage,
    CannotOpen,
    ReadFault,
    TooLong,
    /// The program breaks a rule at this place.
    Broken(Rule, Place),
    /// The choices are no such text; this is the place of the first fault.
    BadChoices(Place),
    /// The step with this number is none of a run.
    NotARun(u64),
    /// At the step with this number a value passes 128 bits.
    Wide(u64),
    WriteFault,
    NoMemory,
}

impl Cause {
    pub fn status(self) -> Status
        ensures { result ≡ status_of self }
    {
        match self {
            Cause::Usage => Status::Usage,
            Cause::TooLong
            | Cause::Broken(..)
            | Cause::BadChoices(_)
            | Cause::NotARun(_)
            | Cause::Wide(_) => Status::Refused,
            Cause::CannotOpen | Cause::ReadFault | Cause::WriteFault => Status::Outside,
            Cause::NoMemory => Status::NoMemory,
        }
    }

    /// The line for people. It takes no memory.
    pub fn line(self) -> ArrayString<96>
        ensures { result.bytes ≡ line_of self }
    {
        match self {
            Cause::Usage => fixed(
                "usage: interproc [--delay N] [--descend N] [--full] [--domain dec|full] FILE\n",
            ),
            Cause::CannotOpen => fixed("fault: CannotOpen\n"),
            Cause::ReadFault => fixed("fault: ReadFault\n"),
            Cause::TooLong => fixed("refused: TooLong\n"),
            Cause::Broken(rule, place) => at_place(rule.name(), place),
            Cause::BadChoices(place) => at_place("BadChoices", place),
            Cause::NotARun(step) => at_step("NotARun", step),
            Cause::Wide(step) => at_step("Wide", step),
            Cause::WriteFault => fixed("fault: WriteFault\n"),
            Cause::NoMemory => fixed("out of memory\n"),
        }
    }
}

/// A line that is always the same.
fn fixed(text: &str) -> ArrayString<96>
    requires { length text.now ≤ 96 }
    ensures { result.bytes ≡ text.now }
{
    let mut line = ArrayString::new();
    put(&mut line, text);
    line
}

/// A refusal with its place, as `refused: Syntax at L1 C7`.
fn at_place(name: &str, place: Place) -> ArrayString<96>
    requires short { length name.now ≤ 19 }
    ensures { result.bytes ≡ place_line name.now place }
{
    let mut line = fixed("refused: ");
    put(&mut line, name);
    put(&mut line, " at L");
    put(&mut line, Buffer::new().format(place.line));
    put(&mut line, " C");
    put(&mut line, Buffer::new().format(place.column));
    put(&mut line, "\n");
    line
}

/// A refusal with its step, as `refused: NotARun 4`.
fn at_step(name: &str, step: u64) -> ArrayString<96>
    requires short { length name.now ≤ 19 }
    ensures { result.bytes ≡ step_line name.now step }
{
    let mut line = fixed("refused: ");
    put(&mut line, name);
    put(&mut line, " ");
    put(&mut line, Buffer::new().format(step));
    put(&mut line, "\n");
    line
}

/// Appends a text for which there is room.
fn put(line: &mut ArrayString<96>, text: &str)
    requires room { length line.old.bytes + length text.now ≤ 96 }
    ensures { line.new.bytes ≡ line.old.bytes ++ text.now }
{
    let _ = line.try_push_str(text);
}
