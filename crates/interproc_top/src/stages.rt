//! The stages from the bytes of a file to its report: tokens, grammar, checks, and the analysis.
ghost use Rattle.std.specs.Prelude.{◌≤◌, ◌^◌, length, IfOk, IfErr};
ghost use Rattle.spl_text.specs.Pieces.{Cut};
ghost use Rattle.spl_text.specs.TextRules.{IsUnbroken};
ghost use Rattle.spl_tree.specs.Meaning.{program_of};
ghost use Rattle.spl_parser.specs.Derives.{Derives};
ghost use Rattle.interproc_top.specs.Accepted.{IsTokenized, IsParsed, IsAccepted, BreaksAt};
ghost use Rattle.interproc_top.specs.Reported.{IsReportOf, Refuses};

use crate::analysis::{Options, Report, analysed};
use crate::cause::{Cause, Rule};
use command_words::DomainName;
use spl_parser::{ParseFault, parse};
use spl_text::{TextFault, Tokens, place_of, tokens};
use spl_tree::Tree;
use spl_types::{CheckFault, Checked, check};
use std::alloc::Global;

/// The report on a program by its bytes, or the first thing that stands against it: a broken rule, or want of memory.
pub fn report_of(
    alloc: Global,
    domain: DomainName,
    bytes: &[u8],
    options: Options,
) -> Result<Report, Cause>
    requires short { length bytes.now ≤ 2 ^ 20 }
    requires delay { options.delay ≤ 1000 }
    requires descend { options.descend ≤ 1000 }
    ensures report { IfOk result (λ report. IsReportOf options bytes.now report.text.items report.verdict) }
    ensures refused { IfErr result (Refuses bytes.now) }
{
    let tokens = tokens_of(alloc, bytes)?;
    let tree = tree_of(alloc, bytes, &tokens)?;
    let checked = checked_of(alloc, bytes, &tree)?;
    match analysed(alloc, domain, bytes, &checked, options) {
        Ok(report) => Ok(report),
        Err(_) => Err(Cause::NoMemory),
    }
}

/// The tokens of the bytes.
pub fn tokens_of(alloc: Global, bytes: &[u8]) -> Result<Tokens, Cause>
    requires short { length bytes.now ≤ 2 ^ 20 }
    ensures tokenized { IfOk result (λ tokens. IsTokenized bytes.now tokens) }
    ensures refused { IfErr result (Refuses bytes.now) }
{
    match tokens(alloc, bytes) {
        Ok(tokens) => Ok(tokens),
        Err(TextFault::Broken(rule, offset)) => Err(broken_at(bytes, Rule::Text(rule), offset)),
        Err(TextFault::NoMemory) => Err(Cause::NoMemory),
    }
}

/// The tree that the tokens derive.
pub fn tree_of(alloc: Global, bytes: &[u8], tokens: &Tokens) -> Result<Tree, Cause>
    requires short { length bytes.now ≤ 2 ^ 20 }
    requires tokenized { IsTokenized bytes.now tokens.now }
    ensures parsed { IfOk result (λ tree. IsParsed bytes.now (program_of tree)) }
    ensures refused { IfErr result (Refuses bytes.now) }
{
    match parse(alloc, bytes, tokens) {
        Ok(tree) => Ok(tree),
        Err(ParseFault::Syntax(offset)) => Err(broken_at(bytes, Rule::Syntax, offset)),
        Err(ParseFault::NoMemory) => Err(Cause::NoMemory),
    }
}

/// The tree, once it breaks no rule.
pub fn checked_of<'t>(alloc: Global, bytes: &[u8], tree: &'t Tree) -> Result<Checked<'t>, Cause>
    requires short { length bytes.now ≤ 2 ^ 20 }
    requires parsed { IsParsed bytes.now (program_of tree.now) }
    ensures accepted { IfOk result (λ checked. IsAccepted bytes.now (program_of checked)) }
    ensures refused { IfErr result (Refuses bytes.now) }
{
    match check(alloc, tree) {
        Ok(checked) => Ok(checked),
        Err(CheckFault::Broken(rule, offset)) => Err(broken_at(bytes, Rule::Check(rule), offset)),
        Err(CheckFault::NoMemory) => Err(Cause::NoMemory),
    }
}

/// The refusal of bytes that break this rule first, at this offset. An offset past their end is read as the end.
fn broken_at(bytes: &[u8], rule: Rule, offset: usize) -> Cause
    requires short { length bytes.now ≤ 2 ^ 20 }
    requires breaks { BreaksAt bytes.now rule offset }
    ensures { Refuses bytes.now result }
{
    let place = place_of(bytes, offset.min(bytes.len()));
    Cause::Broken(rule, place)
}
