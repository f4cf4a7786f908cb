//! How deep a text is nested, and how many tokens stand in a row with none that ends their run.
ghost use Rattle.std.specs.Prelude.{◌≡◌, ◌+◌, ◌<◌, ◌≤◌, IfOk, IfErr, None, Some};
ghost use Rattle.spl_text.specs.TextRules.{raises, lowers, restarts, depth_after, run_after};
ghost use Rattle.spl_text.specs.Checked.{limit_rule};

use crate::{TextRule, TokenKind};

/// How deep parentheses and blocks are nested at most.
const MOST_DEPTH: usize = 64;

/// How many tokens stand in a row at most with none that ends their run.
const LONGEST_RUN: usize = 1024;

/// The depth and the run after some tokens.
#[derive(Clone, Copy, Debug, PartialEq, Eq)]
pub struct Limits {
    pub depth: usize,
    pub run: usize,
}

impl Limits {
    /// The depth and the run after one more token, or the rule that it breaks.
    pub fn pass(self, kind: TokenKind) -> Result<Limits, TextRule>
        requires depth { self.depth ≤ 64 }
        requires run { self.run ≤ 1024 }
        ensures depth { IfOk result (λ l. (l.depth ≡ depth_after self.depth kind) × (l.depth ≤ 64)) }
        ensures run { IfOk result (λ l. (l.run ≡ run_after self.run kind) × (l.run ≤ 1024)) }
        ensures kept { IfOk result (λ l. limit_rule (depth_after self.depth kind) (run_after self.run kind) ≡ None) }
        ensures broken { IfErr result (λ rule. limit_rule (depth_after self.depth kind) (run_after self.run kind) ≡ Some rule) }
    {
        let depth = depth_after(self.depth, kind);
        let run = run_after(self.run, kind);
        if depth > MOST_DEPTH {
            return Err(TextRule::TooDeep);
        }
        if run > LONGEST_RUN {
            return Err(TextRule::LongRun);
        }
        Ok(Limits { depth, run })
    }
}

fn depth_after(depth: usize, kind: TokenKind) -> usize
    requires { depth ≤ 64 }
    ensures { result ≡ depth_after depth kind }
{
    if raises(kind) {
        depth + 1
    } else if lowers(kind) {
        depth.saturating_sub(1)
    } else {
        depth
    }
}

fn run_after(run: usize, kind: TokenKind) -> usize
    requires { run ≤ 1024 }
    ensures { result ≡ run_after run kind }
{
    if restarts(kind) { 0 } else { run + 1 }
}

fn raises(kind: TokenKind) -> bool
    ensures { result ≡ raises kind }
{
    matches!(
        kind,
        TokenKind::LeftParen | TokenKind::Begin | TokenKind::If | TokenKind::While
    )
}

fn lowers(kind: TokenKind) -> bool
    ensures { result ≡ lowers kind }
{
    matches!(
        kind,
        TokenKind::RightParen | TokenKind::End | TokenKind::Endif | TokenKind::Done
    )
}

fn restarts(kind: TokenKind) -> bool
    ensures { result ≡ restarts kind }
{
    matches!(
        kind,
        TokenKind::Semicolon | TokenKind::Then | TokenKind::Do | TokenKind::Begin
    )
}
