//! Steps over lists of declarations and of names, and over calls.

ghost use Rattle.std.specs.Prelude.{◌≡◌, ◌<◌, ◌≤◌, ◌+◌, ◌*◌, ◌^◌, length, List, ℕ, IfOk};
ghost use Rattle.spl_tree.specs.Lists.{lists_of};
ghost use Rattle.spl_tree.specs.Facts.{IsTree, IsPlace};
ghost use Rattle.spl_parser.specs.Growth.{grown, KindIn};
ghost use Rattle.spl_parser.specs.View.{Follows, Ready, TokenIn, Steps, names_end, RestOf, WordIn, DeclGoalIn, BeforeIn, DeclDone};

use crate::growing::{add_decl, add_named};
use crate::heads::decls_close;
use crate::state::{Before, Body, CallHead, DeclGoal, NameGoal, State, Stop, Targets, Word};
use crate::words::read_word;
use spl_text::{Token, TokenKind};
use spl_tree::{Decl, DeclAt, DeclKind, DeclList, NameList, TreeParts};
use std::alloc::AllocError;

/// After the colon of a declaration.
pub fn at_decl_colon(
    parts: &mut TreeParts,
    bytes: &[u8],
    goal: DeclGoal,
    before: Before,
    name: Word,
    token: Token,
) -> Result<State, Stop>
    requires ready { Ready token.start (lists_of parts.old) (State.DeclColon goal before name) }
    requires token { TokenIn token }
    requires inside { token.end ≤ length bytes.now }
    ensures { Steps bytes.now (lists_of parts.old) (State.DeclColon goal before name) token (lists_of parts.new) result }
{
    match token.kind {
        TokenKind::Int => {
            let next = finish_decl(parts, goal, before, name, DeclKind::Int, token.start)?;
            Ok(next)
        }
        TokenKind::Real => {
            let next = finish_decl(parts, goal, before, name, DeclKind::Real, token.start)?;
            Ok(next)
        }
        TokenKind::Name => {
            let word = read_word(parts, bytes, token)?;
            let next = finish_decl(
                parts,
                goal,
                before,
                name,
                DeclKind::Named(word.name),
                token.start,
            )?;
            Ok(next)
        }
        _ => Err(Stop::Syntax),
    }
}

/// Adds a declaration to its list.
fn finish_decl(
    parts: &mut TreeParts,
    goal: DeclGoal,
    before: Before,
    name: Word,
    kind: DeclKind,
    place: usize,
) -> Result<State, AllocError>
    requires tree { IsTree (lists_of parts.old) }
    requires few { length (grown (lists_of parts.old)).decls < 2 ^ 20 }
    requires name { WordIn (grown (lists_of parts.old)) name }
    requires kind { KindIn (grown (lists_of parts.old)) kind }
    requires goal { DeclGoalIn (grown (lists_of parts.old)) goal }
    requires before { BeforeIn (grown (lists_of parts.old)) before }
    requires placed { IsPlace place }
    ensures { IfOk result (λ s. DeclDone (lists_of parts.old) (lists_of parts.new) goal before name kind place s) }
{
    let decl = Decl {
        name: name.name,
        kind,
    };
    let places = DeclAt {
        name: name.at,
        kind: place,
    };
    let number = add_decl(parts, decl, places)?;
    match before {
        Before::First => Ok(State::DeclAfter(goal, number)),
        Before::After(first) => Ok(State::DeclAfter(goal, first)),
    }
}

/// After a declaration.
pub fn at_decl_after(
    parts: &TreeParts,
    goal: DeclGoal,
    first: u32,
    token: Token,
) -> Result<State, Stop>
    requires ready { Ready token.start (lists_of parts.now) (State.DeclAfter goal first) }
    requires token { TokenIn token }
    ensures { (source : List ℕ) → Steps source (lists_of parts.now) (State.DeclAfter goal first) token (lists_of parts.now) result }
{
    match token.kind {
        TokenKind::Comma => Ok(State::DeclNext(goal, Before::After(first))),
        TokenKind::RightParen => {
            let list = rest_of_decls(parts, first);
            decls_close(goal, list)
        }
        TokenKind::Semicolon => match goal {
            DeclGoal::Locals(head) => {
                let list = rest_of_decls(parts, first);
                Ok(State::Begin(head, list))
            }
            DeclGoal::Inputs(_) => Err(Stop::Syntax),
            DeclGoal::Outputs(_, _) => Err(Stop::Syntax),
        },
        _ => Err(Stop::Syntax),
    }
}

/// The declarations from this one on.
fn rest_of_decls(parts: &TreeParts, first: u32) -> DeclList
    requires few { length parts.now.decls.items ≤ 1048576 }
    requires there { first ≤ length parts.now.decls.items }
    ensures { RestOf first (length parts.now.decls.items) result.first result.count }
{
    DeclList {
        first,
        count: parts.decls.len() as u32 - first,
    }
}

/// The names of calls from this one on.
fn rest_of_names(parts: &TreeParts, first: u32) -> NameList
    requires few { length parts.now.name_items.items ≤ 1048576 }
    requires there { first ≤ length parts.now.name_items.items }
    ensures { RestOf first (length parts.now.name_items.items) result.first result.count }
{
    NameList {
        first,
        count: parts.name_items.len() as u32 - first,
    }
}

/// The state after the `)` of a list of names.
fn names_close(body: Body, goal: NameGoal, list: NameList) -> State
    ensures { result ≡ names_end body goal list }
{
    match goal {
        NameGoal::Targets(start) => State::TargetsAfter { body, start, list },
        NameGoal::Arguments(call) => State::CallAfter(body, call, list),
    }
}

/// Before the first name of a list, or its end.
pub fn at_names_open(
    parts: &mut TreeParts,
    bytes: &[u8],
    body: Body,
    goal: NameGoal,
    token: Token,
) -> Result<State, Stop>
    requires ready { Ready token.start (lists_of parts.old) (State.NamesOpen body goal) }
    requires token { TokenIn token }
    requires inside { token.end ≤ length bytes.now }
    ensures { Steps bytes.now (lists_of parts.old) (State.NamesOpen body goal) token (lists_of parts.new) result }
{
    match token.kind {
        TokenKind::Name => {
            let name = read_word(parts, bytes, token)?;
            let first = add_named(parts, name.name, name.at)?;
            Ok(State::NamesAfter { body, goal, first })
        }
        TokenKind::RightParen => Ok(names_close(body, goal, NameList { first: 0, count: 0 })),
        _ => Err(Stop::Syntax),
    }
}

/// After the comma of a list of names.
pub fn at_names_next(
    parts: &mut TreeParts,
    bytes: &[u8],
    body: Body,
    goal: NameGoal,
    first: u32,
    token: Token,
) -> Result<State, Stop>
    requires ready { Ready token.start (lists_of parts.old) (State.NamesNext body goal first) }
    requires token { TokenIn token }
    requires inside { token.end ≤ length bytes.now }
    ensures { Steps bytes.now (lists_of parts.old) (State.NamesNext body goal first) token (lists_of parts.new) result }
{
    match token.kind {
        TokenKind::Name => {
            let name = read_word(parts, bytes, token)?;
            let _ = add_named(parts, name.name, name.at)?;
            Ok(State::NamesAfter { body, goal, first })
        }
        _ => Err(Stop::Syntax),
    }
}

/// After a name of a list.
pub fn at_names_after(
    parts: &TreeParts,
    body: Body,
    goal: NameGoal,
    first: u32,
    token: Token,
) -> Result<State, Stop>
    requires ready { Ready token.start (lists_of parts.now) (State.NamesAfter body goal first) }
    requires token { TokenIn token }
    ensures { (source : List ℕ) → Steps source (lists_of parts.now) (State.NamesAfter body goal first) token (lists_of parts.now) result }
{
    match token.kind {
        TokenKind::Comma => Ok(State::NamesNext { body, goal, first }),
        TokenKind::RightParen => {
            let list = rest_of_names(parts, first);
            Ok(names_close(body, goal, list))
        }
        _ => Err(Stop::Syntax),
    }
}

/// After the targets of a call.
pub fn at_targets_after(
    body: Body,
    start: usize,
    list: NameList,
    token: Token,
) -> Result<State, Stop>
    ensures { Follows (State.TargetsAfter body start list) token result }
{
    match token.kind {
        TokenKind::Becomes => Ok(State::Called(body, Targets::List(start, list))),
        _ => Err(Stop::Syntax),
    }
}

/// Before the called name.
pub fn at_called(
    parts: &mut TreeParts,
    bytes: &[u8],
    body: Body,
    targets: Targets,
    token: Token,
) -> Result<State, Stop>
    requires ready { Ready token.start (lists_of parts.old) (State.Called body targets) }
    requires token { TokenIn token }
    requires inside { token.end ≤ length bytes.now }
    ensures { Steps bytes.now (lists_of parts.old) (State.Called body targets) token (lists_of parts.new) result }
{
    match token.kind {
        TokenKind::Name => {
            let called = read_word(parts, bytes, token)?;
            Ok(State::CalledName(body, CallHead { targets, called }))
        }
        _ => Err(Stop::Syntax),
    }
}

/// After the called name.
pub fn at_called_name(body: Body, call: CallHead, token: Token) -> Result<State, Stop>
    ensures { Follows (State.CalledName body call) token result }
{
    match token.kind {
        TokenKind::LeftParen => Ok(State::NamesOpen(body, NameGoal::Arguments(call))),
        _ => Err(Stop::Syntax),
    }
}

/// After the name at which a statement begins.
pub fn at_target(body: Body, name: Word, token: Token) -> Result<State, Stop>
    ensures { Follows (State.Target body name) token result }
{
    match token.kind {
        TokenKind::Becomes => Ok(State::AssignStart(body, name)),
        _ => Err(Stop::Syntax),
    }
}
