//! What the parser holds between two tokens. Nodes that are finished stand in the parts of the tree, and a state names
//! them by number. No state is nested: open blocks and parentheses are lists, so depth costs memory and no stack.

use spl_tree::{BinOp, Block, DeclList, ExprId, MainTree, NameId, NameList, StmtId};
use std::alloc::AllocError;

/// Why a token can't be taken.
#[derive(Drop)]
pub enum Stop {
    Syntax,
    NoMemory,
}

impl From<AllocError> for Stop {
    ghost use Rattle.std.specs.Prelude.{◌≡◌};
    ghost use Rattle.spl_parser.specs.declared.state.Stop.TheVariants.{NoMemory};

    ghost from_gives = { λ _ e. e ≡ NoMemory };

    fn from(_error: AllocError) -> Stop {
        Stop::NoMemory
    }
}

/// A name, and where it starts.
#[derive(Clone, Copy, Drop)]
pub struct Word {
    pub name: NameId,
    pub at: usize,
}

/// A procedure up to its variables.
#[derive(Clone, Copy, Drop)]
pub struct ProcHead {
    pub name: Word,
    pub inputs: DeclList,
    pub outputs: DeclList,
}

/// What stands before a body's variables.
#[derive(Clone, Copy, Drop)]
pub enum Head {
    Main,
    Proc(ProcHead),
}

/// What a list of declarations is for.
#[derive(Clone, Copy, Drop)]
pub enum DeclGoal {
    Inputs(Word),
    Outputs(Word, DeclList),
    Locals(Head),
}

/// Whether a declaration is the first of its list. A later one carries the number of the first.
#[derive(Clone, Copy, Drop)]
pub enum Before {
    First,
    After(u32),
}

/// The front of a conditional or a loop: where it starts, its condition, and where its first block begins.
#[derive(Clone, Copy, Drop)]
pub struct Front {
    pub start: usize,
    pub condition: ExprId,
    pub first: usize,
}

/// An open block around the one that is read: the statements before it in the block around it, and the front of its
/// statement. After `else` the first block stands there too, and where the second one begins.
#[derive(Drop)]
pub enum Frame {
    Then {
        outer: Vec<StmtId>,
        front: Front,
    },
    Else {
        outer: Vec<StmtId>,
        front: Front,
        block: Block,
        second: usize,
    },
    While {
        outer: Vec<StmtId>,
        front: Front,
    },
}

/// A body that is read: its open blocks, the innermost one last, and the statements of the innermost block so far.
#[derive(Drop)]
pub struct Body {
    pub head: Head,
    pub locals: DeclList,
    pub begin: usize,
    pub frames: Vec<Frame>,
    pub stmts: Vec<StmtId>,
}

/// What an expression is for.
#[derive(Clone, Copy, Drop)]
pub enum Goal {
    Assume(usize),
    Assign(Word),
    If(usize),
    While(usize),
}

/// A left operand before `or` or `and`, with the operator's place.
#[derive(Clone, Copy, Drop)]
pub struct Side {
    pub operand: ExprId,
    pub place: usize,
}

/// A left operand with its operator.
#[derive(Clone, Copy, Drop)]
pub struct Left {
    pub operand: ExprId,
    pub operator: BinOp,
    pub place: usize,
}

/// What stands before an operand: at each level of operators the left operand, where there is one, and the places of
/// the prefix operators, the outermost one first.
#[derive(Drop)]
pub struct Pending {
    pub either: Option<Side>,
    pub both: Option<Side>,
    pub nots: Vec<usize>,
    pub comparison: Option<Left>,
    pub sum: Option<Left>,
    pub product: Option<Left>,
    pub minuses: Vec<usize>,
}

/// An expression that is read: in which body, what for, what stands before each parenthesis that is open around the
/// operand, the innermost one last, and what stands before the operand.
#[derive(Drop)]
pub struct OpenExpr {
    pub body: Body,
    pub goal: Goal,
    pub parens: Vec<Pending>,
    pub pending: Pending,
}

/// A statement of one word, at its start.
#[derive(Clone, Copy, Drop)]
pub enum Simple {
    Skip(usize),
    Halt(usize),
    Fail(usize),
}

/// The targets of a call: one name, or a list with where its parenthesis opens.
#[derive(Clone, Copy, Drop)]
pub enum Targets {
    One(Word),
    List(usize, NameList),
}

/// A call up to its arguments.
#[derive(Clone, Copy, Drop)]
pub struct CallHead {
    pub targets: Targets,
    pub called: Word,
}

/// What a list of names is for.
#[derive(Clone, Copy, Drop)]
pub enum NameGoal {
    Targets(usize),
    Arguments(CallHead),
}

/// A statement whose `;` may follow: its front, its first block, where the block after `else` begins, that block, and
/// where its last word ends.
#[derive(Clone, Copy, Drop)]
pub enum Closed {
    If {
        front: Front,
        block: Block,
        end: usize,
    },
    IfElse {
        front: Front,
        block: Block,
        second: usize,
        other: Block,
        end: usize,
    },
    While {
        front: Front,
        block: Block,
        end: usize,
    },
}

/// What was read, and so what may follow.
#[derive(Drop)]
pub enum State {
    Start(Head),
    Begin(Head, DeclList),
    ProcWord,
    ProcName(Word),
    DeclOpen(DeclGoal),
    DeclNext(DeclGoal, Before),
    DeclName {
        goal: DeclGoal,
        before: Before,
        name: Word,
    },
    DeclColon {
        goal: DeclGoal,
        before: Before,
        name: Word,
    },
    DeclAfter(DeclGoal, u32),
    InputsAfter(Word, DeclList),
    ReturnsWord(Word, DeclList),
    InBlock(Body),
    Single(Body, Simple),
    Target(Body, Word),
    AssignStart(Body, Word),
    AssignName {
        body: Body,
        target: Word,
        name: Word,
    },
    Want(OpenExpr),
    Have(OpenExpr, ExprId),
    NamesOpen(Body, NameGoal),
    NamesNext {
        body: Body,
        goal: NameGoal,
        first: u32,
    },
    NamesAfter {
        body: Body,
        goal: NameGoal,
        first: u32,
    },
    TargetsAfter {
        body: Body,
        start: usize,
        list: NameList,
    },
    Called(Body, Targets),
    CalledName(Body, CallHead),
    CallAfter(Body, CallHead, NameList),
    AfterEnd(Body, Closed),
    Finished(MainTree, usize),
}

/// What a token is after an operand.
#[derive(Clone, Copy, Drop)]
pub enum Sign {
    Product(BinOp),
    Sum(BinOp),
    Comparison(BinOp),
    And,
    Or,
    Right,
    Semicolon,
    Then,
    Do,
    Other,
}
