//! The parts of a core: procedures, points, edges, and the expressions and conditions on them.
ghost use Rattle.std.specs.Prelude.{◌≡◌};
ghost use Rattle.spl_core.specs.Condition.{asked};

/// A span of the core's list of dimensions: the arguments or the targets of a call, or the pairs of a start.
#[derive(Clone, Copy, Debug, Drop, PartialEq, Eq)]
pub struct Span {
    pub first: u32,
    pub count: u32,
}

/// What an edge does to the state of its procedure. The pairs of a start are (working copy, input), one after the other.
#[derive(Clone, Copy, Debug, Drop, PartialEq, Eq)]
pub enum Action {
    Skip,
    Assign {
        target: u32,
        expr: u32,
    },
    Havoc {
        target: u32,
    },
    Test {
        cond: u32,
        wanted: bool,
    },
    Call {
        callee: u32,
        args: Span,
        targets: Span,
    },
    Start {
        pairs: Span,
    },
}

/// An edge from a point to a point of the same procedure.
#[derive(Clone, Copy, Debug, Drop, PartialEq, Eq)]
pub struct Edge {
    pub source: u32,
    pub target: u32,
    pub action: Action,
}

/// A procedure: its inputs are the dimensions from 0 on, its outputs follow, and then its locals and working copies.
#[derive(Clone, Copy, Debug, Drop, PartialEq, Eq)]
pub struct Proc {
    pub inputs: u32,
    pub outputs: u32,
    pub dims: u32,
    pub entry: u32,
    pub exit: u32,
}

/// An expression over expressions with lower numbers. `Div` truncates toward zero and `Rem` is what that leaves; neither has a
/// value where its second operand is 0.
#[derive(Clone, Copy, Debug, Drop, PartialEq, Eq)]
pub enum CoreExpr {
    Number(u64),
    Variable(u32),
    Neg(u32),
    Add(u32, u32),
    Sub(u32, u32),
    Mul(u32, u32),
    Div(u32, u32),
    Rem(u32, u32),
}

/// A comparison of two numbers.
#[derive(Clone, Copy, Debug, Drop, PartialEq, Eq)]
pub enum Cmp {
    Eq,
    Ne,
    Lt,
    Le,
    Gt,
    Ge,
}

impl Cmp {
    /// The comparison that holds exactly where this one comes out as wanted.
    pub fn asked(self, wanted: bool) -> Cmp
        ensures { result ≡ asked self wanted }
    {
        match (self, wanted) {
            (relation, true) => relation,
            (Cmp::Eq, false) => Cmp::Ne,
            (Cmp::Ne, false) => Cmp::Eq,
            (Cmp::Lt, false) => Cmp::Ge,
            (Cmp::Le, false) => Cmp::Gt,
            (Cmp::Gt, false) => Cmp::Le,
            (Cmp::Ge, false) => Cmp::Lt,
        }
    }
}

/// A condition over conditions with lower numbers, or a comparison of two expressions.
#[derive(Clone, Copy, Debug, Drop, PartialEq, Eq)]
pub enum CoreCond {
    True,
    False,
    Random,
    Not(u32),
    And(u32, u32),
    Or(u32, u32),
    Compare(Cmp, u32, u32),
}

/// The lists of a core, of which `Core::from_parts` says what they have to keep. Main is the last procedure; `owners` has
/// the procedure of each point.
#[derive(Drop)]
pub struct CoreParts {
    pub procs: Vec<Proc>,
    pub owners: Vec<u32>,
    pub edges: Vec<Edge>,
    pub dims: Vec<u32>,
    pub exprs: Vec<CoreExpr>,
    pub conds: Vec<CoreCond>,
}
