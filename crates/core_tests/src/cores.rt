//! Worked cores.
ghost use Rattle.std.specs.Prelude.{◌≡◌, IfOk};
ghost use Rattle.spl_core.specs.Examples.{incremented, squared};
ghost use Rattle.core_tests.specs.Cores.{multiplied};

use spl_core::{Action, Cmp, Core, CoreCond, CoreExpr, CoreParts, Edge, Proc, Span, law_examples};
use std::alloc::{AllocError, Global};

/// The procedure `inc` of `incrementing`.
pub(crate) const INC: Proc = Proc {
    inputs: 1,
    outputs: 1,
    dims: 3,
    entry: 0,
    exit: 3,
};

/// The main program of `incrementing`.
pub(crate) const INC_MAIN: Proc = Proc {
    inputs: 0,
    outputs: 0,
    dims: 2,
    entry: 4,
    exit: 6,
};

/// An edge with what it does.
fn edge(source: u32, target: u32, action: Action) -> Edge
    ensures { result ≡ record { source = source; target = target; action = action } }
{
    Edge {
        source,
        target,
        action,
    }
}

/// A start with so many numbers of the list of dimensions, from the first on.
fn start(first: u32, count: u32) -> Action
    ensures { result ≡ Action.Start (record { first = first; count = count }) }
{
    Action::Start {
        pairs: Span { first, count },
    }
}

/// The edges of `incrementing`.
fn inc_edges(alloc: Global) -> Result<Vec<Edge>, AllocError>
    ensures { IfOk result (λ v. v.items ≡ incremented.edges) }
{
    let call = Action::Call {
        callee: 0,
        args: Span { first: 2, count: 1 },
        targets: Span { first: 3, count: 1 },
    };
    let edges = vec![in alloc;
        edge(0, 1, start(0, 2)),
        edge(1, 2, Action::Assign { target: 2, expr: 2 }),
        edge(2, 3, Action::Assign { target: 1, expr: 0 }),
        edge(4, 5, start(2, 0)),
        edge(5, 6, call),
    ]?;
    Ok(edges)
}

/// `proc inc(n:int) returns (r:int) begin n = n + 1; r = n; end var a:int, b:int; begin b = inc(a); end`, and a
/// condition that no edge names.
pub(crate) fn incrementing(alloc: Global) -> Result<Core, AllocError>
    ensures { IfOk result (λ c. c ≡ incremented) }
{
    law_examples();
    let procs = vec![in alloc; INC, INC_MAIN]?;
    let owners = vec![in alloc; 0, 0, 0, 0, 1, 1, 1]?;
    let edges = inc_edges(alloc)?;
    let dims = vec![in alloc; 2, 0, 0, 1]?;
    let exprs = vec![in alloc;
        CoreExpr::Variable(2),
        CoreExpr::Number(1),
        CoreExpr::Add(0, 1),
    ]?;
    let conds = vec![in alloc; CoreCond::Compare(Cmp::Lt, 0, 1)]?;
    Ok(Core::from_parts(CoreParts {
        procs,
        owners,
        edges,
        dims,
        exprs,
        conds,
    }))
}

/// `var x:int; begin x = x * x; end`, whose expression 1 is `x * x`.
pub(crate) fn squaring(alloc: Global) -> Result<Core, AllocError>
    ensures { IfOk result (λ c. c ≡ squared) }
{
    law_examples();
    let main = Proc {
        inputs: 0,
        outputs: 0,
        dims: 1,
        entry: 0,
        exit: 2,
    };
    let procs = vec![in alloc; main]?;
    let owners = vec![in alloc; 0, 0, 0]?;
    let square = Action::Assign { target: 0, expr: 1 };
    let edges = vec![in alloc; edge(0, 1, start(0, 0)), edge(1, 2, square)]?;
    let exprs = vec![in alloc; CoreExpr::Variable(0), CoreExpr::Mul(0, 0)]?;
    Ok(Core::from_parts(CoreParts {
        procs,
        owners,
        edges,
        dims: Vec::new(alloc),
        exprs,
        conds: Vec::new(alloc),
    }))
}

/// `var x:int, y:int; begin skip; end` and the expressions x, y and `x * y`, which no edge names.
pub(crate) fn multiplying(alloc: Global) -> Result<Core, AllocError>
    ensures { IfOk result (λ c. c ≡ multiplied) }
{
    let main = Proc {
        inputs: 0,
        outputs: 0,
        dims: 2,
        entry: 0,
        exit: 0,
    };
    let procs = vec![in alloc; main]?;
    let owners = vec![in alloc; 0]?;
    let exprs = vec![in alloc;
        CoreExpr::Variable(0),
        CoreExpr::Variable(1),
        CoreExpr::Mul(0, 1),
    ]?;
    Ok(Core::from_parts(CoreParts {
        procs,
        owners,
        edges: Vec::new(alloc),
        dims: Vec::new(alloc),
        exprs,
        conds: Vec::new(alloc),
    }))
}
