//! A core gives back the parts that it was made of.

use crate::cores::{INC, INC_MAIN, incrementing};
use spl_core::{Action, Cmp, CoreCond, CoreExpr, Span, law_numbers};
use std::test::Fail;

#[test]
fn reads_back(rt: HostRuntime) -> Result<(), Fail> {
    let core = incrementing(rt.alloc())?;
    law_numbers();
    assert_eq!(rt; (core.points(), core.procs(), core.edge_count()), (7, 2, 5));
    assert!(rt; core.proc_at(0) == INC && core.proc_at(1) == INC_MAIN);
    let owners = [0, 0, 0, 0, 1, 1, 1];
    for (point, owner) in owners.iter().enumerate() {
        assert_eq!(rt; core.owner(point as u32), *owner, "at {point}");
    }
    let edge = core.edge_at(4);
    assert_eq!(rt; (edge.source, edge.target), (5, 6));
    let args = Span { first: 2, count: 1 };
    let targets = Span { first: 3, count: 1 };
    assert!(rt;
        edge.action
            == Action::Call {
                callee: 0,
                args,
                targets
            }
    );
    assert_eq!(rt;
        (core.span_item(args, 0), core.span_item(targets, 0)),
        (0, 1)
    );
    assert!(rt; core.expr_at(2) == CoreExpr::Add(0, 1));
    assert!(rt; core.cond_at(0) == CoreCond::Compare(Cmp::Lt, 0, 1));
    Ok(())
}
