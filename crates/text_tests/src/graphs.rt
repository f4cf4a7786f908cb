//! The order of points and the cut points of texts, worked out by hand.

ghost use Rattle.std.specs.Prelude.{◌≡◌};
ghost use Rattle.spl_core.specs.Graph.{graph_of};
ghost use Rattle.call_graph.specs.Tables.{tables_of};

use crate::texts::core_in;
use call_graph::{Graph, graph};
use spl_core::Core;
use std::alloc::Global;
use std::fmt::Write;
use std::test::Fail;

/// Texts, the order of their points, and their cut points: entries, loop heads, exits of procedures that reach themselves.
const GRAPHS: [(&str, &str); 3] = [
    ("begin while random do skip; done; end", "0 1 2 3 4 | 0 1 "),
    (
        "proc a() returns () begin () = b(); end proc b() returns () begin end begin () = a(); end",
        "3 4 0 1 2 5 6 7 | 0 3 5 ",
    ),
    (
        "proc p(n:int) returns (r:int) begin if random then r = 0; else r = q(n); r = r + 1; endif; end proc q(n:int) returns (r:int) begin r = p(n); r = r + 1; end var x:int; begin x = p(x); end",
        "0 1 2 3 4 5 6 7 8 9 10 11 12 13 14 | 0 7 8 11 12 ",
    ),
];

/// The order and the cut points.
fn graph_text(alloc: Global, core: &Core, graph: &Graph) -> Result<String, Fail>
    requires { graph.now ≡ tables_of (graph_of core.now) }
{
    let mut line = String::new(alloc);
    for point in graph.order() {
        write!(line, "{point} ")?;
    }
    line.push_str("| ")?;
    for at in 0..core.points() {
        let cut = graph.is_cut(at);
        if cut {
            write!(line, "{at} ")?;
        }
    }
    Ok(line)
}

#[test]
fn points_are_ordered(rt: HostRuntime) -> Result<(), Fail> {
    for &(text, want) in &GRAPHS {
        let core = core_in(rt.alloc(), text.as_bytes())?;
        let found = graph(rt.alloc(), &core)?;
        let given = graph_text(rt.alloc(), &core, &found)?;
        assert_eq!(&rt; given.as_str(), want);
    }
    Ok(())
}
